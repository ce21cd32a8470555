ghost use Rattle.std.specs.Prelude.{◌≡◌, ◌<◌, length, IfOk};
ghost use Rattle.ub_query.specs.Posed.{IsOver};
ghost use Rattle.ub_query.specs.Shape.{shape};
ghost use Rattle.ub_query.specs.Truth as spec;
ghost use Rattle.ub_table.specs.Table.{column_value};

use std::alloc::{AllocError, Global};
use ub_table::{Row, Schema};

/// How two values are compared.
#[derive(Clone, Copy, PartialEq, Eq, Debug)]
pub enum Operator {
    Equal,
    NotEqual,
    Less,
    AtMost,
    Greater,
    AtLeast,
}

impl Operator {
    /// Whether the first number compares so with the second. Takes no memory.
    pub fn holds(self, a: i128, b: i128) -> bool
        ensures { result ≡ spec.holds self a b }
    {
        match self {
            Operator::Equal => a == b,
            Operator::NotEqual => a != b,
            Operator::Less => a < b,
            Operator::AtMost => a <= b,
            Operator::Greater => a > b,
            Operator::AtLeast => a >= b,
        }
    }
}

/// A condition on a row.
#[derive(Drop)]
pub enum Cond {
    And(Box<Cond>, Box<Cond>),
    Or(Box<Cond>, Box<Cond>),
    Not(Box<Cond>),
    /// The value in a column compares so with a number.
    Compare {
        column: usize,
        operator: Operator,
        value: i128,
    },
    /// The value in a column is at least `low` and at most `high`.
    Between {
        column: usize,
        low: i128,
        high: i128,
    },
}

impl Cond {
    /// Whether the condition holds of a row of a table of this schema, which has the columns that it names.
    ///
    /// Takes no memory, and calls itself no deeper than the condition is high.
    pub fn truth(&self, schema: &Schema, row: &Row) -> bool
        requires { IsOver (length schema.now.columns) (shape self.now) }
        ensures { result ≡ spec.truth (column_value schema.now row.now) (shape self.now) }
    {
        match self {
            Cond::And(a, b) => a.truth(schema, row) && b.truth(schema, row),
            Cond::Or(a, b) => a.truth(schema, row) || b.truth(schema, row),
            Cond::Not(a) => !a.truth(schema, row),
            Cond::Compare {
                column,
                operator,
                value,
            } => operator.holds(i128::from(schema.value_of(row, *column)), *value),
            Cond::Between { column, low, high } => {
                let value = i128::from(schema.value_of(row, *column));
                *low <= value && value <= *high
            }
        }
    }

    /// The same condition in memory of its own. Calls itself no deeper than the condition is high.
    pub fn copy(&self, alloc: Global) -> Result<Cond, AllocError>
        ensures { IfOk result (λ c. shape c ≡ shape self.now) }
    {
        match self {
            Cond::And(a, b) => Ok(Cond::And(
                Box::new(alloc, a.copy(alloc)?)?,
                Box::new(alloc, b.copy(alloc)?)?,
            )),
            Cond::Or(a, b) => Ok(Cond::Or(
                Box::new(alloc, a.copy(alloc)?)?,
                Box::new(alloc, b.copy(alloc)?)?,
            )),
            Cond::Not(a) => Ok(Cond::Not(Box::new(alloc, a.copy(alloc)?)?)),
            Cond::Compare {
                column,
                operator,
                value,
            } => Ok(Cond::Compare {
                column: *column,
                operator: *operator,
                value: *value,
            }),
            Cond::Between { column, low, high } => Ok(Cond::Between {
                column: *column,
                low: *low,
                high: *high,
            }),
        }
    }
}
