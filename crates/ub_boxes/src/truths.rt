ghost use Rattle.std.specs.Prelude.{◌≡◌, length};
ghost use Rattle.ub_boxes.specs.Truths as spec;
ghost use Rattle.ub_query.specs.Shape.{shape};

use ub_query::Cond;
use ub_table::Schema;

// What a condition can be at a point.
#[derive(Clone, Copy)]
struct Truths {
    can_be_true: bool,
    can_be_false: bool,
}

impl Truths {
    // Of what is known, that alone; of what isn't, both.
    fn known_as(known: Option<bool>) -> Truths
        ensures { result ≡ spec.known_as known }
    {
        match known {
            Some(truth) => Truths {
                can_be_true: truth,
                can_be_false: !truth,
            },
            None => Truths {
                can_be_true: true,
                can_be_false: true,
            },
        }
    }

    fn and(self, other: Truths) -> Truths
        ensures { result ≡ spec.conjoined self other }
    {
        Truths {
            can_be_true: self.can_be_true && other.can_be_true,
            can_be_false: self.can_be_false || other.can_be_false,
        }
    }

    fn or(self, other: Truths) -> Truths
        ensures { result ≡ spec.disjoined self other }
    {
        Truths {
            can_be_true: self.can_be_true || other.can_be_true,
            can_be_false: self.can_be_false && other.can_be_false,
        }
    }

    fn exchanged(self) -> Truths
        ensures { result ≡ spec.exchanged self }
    {
        Truths {
            can_be_true: self.can_be_false,
            can_be_false: self.can_be_true,
        }
    }
}

// The value of a point in a column, which is known of a dimension and not of a measure.
fn known_value(schema: &Schema, point: &[u32], column: usize) -> Option<i128>
    requires { length point.now ≡ schema.now.dims }
    ensures { result ≡ spec.known_value schema.now point.now column }
{
    if column < schema.dims() as usize {
        Some(i128::from(schema.value(column, point[column])))
    } else {
        None
    }
}

// What a condition can be at a point. Calls itself no deeper than the condition is high.
fn can_be(condition: &Cond, schema: &Schema, point: &[u32]) -> Truths
    requires { length point.now ≡ schema.now.dims }
    ensures { result ≡ spec.can_be schema.now point.now (shape condition.now) }
{
    match condition {
        Cond::And(a, b) => can_be(a, schema, point).and(can_be(b, schema, point)),
        Cond::Or(a, b) => can_be(a, schema, point).or(can_be(b, schema, point)),
        Cond::Not(a) => can_be(a, schema, point).exchanged(),
        Cond::Compare {
            column,
            operator,
            value,
        } => match known_value(schema, point, *column) {
            Some(x) => Truths::known_as(Some(operator.holds(x, *value))),
            None => Truths::known_as(None),
        },
        Cond::Between { column, low, high } => match known_value(schema, point, *column) {
            Some(x) => Truths::known_as(Some(*low <= x && x <= *high)),
            None => Truths::known_as(None),
        },
    }
}

// Whether the cover of a condition has a point: whether the condition can be true there.
pub(crate) fn covers(filter: Option<&Cond>, schema: &Schema, point: &[u32]) -> bool
    requires { length point.now ≡ schema.now.dims }
    ensures { result ≡ spec.covers schema.now (spec.shape_of filter.entry) point.now }
{
    match filter {
        Some(condition) => can_be(condition, schema, point).can_be_true,
        None => true,
    }
}

// Whether a condition names dimensions only. Calls itself no deeper than the condition is high.
fn names_dimensions(condition: &Cond, schema: &Schema) -> bool
    ensures { result ≡ spec.names_dimensions schema.now (shape condition.now) }
{
    match condition {
        Cond::And(a, b) | Cond::Or(a, b) => {
            names_dimensions(a, schema) && names_dimensions(b, schema)
        }
        Cond::Not(a) => names_dimensions(a, schema),
        Cond::Compare { column, .. } | Cond::Between { column, .. } => {
            *column < schema.dims() as usize
        }
    }
}

// Whether what is selected by, if anything, names dimensions only.
pub(crate) fn is_of_dimensions(filter: Option<&Cond>, schema: &Schema) -> bool
    ensures { result ≡ spec.is_of_dimensions schema.now (spec.shape_of filter.entry) }
{
    match filter {
        Some(condition) => names_dimensions(condition, schema),
        None => true,
    }
}
