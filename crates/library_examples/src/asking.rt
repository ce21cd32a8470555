// A query over any tree: planned, and carried out.
ghost use Rattle.std.specs.Prelude.{◌≡◌, ◌<◌, length, IfOk};
ghost use Rattle.ub_exec.specs.Answers.{IsAnswer};
ghost use Rattle.ub_query.specs.Posed.{IsPosed};
ghost use Rattle.ub_query.specs.Shape.{asked};
ghost use Rattle.ub_tree.specs.View.{IsSound};

use crate::trips::COLUMNS;
use std::alloc::{AllocError, Global};
use ub_exec::{Answer, ResultSet, execute};
use ub_planning::plan;
use ub_query::{Cell, Cond, Item, Items, Query, SortKey};
use ub_store::PageStore;
use ub_tree::{ReadFault, Tree};

/// The query SELECT day, zone, fare FROM trips WHERE zone BETWEEN low AND high ORDER BY day LIMIT limit.
pub fn first_of_zones(alloc: Global, low: u32, high: u32, limit: u64) -> Result<Query, AllocError>
    ensures { IfOk result (λ q. IsPosed COLUMNS (asked q)) }
{
    let items = [Item::Column(0), Item::Column(1), Item::Column(2)];
    let by_day = SortKey {
        item: Item::Column(0),
        is_descending: false,
    };
    Ok(Query {
        items: Items::new(Vec::from_slice(alloc, &items)?),
        filter: Some(Cond::Between {
            column: 1,
            low: i128::from(low),
            high: i128::from(high),
        }),
        group: Items::new(Vec::new(alloc)),
        order: Items::new(Vec::from_slice(alloc, &[by_day])?),
        limit: Some(limit),
    })
}

/// The answer of a query: over a sound tree its rows are what the query means on the tree's table.
pub fn answer<S: PageStore>(
    alloc: Global,
    tree: &mut Tree<S>,
    query: &Query,
) -> Result<Answer, ReadFault>
    requires { IsPosed (length tree.old.schema.columns) (asked query.now) }
    ensures { IsSound tree.old → IfOk result (λ a. IsAnswer tree.old (asked query.now) a.rows) }
{
    let plan = plan(alloc, query, tree.schema())?;
    execute(alloc, tree, &plan)
}

// Adds the cells of a row as a line, with commas between them.
fn add_row(lines: &mut String, rows: &ResultSet, index: usize) -> Result<(), AllocError>
    requires { index < length rows.now }
{
    for place in 0..rows.width() {
        if place != 0 {
            lines.push(',')?;
        }
        if let Cell::Number(number) = rows.cell(index, place) {
            write!(lines, "{number}")?;
        }
    }
    lines.push('\n')
}

// The rows of an answer as lines, and how many pages of so many regions were read for them.
fn lines_of(alloc: Global, answer: &Answer, regions: u32) -> Result<String, ReadFault> {
    let mut lines = String::new(alloc);
    for i in 0..answer.rows.len() {
        add_row(&mut lines, &answer.rows, i)?;
    }
    let fetched = answer.fetched;
    write!(lines, "pages {fetched} of {regions}\n")?;
    Ok(lines)
}

// The lines of a query's answer.
fn ask<S: PageStore>(alloc: Global, tree: &mut Tree<S>, query: &Query) -> Result<String, ReadFault>
    requires { IsPosed (length tree.old.schema.columns) (asked query.now) }
{
    let answer = answer(alloc, tree, query)?;
    lines_of(alloc, &answer, tree.regions())
}

/// The first three trips of the zones 1 and 2 by their days, and how many pages were read for them. A table of other columns isn't ours.
pub fn first_trips<S: PageStore>(alloc: Global, tree: &mut Tree<S>) -> Result<String, ReadFault> {
    if tree.schema().columns().len() != COLUMNS {
        return Ok(String::new(alloc));
    }
    let query = first_of_zones(alloc, 1, 2, 3)?;
    ask(alloc, tree, &query)
}
