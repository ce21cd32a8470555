ghost use Rattle.std.specs.Prelude.{◌<◌, ℕ, length, IfSome};
ghost use Rattle.ub_query.specs.Posed.{IsPosed};
ghost use Rattle.ub_query.specs.Shape.{asked};

use crate::reply::{NONE, UNKNOWN, release};
use crate::told::Told;
use std::alloc::{AllocError, Global};
use ub_exec::{Answer, ResultSet, delete, execute};
use ub_lexer::lex;
use ub_parser::{Statement, parse};
use ub_plan::explain;
use ub_planning::{Plan, plan};
use ub_query::{Cell, Query, RowSink};
use ub_store::PageStore;
use ub_table::{Row, Schema};
use ub_tetris::{Sweep, SweepFault};
use ub_tree::{ReadFault, Tree, TreeFault};

/// Puts what a statement is answered by the plan of its query; what follows `sweep` or `hand` by so many turns of the sweep.
pub fn answer_by<S: PageStore>(
    alloc: Global,
    tree: &mut Tree<S>,
    head: &str,
    text: &str,
    turns: u32,
    told: &mut Told,
) {
    match planned(alloc, tree.schema(), text) {
        Some(plan) => {
            by_plan(alloc, tree, head, &plan, turns, told);
            release(plan);
        }
        None => told.put(UNKNOWN),
    }
}

// The same by that plan.
fn by_plan<S: PageStore>(
    alloc: Global,
    tree: &mut Tree<S>,
    head: &str,
    plan: &Plan,
    turns: u32,
    told: &mut Told,
)
    requires { IsPosed (length tree.old.schema.columns) plan.now.asked }
{
    match head {
        "SELECT" => select_by(alloc, tree, plan, told),
        "EXPLAIN" => explain_by(alloc, tree, plan, told),
        "DELETE" => delete_by(alloc, tree, plan, told),
        _ => sweep_by(alloc, tree, plan, turns, head == "hand", told),
    }
}

// The plan of the query of a statement.
fn planned(alloc: Global, schema: &Schema, text: &str) -> Option<Plan>
    ensures { IfSome result (λ p. IsPosed (length schema.now.columns) p.asked) }
{
    let source = text.as_bytes();
    let Ok(tokens) = lex(alloc, source) else {
        return None;
    };
    if tokens.is_empty() {
        return None;
    }
    match parse(alloc, source, tokens.as_slice(), schema) {
        Ok(Statement::Select(query) | Statement::Explain(query) | Statement::Delete(query)) => {
            plan_of(alloc, schema, &query)
        }
        _ => None,
    }
}

// The plan of a query.
fn plan_of(alloc: Global, schema: &Schema, query: &Query) -> Option<Plan>
    ensures { (columns : ℕ) → IsPosed columns (asked query.now)
        → IfSome result (λ p. IsPosed columns p.asked) }
{
    match plan(alloc, query, schema) {
        Ok(plan) => Some(plan),
        Err(_) => None,
    }
}

// How many pages are read for a query, how many rows it gives, and the rows where they are few.
fn select_by<S: PageStore>(alloc: Global, tree: &mut Tree<S>, plan: &Plan, told: &mut Told)
    requires { IsPosed (length tree.old.schema.columns) plan.now.asked }
{
    match execute(alloc, tree, plan) {
        Ok(answer) => answered(&answer, told),
        Err(fault) => unread(fault, told),
    }
}

// The words of an answer.
fn answered(answer: &Answer, told: &mut Told) {
    let rows = &answer.rows;
    let count = rows.len();
    told.put("pages ");
    told.number(answer.fetched as u128);
    told.put(" rows ");
    told.number(count as u128);
    if count < 9 {
        for i in 0..count {
            told.put(if i == 0 { ": " } else { " " });
            cells(rows, i, told);
        }
    }
}

// The cells of a row, with commas between them.
fn cells(rows: &ResultSet, index: usize, told: &mut Told)
    requires { index < length rows.now }
{
    for place in 0..rows.width() {
        told.put(if place == 0 { "" } else { "," });
        if let Cell::Number(number) = rows.cell(index, place) {
            told.signed(number);
        }
    }
}

// The lines that explain a query, with ` | ` between them.
fn explain_by<S: PageStore>(alloc: Global, tree: &mut Tree<S>, plan: &Plan, told: &mut Told) {
    match explain(alloc, plan, tree) {
        Ok(text) => lines(text.as_slice(), told),
        Err(fault) => unread(fault, told),
    }
}

// The lines of a text, with ` | ` between them.
fn lines(text: &[u8], told: &mut Told) {
    told.begin();
    for line in std::str::from_utf8(text).unwrap_or("").lines() {
        told.part(" | ");
        told.put(line);
    }
}

// How many rows a statement deletes.
fn delete_by<S: PageStore>(alloc: Global, tree: &mut Tree<S>, plan: &Plan, told: &mut Told)
    requires { IsPosed (length tree.old.schema.columns) plan.now.asked }
{
    match delete(alloc, tree, plan) {
        Ok(count) => told.number(count as u128),
        Err(fault) => unread(fault, told),
    }
}

// What so many turns of the sweep of a query give, each with how many pages were read up to then, and how many rows are held. Before the
// first one nothing is read and held. Where it hands over, it does that twice after these turns, and then has as many turns again.
fn sweep_by<S: PageStore>(
    alloc: Global,
    tree: &mut Tree<S>,
    plan: &Plan,
    turns: u32,
    hands_over: bool,
    told: &mut Told,
)
    requires { IsPosed (length tree.old.schema.columns) plan.now.asked }
{
    let columns = tree.schema().columns().len();
    match Sweep::new(alloc, tree, plan) {
        Ok(mut sweep) => take_turns(&mut sweep, tree, columns, plan, turns, hands_over, told),
        Err(fault) => refused(fault, told),
    }
}

// The same of a sweep that has begun, over a table of so many columns.
fn take_turns<S: PageStore>(
    sweep: &mut Sweep,
    tree: &mut Tree<S>,
    columns: usize,
    plan: &Plan,
    turns: u32,
    hands_over: bool,
    told: &mut Told,
)
    requires { IsPosed columns plan.now.asked }
{
    if !tree.trace().is_empty() || sweep.held() != 0 {
        return told.put("the sweep has begun");
    }
    let to = turns.saturating_add(if hands_over { 2 } else { 0 });
    let count = to.saturating_add(if hands_over { turns } else { 0 });
    for n in 0..count {
        if tree.schema().columns().len() != columns {
            return told.put(UNKNOWN);
        }
        told.put(if n == 0 { "" } else { ", " });
        if n < turns || to <= n {
            turn(sweep, tree, plan, told);
        } else {
            hand_over(sweep, tree, plan, told);
        }
        standing(tree.trace().len(), sweep.held(), told);
    }
}

// How many pages were read up to a turn, and how many rows are held after it.
fn standing(read: usize, held: usize, told: &mut Told) {
    told.put(" (");
    told.number(read as u128);
    told.put(" ");
    told.number(held as u128);
    told.put(")");
}

// What the next turn of a sweep gives: the measure of a row, or where the query has groups the numbers of the rows of a value.
fn turn<S: PageStore>(sweep: &mut Sweep, tree: &mut Tree<S>, plan: &Plan, told: &mut Told)
    requires { IsPosed (length tree.old.schema.columns) plan.now.asked }
{
    if plan.query().has_groups() {
        return value_given(sweep.next_value(tree, plan), told);
    }
    row_given(sweep.next(tree, plan), told);
}

// The numbers of the rows of a value that was given.
fn value_given(given: Result<Option<Vec<Row>>, SweepFault>, told: &mut Told) {
    match given {
        Ok(Some(rows)) => numbers(rows.as_slice(), told),
        Ok(None) => told.put(NONE),
        Err(fault) => refused(fault, told),
    }
}

// The measure of a row that was given.
fn row_given(given: Result<Option<Row>, SweepFault>, told: &mut Told) {
    match given {
        Ok(Some(row)) => told.signed(row.measures[0] as i128),
        Ok(None) => told.put(NONE),
        Err(fault) => refused(fault, told),
    }
}

// The numbers of rows, with a plus between them.
fn numbers(rows: &[Row], told: &mut Told) {
    told.begin();
    for row in rows {
        told.part("+");
        told.number(row.number as u128);
    }
}

// Rows that are handed over are told by their numbers.
impl RowSink for Told {
    ghost HasTaken = { λ _ _ _ _ _. Unit {0} };

    fn push(&mut self, _schema: &Schema, _query: &Query, row: &Row) -> Result<(), AllocError> {
        self.part("+");
        self.number(row.number as u128);
        Ok(())
    }
}

// The numbers of the rows of all regions that are left, as a sweep hands them over, and behind them its fault.
fn hand_over<S: PageStore>(sweep: &mut Sweep, tree: &mut Tree<S>, plan: &Plan, told: &mut Told)
    requires { IsPosed (length tree.old.schema.columns) plan.now.asked }
{
    told.begin();
    let ended = sweep.hand_over(tree, plan, told);
    if let Err(fault) = ended {
        told.part(" ");
        return refused(fault, told);
    }
    if told.is_begun() {
        told.put(NONE);
    }
}

// The words of a fault of what only reads a tree.
fn unread(fault: ReadFault, told: &mut Told) {
    match fault {
        ReadFault::Tree(fault) => told.fault(fault),
        ReadFault::Memory => told.fault(TreeFault::Memory),
    }
}

// The words of a sweep's fault.
fn refused(fault: SweepFault, told: &mut Told) {
    told.fault(match fault {
        SweepFault::Tree(fault) => fault,
        SweepFault::Memory => TreeFault::Memory,
        SweepFault::Failed => TreeFault::Failed,
    });
}
