ghost use Rattle.std.specs.List.{All};
ghost use Rattle.std.specs.Prelude.{◌≡◌, ◌<◌, length};
ghost use Rattle.ub_files.specs.Clock.{Endures, IsSameBut, Runs};
ghost use Rattle.ub_table.specs.Region.{measures_of};
ghost use Rattle.ub_table_file.specs.Appended.{appended_line, AppendLasts, AppendsFile, AppendsSafely, AppendsText, HasRows};
ghost use Rattle.ub_table_file.specs.Crashes.{SaysAllDone};
ghost use Rattle.ub_table_file.specs.inner.Appending.{AppendsRows, AppendsTree, HoldsCount, HoldsPut, HoldsRows, HoldsText, KeepsCount};
ghost use Rattle.ub_tree.specs.Change.{Suits};

use crate::closing::{close_table, leave_table};
use crate::line::{Line, twice_numbered_line};
use crate::making::is_same;
use crate::opening::open_table;
use crate::status::{Status, tell, tell_line, tell_load_fault, tell_store_fault, tell_tree_fault};
use std::alloc::Global;
use ub_files::Files;
use ub_load::read_rows;
use ub_script::{Out, put_rows};
use ub_table::Row;
use ub_tree::Tree;
use ub_words::AppendWords;

/// Reads a CSV file, once, opens a table file, puts the rows of the text in behind those of its table, and tells how many they are and
/// how many rows the table has now. The text's columns are those of the table, found by their names. Nothing is put in before the whole
/// text was read and is well, and nothing is kept before all its rows are in: the table file is as it was where both paths are equal,
/// where a file can't be read or opened, where the text doesn't fit the table, and where a row can't be put in; and each of them is
/// told. Where the text has no row the table file isn't written. An append that is stopped at any moment, or whose file fails, leaves
/// the table as it was, or with all the rows. After `Device` with nothing told they are in, unless a refusal was to be told.
pub fn append_file<F: Files, W: Out>(
    alloc: Global,
    files: &mut F,
    asked: AppendWords<'_>,
    out: &mut W,
) -> Status
    ensures appends { AppendsFile asked.entry.table.now asked.entry.data.now
        (F.facts files.old) (F.facts files.new) (W.facts out.old) (W.facts out.new) result }
    ensures crash { Runs (AppendsSafely asked.entry.table.now asked.entry.data.now
        (F.facts files.old) (W.facts out.old) (W.facts out.new) result)
        (F.facts files.old) (F.clock files.old) (F.clock files.new) }
    ensures lasts { SaysAllDone result → AppendLasts asked.entry.table.now asked.entry.data.now
        (F.facts files.old) (W.facts out.old) (W.facts out.new) result (F.clock files.new) }
{
    if is_same(asked.data, asked.table) {
        return tell(out, b"! SameFile\n", Status::CommandLine);
    }
    match files.read(asked.data) {
        Ok(text) => append_text(alloc, files, asked.table, text.as_slice(), out),
        Err(fault) => tell_store_fault(fault, out),
    }
}

// Appends the rows of a text to a table file, which is opened to be changed.
fn append_text<F: Files, W: Out>(
    alloc: Global,
    files: &mut F,
    path: &str,
    text: &[u8],
    out: &mut W,
) -> Status
    ensures appends { AppendsText path.now text.now
        (F.facts files.old) (F.facts files.new) (W.facts out.old) (W.facts out.new) result }
    ensures crash { Runs (IsSameBut path.now (HoldsText path.now text.now (F.facts files.old)
        (W.facts out.old) (W.facts out.new) result))
        (F.facts files.old) (F.clock files.old) (F.clock files.new) }
    ensures lasts { HasRows text.now → SaysAllDone result
        → Endures path.now (HoldsText path.now text.now (F.facts files.old)
        (W.facts out.old) (W.facts out.new) result) (F.facts files.old) (F.clock files.new) }
{
    match open_table(alloc, files, path, true, out) {
        Ok(tree) => append_tree(alloc, files, path, tree, text, out),
        Err(status) => status,
    }
}

// Appends the rows of a text to the tree of a table file, and closes it.
fn append_tree<F: Files, W: Out>(
    alloc: Global,
    files: &mut F,
    path: &str,
    tree: Tree<F::Store>,
    text: &[u8],
    out: &mut W,
) -> Status
    ensures appends { AppendsTree path.now text.now tree
        (F.facts files.old) (F.facts files.new) (W.facts out.old) (W.facts out.new) result }
    ensures crash { Runs (IsSameBut path.now (HoldsRows tree text.now
        (W.facts out.old) (W.facts out.new) result))
        (F.facts files.old) (F.clock files.old) (F.clock files.new) }
    ensures lasts { HasRows text.now → SaysAllDone result
        → Endures path.now (HoldsRows tree text.now
        (W.facts out.old) (W.facts out.new) result) (F.facts files.old) (F.clock files.new) }
{
    match read_rows(alloc, text, tree.schema(), tree.next()) {
        Ok(rows) => append_rows(alloc, files, path, tree, rows.as_slice(), out),
        Err(fault) => {
            leave_table(files, path, tree);
            tell_load_fault(fault, out)
        }
    }
}

// Puts rows into the tree of a table file, and keeps what is left where all of them are in.
fn append_rows<F: Files, W: Out>(
    alloc: Global,
    files: &mut F,
    path: &str,
    mut tree: Tree<F::Store>,
    rows: &[Row],
    out: &mut W,
) -> Status
    requires suit { All (Suits tree.schema.dims (measures_of tree.schema)) rows.now }
    ensures appends { AppendsRows path.now rows.now tree
        (F.facts files.old) (F.facts files.new) (W.facts out.old) (W.facts out.new) result }
    ensures crash { Runs (IsSameBut path.now (HoldsPut tree rows.now
        (W.facts out.old) (W.facts out.new) result))
        (F.facts files.old) (F.clock files.old) (F.clock files.new) }
    ensures lasts { 0 < length rows.now → SaysAllDone result
        → Endures path.now (HoldsPut tree rows.now
        (W.facts out.old) (W.facts out.new) result) (F.facts files.old) (F.clock files.new) }
{
    let next = tree.next();
    match put_rows(alloc, &mut tree, rows) {
        Ok(()) => {
            let count = tree.next() - next;
            keep_rows(files, path, tree, count, out)
        }
        Err(fault) => {
            leave_table(files, path, tree);
            tell_tree_fault(fault, out)
        }
    }
}

// Closes the tree of a table file into which so many rows were put, keeps what is left where there were any, and tells them, or why
// they aren't kept.
fn keep_rows<F: Files, W: Out>(
    files: &mut F,
    path: &str,
    tree: Tree<F::Store>,
    count: u32,
    out: &mut W,
) -> Status
    ensures keeps { KeepsCount path.now count tree
        (F.facts files.old) (F.facts files.new) (W.facts out.old) (W.facts out.new) result }
    ensures crash { Runs (IsSameBut path.now (HoldsCount tree count
        (W.facts out.old) (W.facts out.new) result))
        (F.facts files.old) (F.clock files.old) (F.clock files.new) }
    ensures lasts { 0 < count → SaysAllDone result
        → Endures path.now (HoldsCount tree count
        (W.facts out.old) (W.facts out.new) result) (F.facts files.old) (F.clock files.new) }
{
    let rows = tree.rows();
    match close_table(files, path, 0 < count, tree) {
        Ok(()) => tell_line(&appended_line(count, rows), Status::Done, out),
        Err(fault) => tell_tree_fault(fault, out),
    }
}

// The line for rows that were appended: how many they are, and how many rows the table has now.
fn appended_line(count: u32, rows: u32) -> Line
    ensures { result.bytes ≡ appended_line count rows }
{
    twice_numbered_line("-- appended ", count, ", rows ", rows)
}
