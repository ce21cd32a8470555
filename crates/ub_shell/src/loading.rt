ghost use Rattle.std.specs.Prelude.{◌≡◌, ◌⊎◌, ℕ, List, IfOk, IfErr};
ghost use Rattle.ub_files.specs.Clock.{Endures, IsSameBut, IsSameFolder, Runs};
ghost use Rattle.ub_files.specs.Files.{HasPages, IsText, ReadsFile};
ghost use Rattle.ub_laying.specs.Begun.{CanLay};
ghost use Rattle.ub_load.specs.Grown.{IsGrownTable, ReadsFrom, ReadsTable};
ghost use Rattle.ub_shell.specs.Crashes.{HasTable, LoadLasts, LoadsSafely, MayStand};
ghost use Rattle.ub_shell.specs.Loaded.{axes_asked, IsTable, KeepsText, LoadsFile};
ghost use Rattle.ub_table.specs.Schema.{AreTableNumbers, IsMask};
ghost use Rattle.ub_table.specs.declared.axes.Axes.{Axes};

use std::alloc::Global;
use std::io::Read;
use ub_files::Files;
use ub_laying::GrownStore;
use ub_load::{GrownTable, LastRead, LoadFault, lay_table, read_table};
use ub_script::Out;
use ub_store::StoreFault;
use ub_table::schema::is_mask;
use ub_table_file::making::{Counts, is_same, make_table};
use ub_table_file::status::{Status, tell, tell_load_fault, tell_store_fault};
use ub_words::LoadWords;

// A table that was read, closed in memory: its pages, of which those of regions are spelled when they are asked for.
#[derive(Drop)]
struct Closed<'a> {
    pages: GrownStore<'a>,
    counts: Counts,
}

/// Reads a CSV file, once and as it comes, into a table in memory, makes the table file anew with that table's pages, and tells how many
/// rows and regions it has. What comes first in the text is told: a record that is refused, or that the file can't be read on. The table
/// file is not touched before the table stands in memory: not where a dimension is to be signed that isn't there, nor where both paths
/// are equal (also where both are `-`, though the first is standard input and the second a file), nor where the CSV file can't be read or
/// holds no table; in the first two cases no file is. A load that is stopped at any moment, or whose table file fails, leaves a path that
/// held a table with that table or the new one, and one that held none with none or the new one. Where the table file was made nothing
/// is told but that, or nothing where the write fails. What was read last of a text that is refused is left in `last`.
pub fn load_file<F: Files, W: Out>(
    alloc: Global,
    files: &mut F,
    asked: LoadWords<'_>,
    out: &mut W,
    last: &mut LastRead,
) -> Status
    requires numbers { AreTableNumbers asked.source.dims asked.source.page_rows }
    ensures loads { LoadsFile asked.entry.source.path.now asked.entry.table.now
        asked.entry.source.name.now (axes_asked asked.entry.source) asked.entry.source.page_rows
        (F.facts files.old) (F.facts files.new) (W.facts out.old) (W.facts out.new) result }
    ensures crash { Runs (LoadsSafely asked.entry.source.path.now asked.entry.table.now
        asked.entry.source.name.now (axes_asked asked.entry.source) asked.entry.source.page_rows
        (F.facts files.old)) (F.facts files.old) (F.clock files.old) (F.clock files.new) }
    ensures lasts { result ≡ Status.Done
        → LoadLasts asked.entry.source.path.now asked.entry.table.now
        asked.entry.source.name.now (axes_asked asked.entry.source) asked.entry.source.page_rows
        (F.facts files.old) (F.clock files.new) }
{
    if !is_mask(asked.source.dims, asked.source.signed) {
        return tell(out, b"! BadMask\n", Status::CommandLine);
    }
    if is_same(asked.source.path, asked.table) {
        return tell(out, b"! SameFile\n", Status::CommandLine);
    }
    match read_text(alloc, files, asked, last) {
        Ok(read) => keep_read(alloc, files, read, asked, out),
        Err(fault) => tell_store_fault(fault, out),
    }
}

// Reads the table of a file's text, as it comes. Device comes where it can't be read to the end, or up to what is refused, Memory where
// memory was refused for reading it.
fn read_text<F: Files>(
    alloc: Global,
    files: &mut F,
    asked: LoadWords<'_>,
    last: &mut LastRead,
) -> Result<Result<GrownTable, LoadFault>, StoreFault>
    requires numbers { AreTableNumbers asked.source.dims asked.source.page_rows }
    requires mask { IsMask asked.source.dims asked.source.signed }
    ensures read { IfOk result (λ read. (text : List ℕ)
        × IsText ((F.facts files.old).holds asked.entry.source.path.now) text
        × ReadsTable text (axes_asked asked.entry.source) asked.entry.source.page_rows
        asked.entry.source.name.now read) }
    ensures faults { IfErr result (λ fault.
        (fault ≡ StoreFault.Device) ⊎ (fault ≡ StoreFault.Memory)) }
    ensures effect { ReadsFile asked.entry.source.path.now
        (F.facts files.old) (F.facts files.new) result }
    ensures crash { Runs IsSameFolder (F.facts files.old) (F.clock files.old) (F.clock files.new) }
{
    let mut text = match files.open_text(asked.source.path) {
        Ok(text) => text,
        Err(fault) => return Err(fault),
    };
    let read = read_asked(alloc, &mut text, asked, last);
    match files.close_text(asked.source.path, text) {
        Ok(()) => Ok(read),
        Err(fault) => Err(fault),
    }
}

// Makes the table file of a table that was read, and tells how many rows and regions it has, or why it isn't made.
fn keep_read<F: Files, W: Out>(
    alloc: Global,
    files: &mut F,
    read: Result<GrownTable, LoadFault>,
    asked: LoadWords<'_>,
    out: &mut W,
) -> Status
    requires { (text : List ℕ) × ReadsTable text (axes_asked asked.source)
        asked.source.page_rows asked.source.name.now read }
    ensures keeps { (text : List ℕ) → ReadsTable text (axes_asked asked.entry.source)
        asked.entry.source.page_rows asked.entry.source.name.now read
        → KeepsText asked.entry.table.now text asked.entry.source.name.now
        (axes_asked asked.entry.source) asked.entry.source.page_rows
        (F.facts files.old) (F.facts files.new)
        (W.facts out.old) (W.facts out.new) result }
    ensures crash { (text : List ℕ) → ReadsTable text (axes_asked asked.entry.source)
        asked.entry.source.page_rows asked.entry.source.name.now read
        → Runs (IsSameBut asked.entry.table.now (λ held.
        HasTable text asked.entry.source.name.now (axes_asked asked.entry.source)
        asked.entry.source.page_rows
        (MayStand asked.entry.table.now (F.facts files.old) held)))
        (F.facts files.old) (F.clock files.old) (F.clock files.new) }
    ensures lasts { (text : List ℕ) → ReadsTable text (axes_asked asked.entry.source)
        asked.entry.source.page_rows asked.entry.source.name.now read
        → result ≡ Status.Done → Endures asked.entry.table.now (λ held.
        HasTable text asked.entry.source.name.now (axes_asked asked.entry.source)
        asked.entry.source.page_rows (HasPages held)) (F.facts files.old) (F.clock files.new) }
{
    let table = match read {
        Ok(table) => table,
        Err(fault) => return tell_load_fault(fault, out),
    };
    match close_table(alloc, &table) {
        Ok(closed) => make_table(files, asked.table, &closed.pages, closed.counts, out),
        Err(fault) => tell_load_fault(fault, out),
    }
}

// Reads the table that is asked for, of the text that a source gives.
fn read_asked<R: Read>(
    alloc: Global,
    source: &mut R,
    asked: LoadWords<'_>,
    last: &mut LastRead,
) -> Result<GrownTable, LoadFault>
    requires numbers { AreTableNumbers asked.source.dims asked.source.page_rows }
    requires mask { IsMask asked.source.dims asked.source.signed }
    ensures { ReadsFrom (R.remaining source.old) (axes_asked asked.entry.source)
        asked.entry.source.page_rows asked.entry.source.name.now result }
{
    read_table(
        alloc,
        source,
        asked.source.dims,
        asked.source.page_rows,
        asked.source.name.as_bytes(),
        asked.source.signed,
        last,
    )
}

// Lays a table that was read in memory, and closes it there.
fn close_table<'a>(alloc: Global, table: &'a GrownTable) -> Result<Closed<'a>, LoadFault>
    requires { CanLay table.now.schema table.now.next table.now.grown }
    ensures closed { (text : List ℕ) (name : List ℕ) (axes : Axes) (page_rows : ℕ)
        → IsGrownTable text axes page_rows name table.now → IfOk result (λ c. IsTable text name axes
        page_rows c.counts.rows c.counts.regions c.pages.pages) }
    ensures refused { IfErr result (λ fault. fault ≡ LoadFault.Memory) }
{
    let tree = lay_table(alloc, table)?;
    let counts = Counts {
        rows: tree.rows(),
        regions: tree.regions(),
    };
    match tree.close() {
        Ok(pages) => Ok(Closed { pages, counts }),
        // The store fails only where memory is refused.
        Err(_) => Err(LoadFault::Memory),
    }
}
