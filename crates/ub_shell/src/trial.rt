ghost use Rattle.ub_files.specs.Clock.{IsSameFolder, Runs};
ghost use Rattle.ub_load.specs.LoadedTable.{axes_with};
ghost use Rattle.ub_shell.specs.Ending.{trial, HasTried};
ghost use Rattle.ub_shell.specs.Loaded.{axes_asked, TriesFiles};
ghost use Rattle.ub_table.specs.Schema.{AreTableNumbers, IsMask};

use std::alloc::Global;
use ub_files::Files;
use ub_script::{Out, RunFault, try_text};
use ub_table::schema::is_mask;
use ub_table_file::status::{
    Status, summary_status, tell, tell_load_fault, tell_memory, tell_store_fault, tell_tree_fault,
};
use ub_words::TryWords;

/// Reads a CSV file and then a script, each once, and runs the script on the table of the text, as `tell_try` does. A file that
/// can't be read is told, and nothing else is done. Where a dimension is to be signed that isn't there, that is told, and no file
/// is read.
pub fn try_files<F: Files, W: Out>(
    alloc: Global,
    files: &mut F,
    asked: TryWords<'_>,
    out: &mut W,
) -> Status
    requires numbers { AreTableNumbers asked.source.dims asked.source.page_rows }
    ensures tries { TriesFiles asked.entry.source.path.now asked.entry.script.now
        asked.entry.source.name.now (axes_asked asked.entry.source) asked.entry.source.page_rows
        (F.facts files.old) (F.facts files.new) (W.facts out.old) (W.facts out.new) result }
    ensures crash { Runs IsSameFolder (F.facts files.old) (F.clock files.old) (F.clock files.new) }
{
    if !is_mask(asked.source.dims, asked.source.signed) {
        return tell(out, b"! BadMask\n", Status::CommandLine);
    }
    let text = match files.read(asked.source.path) {
        Ok(text) => text,
        Err(fault) => return tell_store_fault(fault, out),
    };
    let script = match files.read(asked.script) {
        Ok(script) => script,
        Err(fault) => return tell_store_fault(fault, out),
    };
    tell_try(
        alloc,
        text.as_slice(),
        asked.source.dims,
        asked.source.page_rows,
        asked.source.name.as_bytes(),
        asked.source.signed,
        script.as_slice(),
        out,
    )
}

/// Runs a script on the table of a CSV text, and ends with what came of it: `Done` or `Refused` with the script's
/// text written, by whether a statement was refused; `Data` where the text is no table, or an INSERT finds no number
/// left or no room, and `Memory` where memory is refused, each with a last line that says so, after the texts of the
/// first statements; `Device` where a write fails, and then nothing more is written.
pub fn tell_try<W: Out>(
    alloc: Global,
    text: &[u8],
    dims: u32,
    page_rows: u32,
    name: &[u8],
    signed: u32,
    script: &[u8],
    out: &mut W,
) -> Status
    requires numbers { AreTableNumbers dims page_rows }
    requires mask { IsMask dims signed }
    ensures { HasTried (trial text.now (axes_with dims signed) page_rows name.now script.now)
        (W.facts out.old) (W.facts out.new) result }
{
    match try_text(alloc, text, dims, page_rows, name, signed, script, out) {
        Ok(summary) => summary_status(summary),
        Err(RunFault::Memory) => tell_memory(out),
        Err(RunFault::Write) => Status::Device,
        Err(RunFault::Load(fault)) => tell_load_fault(fault, out),
        Err(RunFault::Tree(fault)) => tell_tree_fault(fault, out),
    }
}
