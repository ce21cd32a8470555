ghost use Rattle.std.specs.Prelude.{◌≡◌, ◌⊎◌, Ok, Err, IsTrue};
ghost use Rattle.ub_files.specs.Clock.{Endures, IsSameBut, Runs};
ghost use Rattle.ub_script.specs.Script.{HasChangeWord};
ghost use Rattle.ub_table_file.specs.Commands.{IsAskedOf, IsUnlent, RunsFile, RunsScript, TellsClosed, TellsRan, status_after};
ghost use Rattle.ub_table_file.specs.Crashes.{HoldsAsked, RunLasts, RunsSafely, SaysAllDone};
ghost use Rattle.ub_table_file.specs.inner.Running.{RunsTree};

use crate::closing::close_table;
use crate::opening::open_table;
use crate::status::{
    Status, summary_status, tell_load_fault, tell_memory, tell_store_fault, tell_tree_fault,
};
use std::alloc::Global;
use ub_files::Files;
use ub_script::{Out, RunFault, Script, Summary};
use ub_tree::{Tree, TreeFault};
use ub_words::RunWords;

/// Reads a script, once, opens the table file, runs the script on its table and closes it, also after a fault. The script's text
/// is written as `run` writes it; a fault is told on a last line. A script that has no INSERT or DELETE only asks: the table file is
/// opened to be asked, and is left as it was. Else it is opened to be changed, and what the script does stays in memory until the table
/// is closed; then it is kept in the file, all of it, also where a fault ended a statement. A run that is stopped at any moment, or whose
/// file fails, leaves the table as it was, or as it is after all that was done. The status says which, but for `Device`: `Done`,
/// `Refused` and those of a statement's fault come where all that was done is kept. Where a closing is refused nothing is kept.
pub fn run_file<F: Files, W: Out>(
    alloc: Global,
    files: &mut F,
    asked: RunWords<'_>,
    out: &mut W,
) -> Status
    ensures runs { RunsFile asked.entry.table.now asked.entry.script.now
        (F.facts files.old) (F.facts files.new) (W.facts out.old) (W.facts out.new) result }
    ensures crash { Runs (RunsSafely asked.entry.table.now asked.entry.script.now
        (F.facts files.old) (W.facts out.old) (W.facts out.new) result)
        (F.facts files.old) (F.clock files.old) (F.clock files.new) }
    ensures lasts { SaysAllDone result → RunLasts asked.entry.table.now asked.entry.script.now
        (F.facts files.old) (W.facts out.old) (W.facts out.new) result (F.clock files.new) }
{
    match files.read(asked.script) {
        Ok(script) => run_script(alloc, files, asked.table, script.as_slice(), out),
        Err(fault) => tell_store_fault(fault, out),
    }
}

/// Runs a script on a table file, which is opened to be changed where the script may change it.
pub fn run_script<F: Files, W: Out>(
    alloc: Global,
    files: &mut F,
    path: &str,
    script: &[u8],
    out: &mut W,
) -> Status
    ensures runs { RunsScript path.now script.now
        (F.facts files.old) (F.facts files.new) (W.facts out.old) (W.facts out.new) result }
    ensures crash { Runs (IsSameBut path.now (HoldsAsked path.now script.now (F.facts files.old)
        (W.facts out.old) (W.facts out.new) result))
        (F.facts files.old) (F.clock files.old) (F.clock files.new) }
    ensures lasts { HasChangeWord script.now → SaysAllDone result
        → Endures path.now (HoldsAsked path.now script.now (F.facts files.old)
        (W.facts out.old) (W.facts out.new) result) (F.facts files.old) (F.clock files.new) }
{
    let Ok(script) = Script::read(alloc, script) else {
        return tell_memory(out);
    };
    run_on(alloc, files, path, script.may_change(), &script, out)
}

// Runs a script on a table file, which is opened so.
fn run_on<F: Files, W: Out>(
    alloc: Global,
    files: &mut F,
    path: &str,
    changes: bool,
    script: &Script<'_>,
    out: &mut W,
) -> Status
    ensures runs { IsAskedOf changes path.now script.now
        (F.facts files.old) (F.facts files.new) (W.facts out.old) (W.facts out.new) result
        ⊎ IsUnlent changes path.now
        (F.facts files.old) (F.facts files.new) (W.facts out.old) (W.facts out.new) result }
    ensures crash { Runs (IsSameBut path.now (HoldsAsked path.now script.now (F.facts files.old)
        (W.facts out.old) (W.facts out.new) result))
        (F.facts files.old) (F.clock files.old) (F.clock files.new) }
    ensures lasts { IsTrue changes → SaysAllDone result
        → Endures path.now (HoldsAsked path.now script.now (F.facts files.old)
        (W.facts out.old) (W.facts out.new) result) (F.facts files.old) (F.clock files.new) }
{
    match open_table(alloc, files, path, changes, out) {
        Ok(tree) => run_tree(alloc, files, path, changes, tree, script, out),
        Err(status) => status,
    }
}

// Runs a script on the tree of a table file, and closes it, also after a fault: what the script's statements did stands then.
fn run_tree<F: Files, W: Out>(
    alloc: Global,
    files: &mut F,
    path: &str,
    changes: bool,
    mut tree: Tree<F::Store>,
    script: &Script<'_>,
    out: &mut W,
) -> Status
    ensures { RunsTree changes path.now script.now tree (F.facts files.old) (F.facts files.new)
        (F.clock files.old) (F.clock files.new) (W.facts out.old) (W.facts out.new) result }
{
    let ran = script.run(alloc, &mut tree, out);
    let closed = close_table(files, path, changes, tree);
    tell_ran(ran, closed, out)
}

// Tells how a run has ended, and then the closing with the keeping after it.
fn tell_ran<W: Out>(
    ran: Result<Summary, RunFault>,
    closed: Result<(), TreeFault>,
    out: &mut W,
) -> Status
    ensures { TellsRan ran closed (W.facts out.old) (W.facts out.new) result }
{
    match ran {
        Ok(summary) => tell_closed(summary, closed, out),
        Err(fault) => {
            let status = tell_run_fault(fault, out);
            status_after(closed, status)
        }
    }
}

// How a run ends after a fault: as the fault does where the table was closed and kept, and else as a file that failed.
fn status_after(closed: Result<(), TreeFault>, status: Status) -> Status
    ensures { result ≡ status_after closed status }
{
    match closed {
        Ok(()) => status,
        Err(_) => Status::Device,
    }
}

// Tells the fault of a run.
fn tell_run_fault<W: Out>(fault: RunFault, out: &mut W) -> Status
    ensures { TellsRan (Err fault) (Ok tt) (W.facts out.old) (W.facts out.new) result }
{
    match fault {
        RunFault::Memory => tell_memory(out),
        RunFault::Write => Status::Device,
        RunFault::Load(fault) => tell_load_fault(fault, out),
        RunFault::Tree(fault) => tell_tree_fault(fault, out),
    }
}

// Tells how a closing has ended after a run to the end.
fn tell_closed<W: Out>(summary: Summary, closed: Result<(), TreeFault>, out: &mut W) -> Status
    ensures { TellsClosed summary closed (W.facts out.old) (W.facts out.new) result }
{
    match closed {
        Ok(()) => summary_status(summary),
        Err(fault) => tell_tree_fault(fault, out),
    }
}
