ghost use Rattle.std.specs.Prelude.{◌≡◌, ◌⊎◌, IfErr, IfOk};
ghost use Rattle.ub_files.specs.Clock.{IsSameFolder, Runs};
ghost use Rattle.ub_table_file.specs.Asking.{AnswersWith, AsksFile, IsAnswered, IsUnanswered, RefusesWith};

use crate::checking::checked_in;
use crate::describing::told_by;
use crate::opening::lend_table;
use crate::status::{Status, tell, tell_tree_fault};
use std::alloc::Global;
use ub_files::Files;
use ub_script::Out;
use ub_store::PageStore;
use ub_tree::TreeFault;
use ub_words::{TableCommand, TableWords};

/// Opens a table file to be asked, writes what it answers or why it doesn't, and puts it back as it was. A fault is told on a line, as
/// `run` tells one of the opening.
pub fn ask_file<F: Files, W: Out>(
    alloc: Global,
    files: &mut F,
    asked: TableWords<'_>,
    out: &mut W,
) -> Status
    ensures asks { AsksFile asked.entry.command asked.entry.table.now
        (F.facts files.old) (F.facts files.new) (W.facts out.old) (W.facts out.new) result }
    ensures crash { Runs IsSameFolder (F.facts files.old) (F.clock files.old) (F.clock files.new) }
{
    match lend_table(files, asked.table, false, out) {
        Ok(store) => ask_store(alloc, files, asked, store, out),
        Err(status) => status,
    }
}

// Writes what the store of a table file answers, and puts the store back.
fn ask_store<F: Files, W: Out>(
    alloc: Global,
    files: &mut F,
    asked: TableWords<'_>,
    store: F::Store,
    out: &mut W,
) -> Status
    ensures files { F.facts files.new ≡ F.facts files.old }
    ensures ended { IsAnswered asked.entry.command (F.Store.facts store)
        (W.facts out.old) (W.facts out.new) result
        ⊎ IsUnanswered asked.entry.command (F.Store.facts store)
        (W.facts out.old) (W.facts out.new) result }
    ensures crash { Runs IsSameFolder (F.facts files.old) (F.clock files.old) (F.clock files.new) }
{
    let (left, told) = answer_of(alloc, asked.command, store);
    files.put_back(asked.table, left);
    match told {
        Ok(text) => tell(out, text.as_slice(), Status::Done),
        Err(fault) => tell_tree_fault(fault, out),
    }
}

// What a store answers, and the store as it is left.
fn answer_of<S: PageStore>(
    alloc: Global,
    command: TableCommand,
    store: S,
) -> (S, Result<Vec<u8>, TreeFault>)
    ensures text { IfOk result.1 (λ text. AnswersWith command (S.facts store) text.items) }
    ensures refused { IfErr result.1 (RefusesWith command (S.facts store)) }
{
    match command {
        TableCommand::Describe => told_by(alloc, store),
        TableCommand::Check => checked_in(alloc, store),
    }
}
