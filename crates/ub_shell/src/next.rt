ghost use Rattle.std.specs.Prelude.{◌≡◌, Result};
ghost use Rattle.ub_next.specs.Next.{IsNextAnswer, answer_text};
ghost use Rattle.ub_next.specs.declared.next.Neighbours.{Neighbours};
ghost use Rattle.ub_next.specs.declared.next.NextFault.{NextFault};
ghost use Rattle.ub_shell.specs.Ending.{answer_status};
ghost use Rattle.ub_table_file.specs.Status.{Tells};

use std::alloc::Global;
use ub_next::{Neighbours, NextFault, answer_text, neighbours_of};
use ub_script::Out;
use ub_table_file::status::{Status, tell, tell_memory};

/// How the command ends: a fault is the command line's, but for want of memory.
pub fn answer_status(answer: &Result<Neighbours, NextFault>) -> Status
    ensures { result ≡ answer_status answer.now }
{
    match answer {
        Ok(_) => Status::Done,
        Err(NextFault::Memory) => Status::Memory,
        Err(_) => Status::CommandLine,
    }
}

/// The command `next`: writes what is told of the words, and says how it ends; `Device` where a write fails.
pub fn tell_next<W: Out>(alloc: Global, lo: &str, hi: &str, z: &str, out: &mut W) -> Status
    ensures { (answer : Result Neighbours NextFault) × IsNextAnswer lo.now hi.now z.now answer
        × Tells (W.facts out.old) (W.facts out.new)
        (answer_text answer) (answer_status answer) result }
{
    let answer = neighbours_of(alloc, lo, hi, z);
    match answer_text(alloc, &answer) {
        Ok(text) => tell(out, text.as_bytes(), answer_status(&answer)),
        Err(_) => tell_memory(out),
    }
}
