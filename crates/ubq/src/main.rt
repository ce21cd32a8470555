//! The program `ubq`: what touches the process, its words, its standard output, the notes of a query on standard error, the status that
//! it ends with, and two things that are for people, on standard error: a line where a file couldn't be had, and, where that is a
//! terminal, hints on what was refused. All else is `run_program` and `hint` of the crate `ub_shell`.
#![tactic(auto)]

use std::io::{self, IsTerminal};
use std::process::ExitCode;
use ub_host_files::HostFiles;
use ub_shell::{LastRead, Over, hint, program_words, run_program};

// The status where a file or the output failed.
const FAILED: u8 = 4;

fn main(rt: HostRuntime) -> ExitCode {
    let mut files = HostFiles::new(&rt);
    let is_terminal = rt.stderr().is_terminal();
    if is_terminal {
        files.keep_input();
    }
    let words = program_words(&rt);
    let mut last = LastRead::new(rt.alloc());
    let status = run_program(
        rt.alloc(),
        &mut files,
        words,
        io::writer(&rt),
        rt.stderr(),
        &mut last,
    )
    .0;
    if status == FAILED {
        if let Some(missed) = files.missed() {
            let _ = eprintln!(rt; "ubq: {missed}");
        }
    }
    if is_terminal {
        tell_hints(&rt, &mut files, &last, status);
    }
    ExitCode::from(status)
}

// Tells on standard error what people want to know of what was refused.
fn tell_hints(
    rt: &HostRuntime,
    files: &mut HostFiles<'_, HostRuntime>,
    last: &LastRead,
    status: u8,
) {
    let Ok(words) = program_words(rt) else {
        return;
    };
    let input = files.take_input();
    let mut to = Over::new(rt.stderr());
    hint(
        rt.alloc(),
        files,
        words.as_slice(),
        last,
        input.as_deref(),
        status,
        &mut to,
    );
}
