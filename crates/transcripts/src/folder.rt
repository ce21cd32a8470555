use crate::bench::{Ran, run_over};
use crate::marks::Asked;
use std::alloc::{AllocError, Global};
use std::{fs, io};
use ub_host_files::HostFiles;
use ub_shell::LastRead;

// A file of the system: its name, and the bytes that it had when it was looked at, if it was there.
#[derive(Drop)]
struct Seen<'a> {
    name: &'a str,
    bytes: Option<Vec<u8>>,
}

/// The folder of the system in which a transcript is played, and what was seen of the files in it that were named.
#[derive(Drop)]
pub struct Folder<'a> {
    alloc: Global,
    seen: Vec<Seen<'a>>,
}

impl<'a> Folder<'a> {
    /// One of which nothing was named.
    pub fn new(alloc: Global) -> Folder<'a> {
        Folder {
            alloc,
            seen: Vec::new(alloc),
        }
    }

    /// Makes a file of these bytes, in the place of what is there.
    pub fn put(&mut self, rt: &HostRuntime, name: &'a str, bytes: &[u8]) -> io::Result<()> {
        fs::write(rt, name, bytes)?;
        self.look_at(rt, name)
    }

    /// Runs a command line over the files of the folder.
    pub fn run(&mut self, rt: &HostRuntime, asked: Asked<'a>) -> io::Result<Ran> {
        for (n, part) in asked.words.split('\'').enumerate() {
            if n % 2 == 0 {
                self.look_at_all(rt, part)?;
            }
        }
        let mut last = LastRead::new(self.alloc);
        Ok(run_over(self.alloc, &mut HostFiles::new(rt), asked, &mut last))
    }

    /// The names of the files that aren't as they were when they were looked at, with a space between them. They are looked at
    /// again.
    pub fn changes(&mut self, rt: &HostRuntime) -> Result<String, AllocError> {
        let mut names = String::new(self.alloc);
        let mut is_in = true;
        for seen in self.seen.iter_mut() {
            if has_changed(rt, seen) {
                is_in &= add_word(&mut names, seen.name).is_ok();
            }
        }
        if is_in { Ok(names) } else { Err(AllocError) }
    }

    // Looks at the file of each of these words.
    fn look_at_all(&mut self, rt: &HostRuntime, words: &'a str) -> io::Result<()> {
        for word in words.split_whitespace() {
            self.look_at(rt, word)?;
        }
        Ok(())
    }

    // Looks at the file of this name.
    fn look_at(&mut self, rt: &HostRuntime, name: &'a str) -> io::Result<()> {
        let at = index_of(self.seen.as_slice(), name);
        if at < self.seen.len() {
            self.seen.remove(at);
        }
        let bytes = fs::read(rt, name).ok();
        Ok(self.seen.push(Seen { name, bytes })?)
    }
}

// The index of the file of this name, or how many files there are where none has it.
fn index_of(seen: &[Seen<'_>], name: &str) -> usize {
    for (n, file) in seen.iter().enumerate() {
        if file.name == name {
            return n;
        }
    }
    seen.len()
}

// Looks at a file again, and tells whether it isn't as it was.
fn has_changed(rt: &HostRuntime, seen: &mut Seen<'_>) -> bool {
    let now = fs::read(rt, seen.name).ok();
    let has_changed = now != seen.bytes;
    seen.bytes = now;
    has_changed
}

// Adds a word to a line, with a space between them.
fn add_word(line: &mut String, word: &str) -> Result<(), AllocError> {
    if !line.is_empty() {
        line.push(' ')?;
    }
    line.push_str(word)
}
