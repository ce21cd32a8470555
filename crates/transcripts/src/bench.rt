use crate::crash::{Before, Left, left_of, seen_at};
use crate::damage::is_damaged;
use crate::marks::Asked;
use crate::narrow::Narrow;
use std::alloc::{AllocError, Global};
use ub_journal::{Journal, TornPlace, is_journal};
use ub_journal_page::write_journal;
use ub_memory_files::MemFiles;
use ub_shell::{Files, LastRead, Over, WordsFault, hint, run_program};
use ub_store::Page;

/// How a command line has ended: its status, and what it wrote to each of its outputs.
#[derive(Drop)]
pub struct Ran {
    pub status: u8,
    pub out: Narrow,
    pub notes: Narrow,
}

/// Files in memory, over which command lines run.
#[derive(Drop)]
pub struct Bench {
    alloc: Global,
    files: MemFiles,
    // What the last command line has read last of a text that it refused.
    last: LastRead,
}

impl Bench {
    /// No files.
    pub fn new(alloc: Global) -> Bench {
        Bench {
            alloc,
            files: MemFiles::new(alloc),
            last: LastRead::new(alloc),
        }
    }

    /// Puts a text at this name.
    pub fn put(&mut self, name: &str, text: &str) -> Result<(), AllocError> {
        let bytes = Vec::from_slice(self.alloc, text.as_bytes())?;
        self.files.put_text(name, bytes)
    }

    /// Damages a table file, or copies one, by a line of the transcript. It says whether there was such a file, and such a place
    /// in it.
    pub fn damage(&mut self, line: &str) -> bool {
        is_damaged(self.alloc, &mut self.files, line)
    }

    /// The bytes of a text, of a table file, or of the journal beside one, if there is one of this name and memory is there.
    pub fn bytes_of(&mut self, name: &str) -> Option<Vec<u8>> {
        if let Ok(text) = self.files.read(name) {
            return Some(text);
        }
        match self.files.table(name) {
            Some(place) => bytes_in(self.alloc, place).ok(),
            None => journal_beside(
                self.alloc,
                self.files.table(name.strip_suffix("-journal")?)?,
            ),
        }
    }

    /// Runs a command line.
    pub fn run(&mut self, asked: Asked<'_>) -> Ran {
        self.files.fail_at(asked.k);
        self.files.fail_texts_after(asked.readable);
        self.last = LastRead::new(self.alloc);
        let ran = run_over(self.alloc, &mut self.files, asked, &mut self.last);
        self.files.fail_at(0);
        self.files.fail_texts_after(usize::MAX);
        ran
    }

    /// Runs a command line up to the call of its table file's place at which it is stopped, leaves what a crash there may leave, and
    /// gives what it wrote up to there; as its status, which it hasn't, the one that is wanted.
    pub fn crash(&mut self, asked: Asked<'_>, left: Left) -> Result<Ran, AllocError> {
        let name = table_of(asked.words);
        let before = seen_at(self.alloc, self.files.table(name))?;
        let mut ran = self.run(asked);
        ran.status = asked.status;
        ran.out.take_back("! Device\n");
        match self.leave(name, &before, left) {
            Ok(()) => Ok(ran),
            Err(refused) => Err(refused),
        }
    }

    /// What people at a terminal are told of a command line that has ended with its status; of a `load`, by what the last one has read.
    pub fn hint(&mut self, asked: Asked<'_>) -> Ran {
        let mut out = Over::new(Narrow::new(self.alloc, asked.room));
        if let Ok(words) = words_of(self.alloc, asked.words) {
            let status = asked.status;
            hint(
                self.alloc,
                &mut self.files,
                words.as_slice(),
                &self.last,
                None,
                status,
                &mut out,
            );
        }
        Ran {
            status: asked.status,
            out: out.into_inner(),
            notes: Narrow::new(self.alloc, 0),
        }
    }

    // Leaves of the table file of this name, if it is one, what a crash may leave, where this stood there before.
    fn leave(&mut self, name: &str, before: &Before, left: Left) -> Result<(), AllocError> {
        match self.files.table(name) {
            Some(place) => {
                let image = left_of(self.alloc, before, place, left)?;
                self.files.put_place(name, image)
            }
            None => Ok(()),
        }
    }
}

/// Runs a command line over files, and leaves what it has read last of a text that it refused.
pub fn run_over<F: Files>(
    alloc: Global,
    files: &mut F,
    asked: Asked<'_>,
    last: &mut LastRead,
) -> Ran {
    let words = words_of(alloc, asked.words);
    let out = Narrow::new(alloc, asked.room);
    let notes = Narrow::new(alloc, asked.noted_room);
    let (status, out, notes) = run_program(alloc, files, words, out, notes, last);
    Ran { status, out, notes }
}

// The table file that a command line names: its second word, or of a `load` or an `upgrade` its third.
fn table_of(words: &str) -> &str {
    let mut words = words.split_whitespace();
    let command = words.next().unwrap_or("");
    let first = words.next().unwrap_or("");
    match command {
        "load" | "upgrade" => words.next().unwrap_or(""),
        _ => first,
    }
}

// The bytes of a table's pages, one page after the other.
fn bytes_in(alloc: Global, place: &TornPlace) -> Result<Vec<u8>, AllocError> {
    let pages = place.copy_pages(alloc)?;
    joined(alloc, pages.as_slice())
}

// The bytes of pages, one page after the other.
fn joined(alloc: Global, pages: &[Page]) -> Result<Vec<u8>, AllocError> {
    let mut bytes = Vec::new(alloc);
    for page in pages {
        bytes.extend_from_slice(page)?;
    }
    Ok(bytes)
}

// The bytes of the journal beside a table, if one stands there and memory is there.
fn journal_beside(alloc: Global, place: &TornPlace) -> Option<Vec<u8>> {
    let before = seen_at(alloc, Some(place)).ok()?;
    spelled(alloc, before.journal.as_ref()?)
}

// The bytes of a journal, if it is one and memory is there.
fn spelled(alloc: Global, journal: &Journal) -> Option<Vec<u8>> {
    let mut bytes = Vec::new(alloc);
    let is_written = is_journal(journal) && write_journal(&mut bytes, journal).is_ok();
    is_written.then_some(bytes)
}

// The words of a command line, the program's name first. What stands between two single quotes is one word.
fn words_of(alloc: Global, line: &str) -> Result<Vec<String>, WordsFault> {
    let mut words = Vec::new(alloc);
    let mut is_in = push_word(alloc, &mut words, "ubq").is_ok();
    for (n, part) in line.split('\'').enumerate() {
        is_in &= if n % 2 == 0 {
            push_words(alloc, &mut words, part).is_ok()
        } else {
            push_word(alloc, &mut words, part).is_ok()
        };
    }
    if is_in {
        Ok(words)
    } else {
        Err(WordsFault::Memory)
    }
}

// Pushes the words of a part of a command line in which no quote stands.
fn push_words(alloc: Global, words: &mut Vec<String>, part: &str) -> Result<(), AllocError> {
    for word in part.split_whitespace() {
        push_word(alloc, words, word)?;
    }
    Ok(())
}

// Pushes a word.
fn push_word(alloc: Global, words: &mut Vec<String>, word: &str) -> Result<(), AllocError> {
    words.push(String::from_str(alloc, word)?)?;
    Ok(())
}
