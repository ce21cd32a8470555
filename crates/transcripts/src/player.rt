use crate::bench::{Bench, Ran};
use crate::folder::Folder;
use crate::marks::{Asked, Mark, Place, cut, mark_of};
use crate::narrow::Narrow;
use std::alloc::{AllocError, Global};
use std::io;

// What the lines since the last mark are.
#[derive(Clone, Copy)]
enum Part<'a> {
    Nothing,
    // The text of a file.
    File(&'a str),
    // What a command line must write.
    Run(Asked<'a>),
}

/// Takes the lines of a transcript, and runs each command line once what it must write has been read.
#[derive(Drop)]
pub struct Player<'a> {
    alloc: Global,
    bench: Bench,
    folder: Folder<'a>,
    part: Part<'a>,
    text: String,
    // What the command line must write to its second output.
    noted: String,
    // Whether the last line was empty: it isn't in the text yet.
    is_blank: bool,
    right: u64,
    wrong: u64,
}

impl<'a> Player<'a> {
    /// One with no files, before the first line.
    pub fn new(alloc: Global) -> Player<'a> {
        Player {
            alloc,
            bench: Bench::new(alloc),
            folder: Folder::new(alloc),
            part: Part::Nothing,
            text: String::new(alloc),
            noted: String::new(alloc),
            is_blank: false,
            right: 0,
            wrong: 0,
        }
    }

    /// Takes all lines of a transcript, and prints at last how many command lines were right, and how many wrong.
    pub fn play(&mut self, rt: &HostRuntime, text: &'a str) -> io::Result<()> {
        for line in text.strip_suffix('\n').unwrap_or(text).split('\n') {
            self.take(rt, line)?;
        }
        self.end(rt)
    }

    // Takes the next line.
    fn take(&mut self, rt: &HostRuntime, line: &'a str) -> io::Result<()> {
        match mark_of(line) {
            Some(Mark::Status(status)) => {
                if let Some(asked) = self.asked_above() {
                    asked.status = status;
                }
                Ok(())
            }
            Some(Mark::Changes(changes)) => {
                if let Some(asked) = self.asked_above() {
                    asked.changes = changes;
                }
                Ok(())
            }
            Some(Mark::Line(line)) => {
                if let Some(asked) = self.asked_above() {
                    asked.line = line;
                }
                Ok(())
            }
            Some(Mark::Note(note)) => {
                self.is_blank = false;
                Ok(add_line(&mut self.noted, note)?)
            }
            Some(mark) => self.begin(rt, mark),
            None => Ok(self.add(line)?),
        }
    }

    // Ends the last part, and prints how many command lines were right, and how many wrong.
    fn end(&mut self, rt: &HostRuntime) -> io::Result<()> {
        self.end_part(rt)?;
        println!(rt; "{} right, {} wrong", self.right, self.wrong)
    }

    // Ends the text of the command line above, if there is one, and lends it.
    fn asked_above(&mut self) -> Option<&mut Asked<'a>> {
        self.is_blank = false;
        match &mut self.part {
            Part::Run(asked) => Some(asked),
            Part::Nothing | Part::File(_) => None,
        }
    }

    // Ends the part before a mark, and begins the mark's; a script is put where it is read.
    fn begin(&mut self, rt: &HostRuntime, mark: Mark<'a>) -> io::Result<()> {
        self.end_part(rt)?;
        self.part = match mark {
            Mark::Comment | Mark::Status(_) | Mark::Line(_) | Mark::Changes(_) | Mark::Note(_) =>
                Part::Nothing,
            Mark::File(name) => Part::File(name),
            Mark::Run(asked) => Part::Run(asked),
            Mark::Damage(line) => {
                self.damage(rt, line)?;
                Part::Nothing
            }
            Mark::Put(name) => {
                self.put(rt, name)?;
                Part::Nothing
            }
            Mark::Script(script) => {
                add_line(&mut self.text, script)?;
                self.bench.put("-", self.text.as_str())?;
                self.text.clear();
                Part::Run(Asked::new("try t.csv - --dims 2 --page-rows 2"))
            }
        };
        Ok(())
    }

    // Damages a table file, or tells that it can't be.
    fn damage(&mut self, rt: &HostRuntime, line: &str) -> io::Result<()> {
        if self.bench.damage(line) {
            return Ok(());
        }
        self.wrong = self.wrong.saturating_add(1);
        println!(rt; "no such file, or no such place in it: {line}")
    }

    // Puts a file into the folder, or tells that there is none.
    fn put(&mut self, rt: &HostRuntime, name: &'a str) -> io::Result<()> {
        match self.bench.bytes_of(name) {
            Some(bytes) => self.folder.put(rt, name, bytes.as_slice()),
            None => {
                self.wrong = self.wrong.saturating_add(1);
                println!(rt; "no such file: {name}")
            }
        }
    }

    // Adds a line to the part's text, and before it the empty line that stood there.
    fn add(&mut self, line: &str) -> Result<(), AllocError> {
        if self.is_blank {
            self.text.push('\n')?;
        }
        self.is_blank = line.is_empty();
        if self.is_blank {
            return Ok(());
        }
        let (head, rest) = cut(line);
        match head {
            "+" => add_times(&mut self.text, rest),
            "%" => add_numbers(self.alloc, &mut self.text, rest),
            _ => add_line(&mut self.text, line),
        }
    }

    // Ends the part: its file is put, or its command line is run.
    fn end_part(&mut self, rt: &HostRuntime) -> io::Result<()> {
        match self.part {
            Part::Nothing => {}
            Part::File(name) => self.bench.put(name, self.text.as_str())?,
            Part::Run(asked) => self.judge(rt, asked)?,
        }
        self.part = Part::Nothing;
        self.text.clear();
        self.noted.clear();
        self.is_blank = false;
        Ok(())
    }

    // Runs a command line where its files are.
    fn run(&mut self, rt: &HostRuntime, asked: Asked<'a>) -> io::Result<Ran> {
        match asked.place {
            Place::Memory => Ok(self.run_in_memory(asked)?),
            Place::Folder => self.folder.run(rt, asked),
            Place::Terminal => Ok(self.bench.hint(asked)),
        }
    }

    // Runs a command line over the files in memory, or stops it.
    fn run_in_memory(&mut self, asked: Asked<'a>) -> Result<Ran, AllocError> {
        match asked.left {
            Some(left) => self.bench.crash(asked, left),
            None => Ok(self.bench.run(asked)),
        }
    }

    // The files of the folder that a command line changed.
    fn changes(&mut self, rt: &HostRuntime, place: Place) -> Result<String, AllocError> {
        match place {
            Place::Memory | Place::Terminal => Ok(String::new(self.alloc)),
            Place::Folder => self.folder.changes(rt),
        }
    }

    // Runs a command line, counts it, and prints what differs.
    fn judge(&mut self, rt: &HostRuntime, asked: Asked<'a>) -> io::Result<()> {
        let ran = self.run(rt, asked)?;
        let changes = self.changes(rt, asked.place)?;
        self.count(rt, asked, &ran, changes.as_str())
    }

    // Counts a command line that has ended so, and has changed these files, and prints what differs.
    fn count(
        &mut self,
        rt: &HostRuntime,
        asked: Asked<'a>,
        ran: &Ran,
        changes: &str,
    ) -> io::Result<()> {
        let is_right = is_written(&ran.out, asked.line, self.text.as_str())
            & ran.notes.is_taken(self.noted.as_str())
            & (changes == asked.changes)
            & (ran.status == asked.status);
        if is_right {
            self.right = self.right.saturating_add(1);
            return Ok(());
        }
        self.wrong = self.wrong.saturating_add(1);
        println!(rt;
            "{}, place fails at {}, room {} and {}\n\
            wanted, with status {}, changes {}:\n{}2>\n{}\n\
            written, with status {}, changes {changes}:\n{}2>\n{}",
            asked.words,
            asked.k,
            asked.room,
            asked.noted_room,
            asked.status,
            asked.changes,
            self.text,
            self.noted,
            ran.status,
            ran.out.text(),
            ran.notes.text()
        )
    }
}

// Whether an output has taken this line among others, where it isn't empty, or just this text.
fn is_written(out: &Narrow, line: &str, text: &str) -> bool {
    if line.is_empty() {
        out.is_taken(text)
    } else {
        out.has_line(line)
    }
}

fn add_line(text: &mut String, line: &str) -> Result<(), AllocError> {
    text.push_str(line)?;
    text.push('\n')
}

// Adds a piece of text so many times, by the words for the count and the piece.
fn add_times(text: &mut String, words: &str) -> Result<(), AllocError> {
    let (count, piece) = cut(words);
    for _ in 0..count.parse::<u32>().unwrap_or(0) {
        text.push_str(piece)?;
    }
    Ok(())
}

// Adds the numbers below the one of this word, each on a line.
fn add_numbers(alloc: Global, text: &mut String, count: &str) -> Result<(), AllocError> {
    for n in 0..count.parse::<u32>().unwrap_or(0) {
        let line = format!(in alloc; "{n}\n")?;
        text.push_str(line.as_str())?;
    }
    Ok(())
}
