use std::alloc::Global;
use std::io::{self, Write};
use std::str;

/// Takes one byte at a time, as long as there is room, and counts how often it failed.
#[derive(Drop)]
pub struct Narrow {
    taken: Vec<u8>,
    failed: u64,
    room: usize,
}

impl Narrow {
    /// One with room for so many bytes.
    pub fn new(alloc: Global, room: usize) -> Narrow {
        Narrow {
            taken: Vec::new(alloc),
            failed: 0,
            room,
        }
    }

    /// Whether it has taken this text, and failed once at most.
    pub fn is_taken(&self, text: &str) -> bool {
        self.taken.as_slice() == text.as_bytes() && self.failed < 2
    }

    /// Whether it has taken this line among others.
    pub fn has_line(&self, wanted: &str) -> bool {
        for line in self.text().lines() {
            if line == wanted {
                return true;
            }
        }
        false
    }

    /// What it has taken, where that is a text.
    pub fn text(&self) -> &str {
        str::from_utf8(self.taken.as_slice()).unwrap_or("! no text\n")
    }

    /// Takes a line back that was written last, where it was.
    pub fn take_back(&mut self, line: &str) {
        if self.taken.as_slice().ends_with(line.as_bytes()) {
            let front = self.taken.len().saturating_sub(line.len());
            self.taken.truncate(front);
        }
    }
}

impl Write for Narrow {
    fn write(&mut self, bytes: &[u8]) -> io::Result<usize> {
        let Some(first) = bytes.first() else {
            return Ok(0);
        };
        if self.taken.len() < self.room {
            self.taken.push(*first)?;
            return Ok(1);
        }
        self.failed = self.failed.saturating_add(1);
        Err(io::Error::from(io::ErrorKind::StorageFull))
    }

    fn flush(&mut self) -> io::Result<()> {
        Ok(())
    }
}
