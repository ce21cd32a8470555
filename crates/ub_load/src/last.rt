//! What was read last of a text, of which people are told where the text was refused. Nothing is promised of it.

ghost use Rattle.std.specs.Prelude.{◌≡◌};

use crate::fault::LoadFault;
use csv::{ByteRecord, Position, Reader};
use std::alloc::{AllocError, Global};
use std::io::{self, Read};

/// What was read last of a text: its header, the record after it that was read last, where that ends, and why no more was read.
#[derive(Drop)]
pub struct LastRead {
    /// The header. It has no fields where none was read.
    pub header: ByteRecord,
    /// The last record after the header, whatever its length. It has no fields where none was read.
    pub row: ByteRecord,
    /// The line of the text in which that record ends, from 1.
    pub line: u64,
    /// Why the text was refused. None where it wasn't, or no text was read.
    pub fault: Option<LoadFault>,
}

impl LastRead {
    /// Nothing was read yet.
    pub fn new(alloc: Global) -> LastRead {
        LastRead {
            header: ByteRecord::new(alloc),
            row: ByteRecord::new(alloc),
            line: 0,
            fault: None,
        }
    }

    /// Notes where the reader of the text stands, and why no more is read, if that was refused.
    pub(crate) fn note<R: Read + Drop, T: Drop>(
        &mut self,
        reader: &Reader<Watched<R>>,
        read: &Result<T, LoadFault>,
    ) {
        if let Err(fault) = read {
            let at = reader.position();
            let is_behind = reader.get_ref().piece.ends_line(at);
            self.line = at.line().saturating_sub(u64::from(is_behind));
            self.fault = Some(*fault);
        }
    }
}

/// The piece of a text that was read last: so it can be told whether a line ends where the reader stands, who may have taken only a part
/// of that piece.
#[derive(Drop)]
struct Piece {
    bytes: Vec<u8>,
    // How many bytes of the text were read, these among them.
    read: u64,
}

impl Piece {
    // Keeps these bytes in the place of those before, if there is memory for them. The end of a text is no piece.
    fn keep(&mut self, bytes: &[u8]) {
        if bytes.is_empty() {
            return;
        }
        self.read = self.read.saturating_add(bytes.len() as u64);
        self.bytes.clear();
        if let Err(AllocError) = self.bytes.extend_from_slice(bytes) {
            self.bytes.clear();
        }
    }

    // Whether the byte before this place is a line end; not where that byte isn't kept.
    fn ends_line(&self, at: Position) -> bool {
        let ahead = self.read.saturating_sub(at.byte());
        let taken = self.bytes.len().saturating_sub(ahead as usize);
        match taken.checked_sub(1) {
            Some(last) => matches!(self.bytes.get(last), Some(b'\n')),
            None => false,
        }
    }
}

/// A source that keeps the piece of its text which it gave last.
#[derive(Drop)]
pub(crate) struct Watched<R> {
    source: R,
    piece: Piece,
}

impl<R: Read + Drop> Watched<R> {
    /// This source, which has given nothing yet.
    pub(crate) fn over(alloc: Global, source: R) -> Watched<R>
        ensures { ⟦<Watched<R> as Read>⟧.remaining result ≡ R.remaining source }
    {
        Watched {
            source,
            piece: Piece {
                bytes: Vec::new(alloc),
                read: 0,
            },
        }
    }
}

impl<R: Read + Drop> Read for Watched<R> {
    ghost remaining = { λ watched. R.remaining watched.source };

    fn read(&mut self, buf: &mut [u8]) -> io::Result<usize> {
        let count = self.source.read(buf)?;
        self.piece.keep(&buf[..count]);
        Ok(count)
    }
}
