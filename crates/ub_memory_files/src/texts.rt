ghost use Rattle.std.specs.Prelude.{◌≡◌, ◌⊎◌, Some, IfErr};

use std::io::{self, Cursor, Read};
use ub_store::StoreFault;

/// A reader of a text in memory. Reads of it may be due to fail: then they give so many bytes, and no more.
#[derive(Drop)]
pub struct MemText {
    text: Cursor<Vec<u8>>,
    // How many bytes it still gives before a read fails.
    left: usize,
    has_failed: bool,
}

impl MemText {
    /// A reader of these bytes, of which it gives so many before a read fails.
    pub(crate) fn new(bytes: Vec<u8>, left: usize) -> MemText
        ensures { ⟦<MemText as Read>⟧.remaining result ≡ Some bytes.items }
    {
        MemText {
            text: Cursor::new(bytes),
            left,
            has_failed: false,
        }
    }

    /// Device where a read of it has failed.
    pub(crate) fn end(self) -> Result<(), StoreFault>
        ensures { IfErr result (λ fault. fault ≡ StoreFault.Device) }
    {
        if self.has_failed {
            return Err(StoreFault::Device);
        }
        Ok(())
    }
}

impl Read for MemText {
    ghost remaining = { λ text. ⟦<Cursor<Vec<u8>> as Read>⟧.remaining text.text };

    fn read(&mut self, buf: &mut [u8]) -> io::Result<usize> {
        if self.left == 0 {
            self.has_failed = true;
            return Err(io::Error::from(io::ErrorKind::Other));
        }
        let most = buf.len().min(self.left);
        let count = self.text.read(&mut buf[..most])?;
        self.left -= count;
        Ok(count)
    }
}
