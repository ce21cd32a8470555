use std::alloc::Global;
use std::io::{self, BufReader, Read};

// How many bytes are read at once.
const AT_ONCE: usize = 65_536;

/// A file of the system that is read piece after piece, and remembers why a read has failed, if one has.
#[derive(Drop)]
pub struct HostText<F> {
    file: BufReader<F>,
    why: Option<io::Error>,
}

impl<F: Read + Drop> HostText<F> {
    /// A reader of this file, which is closed where memory is refused.
    pub fn new(alloc: Global, file: F) -> io::Result<HostText<F>> {
        match BufReader::with_capacity(alloc, AT_ONCE, file) {
            Ok(file) => Ok(HostText { file, why: None }),
            Err(why) => Err(why),
        }
    }

    /// Why a read of it has failed, if one has.
    pub fn end(self) -> io::Result<()> {
        match self.why {
            Some(why) => Err(why),
            None => Ok(()),
        }
    }
}

impl<F: Read + Drop> Read for HostText<F> {
    fn read(&mut self, buf: &mut [u8]) -> io::Result<usize> {
        match self.file.read(buf) {
            Ok(count) => Ok(count),
            Err(why) => {
                self.why = Some(why);
                Err(why)
            }
        }
    }
}
