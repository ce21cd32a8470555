ghost use Rattle.std.specs.Prelude.{◌≡◌, ◌≤◌, ◌↔◌, IsTrue, OnOk, OnErr};
ghost use Rattle.std.specs.Io.KnownBytes.{WriteAppends};
ghost use Rattle.std.specs.Io.{WritesAtMost};
ghost use Rattle.ub_script.specs.Output.{OutFacts, out_facts, Breaks, HasWritten, Puts};

use std::io::{self, Write};
use thiserror::Error;

/// The bytes, or some of them, could not be written.
#[derive(Clone, Copy, PartialEq, Eq, Debug, Error)]
#[error("Write")]
pub struct OutFault {}

/// What bytes can be written to, one piece after the other.
///
/// A proof sees the facts of it: the bytes that it has taken so far, where they can be known, and how often a write failed, a
/// count that stays at its greatest value.
pub trait Out {
    ghost facts: { Self → OutFacts };

    /// Takes some of the bytes, from the first on, and says how many; or fails, and takes none.
    ///
    /// To take none of one byte or more is counted as a failure too. A call that fails is counted once, and no other is.
    fn write(&mut self, bytes: &[u8]) -> Result<usize, OutFault>
        ensures { HasWritten bytes.now result (facts self.old) (facts self.new) };
}

/// An `Out` over any writer of `std`, whose failures it counts.
#[derive(Drop)]
pub struct Over<W> {
    inner: W,
    failed: u64,
}

impl<W: Write> Over<W> {
    /// Writes go to this writer from now on; none has failed yet.
    pub fn new(inner: W) -> Over<W>
        ensures { ⟦<Over<W> as Out>⟧.facts result ≡ out_facts (W.contents inner) 0 }
    {
        Over { inner, failed: 0 }
    }

    /// Whether a write has failed.
    pub fn has_failed(&self) -> bool
        ensures { IsTrue result ↔ (1 ≤ (⟦<Over<W> as Out>⟧.facts self.now).failures) }
    {
        self.failed > 0
    }

    /// The writer, with all that was written to it.
    pub fn into_inner(self) -> W
        ensures { W.contents result ≡ (⟦<Over<W> as Out>⟧.facts self).told }
    {
        let Over { inner, failed: _ } = self;
        inner
    }
}

impl<W: Write> Out for Over<W> {
    ghost facts = { λ over. out_facts (W.contents over.inner) over.failed };

    fn write(&mut self, bytes: &[u8]) -> Result<usize, OutFault> {
        match once(&mut self.inner, bytes) {
            Ok(0) if !bytes.is_empty() => {
                self.failed = self.failed.saturating_add(1);
                Ok(0)
            }
            Ok(n) => Ok(n),
            Err(_) => {
                self.failed = self.failed.saturating_add(1);
                Err(OutFault {})
            }
        }
    }
}

// Writes once, and tries nothing again, whatever the error.
fn once<W: Write>(inner: &mut W, bytes: &[u8]) -> io::Result<usize>
    ensures few { WritesAtMost result bytes.now }
    ensures taken { WriteAppends (W.contents inner.old) (W.contents inner.new) result bytes.now }
{
    inner.write(bytes)
}

/// Writes all of the bytes; or fails, once, and a front of them was written, fewer than all.
pub fn put_all<W: Out>(out: &mut W, bytes: &[u8]) -> Result<(), OutFault>
    ensures whole { OnOk result (Puts bytes.now (W.facts out.old) (W.facts out.new)) }
    ensures front { OnErr result (Breaks bytes.now (W.facts out.old) (W.facts out.new)) }
{
    let mut at = 0usize;
    while at < bytes.len() {
        let n = out.write(&bytes[at..])?;
        if n == 0 {
            return Err(OutFault {});
        }
        at += n;
    }
    Ok(())
}
