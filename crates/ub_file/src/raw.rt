ghost use Rattle.std.specs.Prelude.{◌≡◌, IsTrue};
ghost use Rattle.ub_file.specs.Raw.{RawFacts, ReadsBytes, SetsLength, SyncsBytes, WritesBytes};

use std::io;

/// A file as the system gives it: bytes at their places, in any number, that are read, written, cut or grown, and made to last.
///
/// Whether a file is honest, which bytes it has and which of them last, how often it was changed and how often a call was refused is
/// for contracts alone. What a call does is said of an honest file. A call is one call: none is made again after a refusal.
pub trait RawFile: Drop {
    ghost facts: { Self → RawFacts };

    /// Fills the bytes that are lent with those from this place on. A read that finds fewer is refused, and the bytes that
    /// are lent may then be any.
    fn read_exact_at(&mut self, bytes: &mut [u8], place: u64) -> io::Result<()>
        ensures honest { (facts self.new).honest ≡ (facts self.old).honest }
        ensures effect { IsTrue (facts self.old).honest
            → ReadsBytes place bytes.old bytes.new (facts self.old) (facts self.new) result };

    /// Writes these bytes from this place on, and zeros before it where the file ends earlier. After a refusal any bytes may
    /// stand in their place.
    fn write_all_at(&mut self, bytes: &[u8], place: u64) -> io::Result<()>
        ensures honest { (facts self.new).honest ≡ (facts self.old).honest }
        ensures effect { IsTrue (facts self.old).honest
            → WritesBytes place bytes.now (facts self.old) (facts self.new) result };

    /// Makes the file so many bytes long: cuts it, or adds zeros. After a refusal it may be of any length between that of before
    /// and this.
    fn set_len(&mut self, length: u64) -> io::Result<()>
        ensures honest { (facts self.new).honest ≡ (facts self.old).honest }
        ensures effect { IsTrue (facts self.old).honest
            → SetsLength length (facts self.old) (facts self.new) result };

    /// Makes what was written last. After a refusal what lasts is what did before, or all that was written.
    fn sync_all(&mut self) -> io::Result<()>
        ensures honest { (facts self.new).honest ≡ (facts self.old).honest }
        ensures effect { IsTrue (facts self.old).honest
            → SyncsBytes (facts self.old) (facts self.new) result };
}
