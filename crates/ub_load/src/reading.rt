//! The records of a CSV text, one after the other: those that are loaded, and those that are appended.

ghost use Rattle.std.specs.Prelude.{◌≡◌, ◌⊎◌, ℕ, List, [], Some, IfOk, IfErr};
ghost use Rattle.csv.specs.Records.{fields_of};
ghost use Rattle.ub_load.specs.inner.Records.{HasRead, IsAt};

use crate::fault::LoadFault;
use csv::{ByteRecord, Reader, ReaderBuilder};
use std::alloc::Global;
use std::io::Read;

/// A reader at the start of the text that a source gives, which reads as `csv` does with its defaults, and gives the header as a record.
pub fn reader_of<R: Read>(alloc: Global, source: R) -> Reader<R>
    ensures { (text : List ℕ) → R.remaining source ≡ Some text → IsAt R.remaining text [] result }
{
    ReaderBuilder::new()
        .has_headers(false)
        .from_reader(alloc, source)
}

/// Reads the next record into the place of the one before, and tells whether there was one. `Csv` where `csv` refused it, which is
/// also where reading failed, and `Memory` where memory was refused.
pub fn read_record<R: Read>(
    reader: &mut Reader<R>,
    fields: &mut ByteRecord,
) -> Result<bool, LoadFault>
    ensures read { IfOk result (λ found.
        HasRead R.remaining reader.old found (fields_of fields.new) reader.new) }
    ensures refused { IfErr result (λ f. (f ≡ LoadFault.Csv) ⊎ (f ≡ LoadFault.Memory)) }
{
    Ok(reader.read_byte_record(fields)?)
}
