// Numbers as all lines have them: in decimal, with no sign but a minus.
ghost use Rattle.std.specs.Prelude.{◌≡◌, ◌++◌, decimal, OnOk};
ghost use Rattle.std.specs.Fmt.{signed_decimal};

use itoa::Buffer;
use std::alloc::AllocError;

/// Puts a number in decimal behind a text. `AllocError` only where memory is refused.
pub fn push_number(text: &mut Vec<u8>, number: u128) -> Result<(), AllocError>
    ensures { OnOk result (text.new.items ≡ text.old.items ++ decimal number) }
{
    // A number of 64 bits is divided more quickly than one of 128.
    match u64::try_from(number) {
        Ok(number) => text.extend_from_slice(Buffer::new().format(number).as_bytes()),
        Err(_) => text.extend_from_slice(Buffer::new().format(number).as_bytes()),
    }
}

/// The same with a minus where it is below 0.
// Each value of an answer is put by it: as a call of its own it makes the output of rows a twentieth dearer.
#[inline(always)]
pub fn push_signed(text: &mut Vec<u8>, number: i128) -> Result<(), AllocError>
    ensures { OnOk result (text.new.items ≡ text.old.items ++ signed_decimal number) }
{
    match i64::try_from(number) {
        Ok(number) => text.extend_from_slice(Buffer::new().format(number).as_bytes()),
        Err(_) => text.extend_from_slice(Buffer::new().format(number).as_bytes()),
    }
}
