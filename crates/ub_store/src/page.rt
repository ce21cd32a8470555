ghost use Rattle.std.specs.Prelude.{◌≡◌, IfOk};
ghost use Rattle.ub_store.specs.Facts.{zero_page};

use std::alloc::{AllocError, Global};

/// The bytes of a page.
pub type Page = [u8; 4096];

/// A page of zeros in a box. It is a function of its own, since the room of a page is cleared where it is entered.
///
/// # Errors
///
/// `AllocError` where memory runs out.
pub fn new_page(alloc: Global) -> Result<Box<Page>, AllocError>
    ensures { IfOk result (λ page. page.value ≡ zero_page) }
{
    Ok(Box::new(alloc, [0; 4096])?)
}
