ghost use Rattle.std.specs.Prelude.{◌≡◌, ◌<◌, ℕ, List, Some, length, slice_get};

use crate::Page;

/// The pages of a table, which can be asked for one by one: they need not stand in memory.
pub trait Pages {
    ghost pages: { Self → List (List ℕ) };

    /// How many there are.
    fn count(&self) -> u32
        ensures { result ≡ length (pages self.now) };

    /// Puts the page of this number, which there is, into the one that is lent.
    fn put_page(&self, n: u32, page: &mut Page)
        requires there { n < length (pages self.now) }
        ensures { slice_get (pages self.now) n ≡ Some page.new };
}
