ghost use Rattle.std.specs.Prelude.{◌≡◌, ◌↔◌, ◌<◌, Some, IsTrue, length, slice_get};
ghost use Rattle.ub_journal.specs.Image.{Journal as spec, AreAscending, IsJournal, IsMarkedFrom, numbers_of, told};

use ub_store::Page;

/// A page that is to stand at a number.
#[derive(Drop)]
pub struct Change {
    /// The page's number. It isn't 0: the first page stands in the journal by itself.
    pub number: u32,
    /// Its bytes.
    pub page: Page,
}

/// How one table becomes another one.
#[derive(Drop)]
pub struct Journal {
    /// The first page of the one.
    pub before: Page,
    /// The first page of the other.
    pub head: Page,
    /// How many pages the other has.
    pub count: u32,
    /// Its other pages that differ.
    pub changes: Vec<Change>,
}

/// What a journal says, told page by page, so that it need not stand in memory as one.
pub trait Tells {
    ghost told: { Self → spec };

    /// The first page of the one table.
    fn before(&self) -> Page
        ensures { result ≡ (told self.now).before };

    /// The first page of the other.
    fn head(&self) -> Page
        ensures { result ≡ (told self.now).head };

    /// How many pages the other has.
    fn count(&self) -> u32
        ensures { result ≡ (told self.now).count };

    /// How many of its other pages differ.
    fn changes(&self) -> usize
        ensures { result ≡ length (told self.now).changes };

    /// Puts one of these, by its place among them, into the page that is lent, and tells its number.
    fn put_change(&self, at: usize, page: &mut Page) -> u32
        requires within { at < length (told self.now).changes }
        ensures { slice_get (told self.now).changes at
            ≡ Some (record { number = result; page = page.new }) };
}

impl Tells for Journal {
    ghost use Rattle.ub_journal.specs.Image.{told};

    ghost told = { told };

    fn before(&self) -> Page {
        self.before
    }

    fn head(&self) -> Page {
        self.head
    }

    fn count(&self) -> u32 {
        self.count
    }

    fn changes(&self) -> usize {
        self.changes.len()
    }

    fn put_change(&self, at: usize, page: &mut Page) -> u32 {
        let change = &self.changes[at];
        *page = change.page;
        change.number
    }
}

/// Whether pages can hold a journal: the table is to have a page at least, and the changes are of other pages than the first, of pages
/// that it is to have, and in the order of their numbers.
pub fn is_journal(journal: &Journal) -> bool
    ensures { IsTrue result ↔ IsJournal (told journal.now) }
{
    journal.count >= 1 && are_ascending(journal.changes.as_slice(), journal.count)
}

// Whether each number is above the one before it, the first one above 0, and all are below the count.
fn are_ascending(changes: &[Change], count: u32) -> bool
    ensures { IsTrue result ↔ AreAscending 0 count (numbers_of changes.now) }
{
    let mut above = 0;
    for i in 0..changes.len() {
        let number = changes[i].number;
        if number <= above || number >= count {
            return false;
        }
        above = number;
    }
    true
}

/// Whether a page is another one but for its mark, the byte at offset 5.
pub fn is_marked_from(before: &Page, page: &Page) -> bool
    ensures { IsTrue result ↔ IsMarkedFrom before.now page.now }
{
    let mut was = *before;
    let mut is = *page;
    was[5] = 0;
    is[5] = 0;
    is == was
}
