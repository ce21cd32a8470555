ghost use Rattle.std.specs.Prelude.{◌≡◌, ◌↔◌, IsTrue};
ghost use Rattle.ub_index_change.specs.Changing.{with_added};
ghost use Rattle.ub_index_change.specs.declared.told.Told.TheVariants.{Same};

use ub_page::Entry;

/// What has become of an entry of an index: the entries by which what it led to is named from then on.
#[derive(Clone, Copy)]
pub enum Told {
    /// The entry itself.
    Same,
    /// None, since nothing is left.
    Gone,
    /// Another one, which names the same page: it begins with another key.
    One(Entry),
    /// Two, one after the other.
    Two(Entry, Entry),
}

/// Whether the entry is as it was.
pub fn is_unchanged(told: &Told) -> bool
    ensures { IsTrue result ↔ (told.now ≡ Same) }
{
    match told {
        Told::Same => true,
        _ => false,
    }
}

/// What becomes of a region's entry: it goes, or another one comes behind it.
pub fn with_added(added: Option<Entry>, entry: &Entry) -> Told
    ensures { result ≡ with_added added entry.now }
{
    match added {
        Some(added) => Told::Two(*entry, added),
        None => Told::Gone,
    }
}
