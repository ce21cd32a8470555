// Entries, as they stand on pages: where a region begins, or what a page of an index leads to, and the page that holds it.
ghost use Rattle.std.specs.Prelude.{◌≡◌, ◌+◌, ◌*◌, ◌<◌, ◌≤◌, ◌↔◌, [], ◌∷◌, ◌++◌, length, IsTrue};
ghost use Rattle.std.specs.List.{flat_map};
ghost use Rattle.ub_bytes.specs.Bytes.{number_at, padded};
ghost use Rattle.ub_page.specs.Entries.{IsEntry, entry_bytes, entries_page, key_on, entry_on, entries_on};

use std::marker::Model;
use ub_bytes::page::{u32_at, u128_at};
use ub_bytes::{Draft, Page};
use ub_region::Entry;
use ub_table::{Key, MAX_ROW_NUMBER};

/// The most entries that a page has.
pub const MAX_ENTRIES: usize = 170;

/// Up to 170 entries that were read of a page.
#[derive(Drop)]
pub struct Entries {
    entries: [Entry; MAX_ENTRIES],
    len: usize,
}

impl Model for Entries {
    ghost use Rattle.std.specs.Prelude.{◌≤◌, List, take};
    ghost use Rattle.ub_region.specs.declared.entry.Entry.{Entry};
    ghost use Rattle.ub_page.specs.declared.entries.TheConstants.{MAX_ENTRIES};

    ghost Value = { List Entry };

    ghost view = { λ e. take e.len e.entries };

    ghost invariant = { λ e. e.len ≤ MAX_ENTRIES };
}

impl Entries {
    // No entry.
    fn new() -> Entries
        ensures { result ≡ [] }
    {
        let first = Key { z: 0, number: 0 };
        Entries {
            entries: [Entry { first, page: 0 }; MAX_ENTRIES],
            len: 0,
        }
    }

    // Puts an entry after the others, of which there are fewer than 170.
    fn push(&mut self, entry: Entry)
        requires { length self.old < MAX_ENTRIES }
        ensures { self.new ≡ self.old ++ entry ∷ [] }
    {
        self.entries[self.len] = entry;
        self.len += 1;
    }

    /// The entries in order: at most 170.
    pub fn as_slice(&self) -> &[Entry]
        ensures entries { result.now ≡ self.now }
        ensures few { length result.now ≤ MAX_ENTRIES }
    {
        &self.entries[..self.len]
    }
}

/// Writes the page of these entries, at most 170, over what was written before: the page's kind, its level (0 in a
/// directory), how many entries there are, the next page (0 for none), and the entries. Takes no memory.
pub fn write_entries(kind: u8, level: u8, next: u32, entries: &[Entry], draft: &mut Draft)
    requires { length entries.now ≤ MAX_ENTRIES }
    ensures { padded draft.new ≡ entries_page kind level next entries.now }
{
    draft.clear();
    draft.put_u8(kind);
    draft.put_u8(level);
    draft.put_u16(entries.len() as u16);
    draft.put_u32(next);
    draft.put_u64(0);
    put_entries(draft, entries);
}

fn put_entries(draft: &mut Draft, entries: &[Entry])
    requires { length draft.old + 24 * length entries.now ≤ 4096 }
    ensures { draft.new ≡ draft.old ++ flat_map (λ entry. entry_bytes entry) entries.now }
{
    for entry in entries {
        put_entry(draft, entry);
    }
}

fn put_entry(draft: &mut Draft, entry: &Entry)
    requires { length draft.old + 24 ≤ 4096 }
    ensures bytes { draft.new ≡ draft.old ++ entry_bytes entry.now }
    ensures len { length draft.new ≡ length draft.old + 24 }
{
    draft.put_u128(entry.first.z);
    draft.put_u32(entry.first.number);
    draft.put_u32(entry.page);
}

/// The first so many entries of a page, at most 170. Takes no memory.
pub fn read_entries(page: &Page, count: usize) -> Entries
    requires { count ≤ MAX_ENTRIES }
    ensures { result ≡ entries_on 16 count page.now }
{
    let mut entries = Entries::new();
    for i in 0..count {
        entries.push(read_entry(page, 16 + 24 * i));
    }
    entries
}

/// The entry that stands on the 24 bytes from an offset on, whatever they are.
pub fn read_entry(page: &Page, offset: usize) -> Entry
    requires { offset + 24 ≤ 4096 }
    ensures { result ≡ entry_on offset page.now }
{
    Entry {
        first: read_key(page, offset),
        page: u32_at(page, offset + 20),
    }
}

/// The key that stands on the 20 bytes from an offset on, whatever they are.
pub fn read_key(page: &Page, offset: usize) -> Key
    requires { offset + 20 ≤ 4096 }
    ensures { result ≡ key_on offset page.now }
{
    Key {
        z: u128_at(page, offset),
        number: u32_at(page, offset + 16),
    }
}

/// Whether an entry's address is at most the last one of the space, its number at most 16777215, and its page not the
/// first one.
pub fn is_in_range(entry: &Entry, last: u128) -> bool
    ensures { IsTrue result ↔ IsEntry last entry.now }
{
    entry.first.z <= last && entry.first.number <= MAX_ROW_NUMBER && entry.page >= 1
}
