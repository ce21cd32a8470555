// The entries of a page of an index where they stand, and the search among them.
ghost use Rattle.std.specs.Prelude.{◌≡◌, ◌<◌, ◌≤◌};
ghost use Rattle.ub_page.specs.Slots.{IsSlot, entry_in, first_in};

use crate::entries::{MAX_ENTRIES, read_entry, read_key};
use ub_bytes::Page;
use ub_region::Entry;
use ub_table::Key;

/// The entry in a slot, from 0, whatever page it is.
pub fn entry_at(page: &Page, slot: usize) -> Entry
    requires { slot < MAX_ENTRIES }
    ensures { result ≡ entry_in slot page.now }
{
    read_entry(page, 16 + 24 * slot)
}

/// Where the entry in a slot begins.
pub fn first_at(page: &Page, slot: usize) -> Key
    requires { slot < MAX_ENTRIES }
    ensures { result ≡ first_in slot page.now }
{
    read_key(page, 16 + 24 * slot)
}

/// The slot to which a key falls, of the first so many of a page: the entry there is the first one, or doesn't begin after
/// the key, and the next one does, if there is one. It is found by halving, and holds of any page, in order or not.
pub fn slot_in(page: &Page, count: usize, key: &Key) -> usize
    requires some { 1 ≤ count }
    requires few { count ≤ MAX_ENTRIES }
    ensures { IsSlot key.now count page.now result }
{
    let mut low = 1;
    let mut high = count;
    while low < high {
        let middle = low + (high - low) / 2;
        if key.is_before(&first_at(page, middle)) {
            high = middle;
        } else {
            low = middle + 1;
        }
    }
    low - 1
}
