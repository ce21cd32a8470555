ghost use Rattle.std.specs.Prelude.{ℕ, ◌≡◌, ◌+◌, ◌*◌, ◌<◌, ◌≤◌, ◌↔◌, [], ◌∷◌, ◌++◌, Ok, length, IsTrue, IfOk, IfErr};
ghost use Rattle.std.specs.List.{AllByRecursion};
ghost use Rattle.ub_zaddr.specs.Address.{last_address};
ghost use Rattle.ub_bytes.specs.Bytes.{number_at, padded};
ghost use Rattle.ub_page.specs.Directory.{Listing, IsListing, directory_page, listing_on, IsDirectoryKind, HasCount, HasEntries, IsDirectoryFault};
ghost use Rattle.ub_page.specs.Entries.{AreAscending, IsEntry};

use crate::entries::{Entries, MAX_ENTRIES, is_in_range, read_entries, write_entries};
use std::marker::Model;
use ub_bytes::page::{is_same, u8_at, u16_at, u32_at};
use ub_bytes::{Draft, Page};
use ub_region::Entry;
use ub_table::{PageFault, Schema};
use ub_zaddr::last;

// 'D', with which each page of the directory begins.
const KIND: u8 = 0x44;

/// A page of the directory: up to 170 regions in the order of their first keys, and the next page of the directory.
#[derive(Drop)]
pub struct Directory {
    entries: Entries,
    next: u32,
}

impl Model for Directory {
    ghost use Rattle.std.specs.Prelude.{◌≤◌, length};
    ghost use Rattle.ub_page.specs.Directory.{Listing};
    ghost use Rattle.ub_page.specs.declared.entries.TheConstants.{MAX_ENTRIES};

    ghost Value = { Listing };

    ghost view = { λ d. record { entries = d.entries; next = d.next } };
}

impl Directory {
    /// The entries in order: at most 170.
    pub fn entries(&self) -> &[Entry]
        ensures entries { result.now ≡ self.now.entries }
        ensures few { length result.now ≤ MAX_ENTRIES }
    {
        self.entries.as_slice()
    }

    /// The next page of the directory, 0 for none.
    pub fn next(&self) -> u32
        ensures { result ≡ self.now.next }
    {
        self.next
    }
}

/// Writes the page of these entries, with the next page of the directory, 0 for none, over what was written before. There are
/// 1 to 170 of them, in the order of their first keys and each in its ranges, so that the reader takes the page in a space
/// that has the addresses. Takes no memory.
pub fn write_directory(entries: &[Entry], next: u32, draft: &mut Draft)
    requires { (dims : ℕ) × IsListing dims (record { entries = entries.now; next = next }) }
    ensures { padded draft.new ≡ directory_page (record { entries = entries.now; next = next }) }
{
    write_entries(KIND, 0, next, entries, draft);
}

/// What a page of the directory tells. Otherwise the first of these that holds: `WrongKind` (the first byte is not 'D'),
/// `BadCount` (not 1 to 170 entries), `BadRow` (an address above the last of the schema's space, a number above
/// 16777215, or page 0), `BadOrder` (the first keys do not ascend), `BadPadding` (a byte that no field uses is not zero).
pub fn read_directory(schema: &Schema, page: &Page) -> Result<Directory, PageFault>
    ensures found { IfOk result (λ d. IsListing schema.now.dims d × (page.now ≡ directory_page d)) }
    ensures exact { (listing : Listing) → IsListing schema.now.dims listing
        → page.now ≡ directory_page listing → result ≡ Ok listing }
    ensures refused { IfErr result (IsDirectoryFault schema.now.dims page.now) }
{
    let directory = listing_of(schema, page)?;
    let mut draft = Draft::new();
    write_directory(directory.entries(), directory.next(), &mut draft);
    if !is_same(draft.page(), page) {
        return Err(PageFault::BadPadding);
    }
    Ok(directory)
}

// What stands on the page, where that is in range and in order.
fn listing_of(schema: &Schema, page: &Page) -> Result<Directory, PageFault>
    ensures listing { IfOk result
        (λ d. (d ≡ listing_on page.now) × IsDirectoryKind page.now × HasCount page.now) }
    ensures entries { IfOk result
        (λ d. HasEntries schema.now.dims page.now × AreAscending (listing_on page.now).entries) }
    ensures refused { IfErr result (IsDirectoryFault schema.now.dims page.now) }
{
    if u8_at(page, 0) != KIND {
        return Err(PageFault::WrongKind);
    }
    let count = usize::from(u16_at(page, 2));
    if count == 0 || count > MAX_ENTRIES {
        return Err(PageFault::BadCount);
    }
    let directory = Directory {
        entries: read_entries(page, count),
        next: u32_at(page, 4),
    };
    if !are_in_range(directory.entries(), last_of(schema)) {
        return Err(PageFault::BadRow);
    }
    if !are_ascending(directory.entries()) {
        return Err(PageFault::BadOrder);
    }
    Ok(directory)
}

// The greatest address of the schema's space.
fn last_of(schema: &Schema) -> u128
    ensures { result ≡ last_address schema.now.dims }
{
    last(schema.shape())
}

fn are_in_range(entries: &[Entry], last: u128) -> bool
    ensures { IsTrue result ↔ AllByRecursion (IsEntry last) entries.now }
{
    for entry in entries {
        if !is_in_range(entry, last) {
            return false;
        }
    }
    true
}

fn are_ascending(entries: &[Entry]) -> bool
    ensures { IsTrue result ↔ AreAscending entries.now }
{
    for i in 1..entries.len() {
        if !entries[i - 1].first.is_before(&entries[i].first) {
            return false;
        }
    }
    true
}
