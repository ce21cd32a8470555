// The reader of what stands behind the first three pages of a journal of version 2: the pages that change, each with its number and
// without the zeros with which it ends, one behind the other across pages.
ghost use Rattle.std.specs.Prelude.{◌≡◌, ◌≢◌, ◌↔◌, ◌<◌, ◌≤◌, ◌+◌, ◌-◌, ◌*◌, ◌/◌, ◌%◌, ◌^◌, ◌++◌, ℕ, List, Some, IfErr, IfOk, IsErrOf, IsTrue, OnOk, length, min, take, drop, replicate, get_or, slice_get};
ghost use Rattle.ub_journal.specs.declared.journal.Change.{Change as change};
ghost use Rattle.ub_journal_page.specs.Pages.{byte_parts, change_bytes, number_bytes};
ghost use Rattle.ub_journal_page.specs.Reading.{Looks};
ghost use Rattle.ub_journal_page.specs.inner.Parts.{ArePacked, AreSoMany, IsOn, IsRead, IsSound, stream};
ghost use Rattle.ub_store.specs.Facts.{IsHonest, page_count};

use crate::held::are_zero;
use crate::numbers::{is_same_front, numbers_before, spell_front};
use crate::reading::read_page;
use std::alloc::Global;
use ub_journal::{Change, JournalFault};
use ub_store::{Page, PageStore};

// Where a reader of bytes stands.
#[derive(Drop)]
struct Cursor {
    // The page of the next byte, unless none of it was read.
    page: Page,
    // How many bytes were read.
    place: u64,
}

/// So many changes that the pages behind the first three spell.
pub fn read_packed<S: PageStore>(
    alloc: Global,
    store: &mut S,
    changes: u32,
) -> Result<Vec<Change>, JournalFault>
    requires there { 3 + byte_parts (8 * changes) ≤ page_count (S.facts store.old) }
    requires few { page_count (S.facts store.old) < 2 ^ 32 }
    ensures count { IfOk result (λ cs. length cs.items ≡ changes) }
    ensures read { IfOk result (λ cs. IsHonest (S.facts store.old)
        → ArePacked (S.facts store.old).pages cs.items) }
    ensures exact { IfOk result (λ cs. IsHonest (S.facts store.old)
        → (ds : List change) → AreSoMany changes ds → ArePacked (S.facts store.old).pages ds
        → cs.items ≡ ds) }
    ensures damaged { IsErrOf result JournalFault.Damaged → IsHonest (S.facts store.old)
        → (ds : List change) → AreSoMany changes ds → ¬ (ArePacked (S.facts store.old).pages ds) }
    ensures effect { Looks (S.facts store.old) (S.facts store.new) result }
{
    let pages = store.pages();
    let Ok(mut read) = Vec::with_capacity(alloc, changes as usize) else {
        return Err(JournalFault::Memory);
    };
    let mut cursor = Cursor {
        page: [0; 4096],
        place: 0,
    };
    for n in 0..changes {
        let change = read_change(store, pages, &mut cursor)?;
        match read.push(change) {
            Ok(()) => {}
            Err(_) => return Err(JournalFault::Memory),
        }
    }
    if !is_end(pages, &cursor) {
        return Err(JournalFault::Damaged);
    }
    Ok(read)
}

// Whether there is no page but those of which bytes were read, and nothing but zeros behind these bytes.
fn is_end(pages: u32, cursor: &Cursor) -> bool
    requires few { cursor.now.place < 2 ^ 63 }
    ensures { (ps : List (List ℕ)) → length ps ≡ pages → 3 ≤ pages
        → IsRead ps cursor.now.place cursor.now.page
        → IsTrue result ↔ ((pages ≡ 3 + byte_parts cursor.now.place)
        × (drop cursor.now.place (stream ps)
        ≡ replicate (length (stream ps) - cursor.now.place) 0)) }
{
    let within = (cursor.place % 4096) as usize;
    u64::from(pages) == 3 + (cursor.place + 4095) / 4096
        && (within == 0 || are_zero(&cursor.page[within..]))
}

// Reads a change.
fn read_change<S: PageStore>(
    store: &mut S,
    pages: u32,
    cursor: &mut Cursor,
) -> Result<Change, JournalFault>
    requires count { page_count (S.facts store.old) ≡ pages }
    requires three { 3 ≤ pages }
    requires few { cursor.old.place < 2 ^ 62 }
    requires read { IsHonest (S.facts store.old)
        → IsRead (S.facts store.old).pages cursor.old.place cursor.old.page }
    ensures sound { IfOk result (λ c. IsSound c) }
    ensures few { OnOk result (cursor.new.place ≤ cursor.old.place + 4104) }
    ensures read { OnOk result (IsHonest (S.facts store.old)
        → IsRead (S.facts store.old).pages cursor.new.place cursor.new.page) }
    ensures change { IfOk result (λ c. IsHonest (S.facts store.old)
        → drop cursor.old.place (stream (S.facts store.old).pages)
        ≡ change_bytes c ++ drop cursor.new.place (stream (S.facts store.old).pages)) }
    ensures damaged { IsErrOf result JournalFault.Damaged → IsHonest (S.facts store.old)
        → (c : change) (rest : List ℕ) → IsSound c
        → drop cursor.old.place (stream (S.facts store.old).pages) ≢ change_bytes c ++ rest }
    ensures effect { Looks (S.facts store.old) (S.facts store.new) result }
{
    let (number, held) = read_front(store, pages, cursor)?;
    let mut page = [0; 4096];
    read_held(store, pages, cursor, held, &mut page)?;
    if ends_in_zero(&page, held) {
        return Err(JournalFault::Damaged);
    }
    Ok(Change { number, page })
}

// Whether the last of so many bytes of a page is zero.
fn ends_in_zero(page: &Page, held: usize) -> bool
    requires { held ≤ 4096 }
    ensures { IsTrue result ↔ ((0 < held) × (get_or page.now (held - 1) 0 ≡ 0)) }
{
    held > 0 && page[held - 1] == 0
}

// Reads so many bytes of a page, in the place of zeros.
fn read_held<S: PageStore>(
    store: &mut S,
    pages: u32,
    cursor: &mut Cursor,
    held: usize,
    page: &mut Page,
) -> Result<(), JournalFault>
    requires count { page_count (S.facts store.old) ≡ pages }
    requires three { 3 ≤ pages }
    requires held { held ≤ 4096 }
    requires blank { page.old ≡ replicate 4096 0 }
    requires few { cursor.old.place + held < 2 ^ 63 }
    requires read { IsHonest (S.facts store.old)
        → IsRead (S.facts store.old).pages cursor.old.place cursor.old.page }
    ensures place { OnOk result (cursor.new.place ≡ cursor.old.place + held) }
    ensures read { OnOk result (IsHonest (S.facts store.old)
        → IsRead (S.facts store.old).pages cursor.new.place cursor.new.page) }
    ensures page { OnOk result (IsHonest (S.facts store.old) → page.new
        ≡ take held (drop cursor.old.place (stream (S.facts store.old).pages))
        ++ replicate (4096 - held) 0) }
    ensures damaged { IsErrOf result JournalFault.Damaged → IsHonest (S.facts store.old)
        → length (stream (S.facts store.old).pages) < cursor.old.place + held }
    ensures effect { Looks (S.facts store.old) (S.facts store.new) result }
{
    read_bytes(store, pages, cursor, &mut page[..held])?;
    Ok(())
}

// Reads the number of a page that changes, and how many of its bytes follow.
fn read_front<S: PageStore>(
    store: &mut S,
    pages: u32,
    cursor: &mut Cursor,
) -> Result<(u32, usize), JournalFault>
    requires count { page_count (S.facts store.old) ≡ pages }
    requires three { 3 ≤ pages }
    requires few { cursor.old.place < 2 ^ 62 }
    requires read { IsHonest (S.facts store.old)
        → IsRead (S.facts store.old).pages cursor.old.place cursor.old.page }
    ensures few { IfOk result (λ front. (front.0 < 2 ^ 32) × (front.1 ≤ 4096)) }
    ensures place { OnOk result (cursor.new.place ≡ cursor.old.place + 8) }
    ensures read { OnOk result (IsHonest (S.facts store.old)
        → IsRead (S.facts store.old).pages cursor.new.place cursor.new.page) }
    ensures front { IfOk result (λ front. IsHonest (S.facts store.old)
        → take 8 (drop cursor.old.place (stream (S.facts store.old).pages))
        ≡ number_bytes front.0 ++ number_bytes front.1) }
    ensures damaged { IsErrOf result JournalFault.Damaged → IsHonest (S.facts store.old)
        → (number held : ℕ) (rest : List ℕ) → number < 2 ^ 32 → held ≤ 4096
        → drop cursor.old.place (stream (S.facts store.old).pages)
        ≢ (number_bytes number ++ number_bytes held) ++ rest }
    ensures effect { Looks (S.facts store.old) (S.facts store.new) result }
{
    let mut front = [0; 8];
    read_bytes(store, pages, cursor, &mut front)?;
    front_of(&front)
}

// The numbers of which what stands before a change's bytes is spelled.
fn front_of(front: &[u8; 8]) -> Result<(u32, usize), JournalFault>
    ensures front { IfOk result (λ told. (told.0 < 2 ^ 32) × (told.1 ≤ 4096)
        × (front.now ≡ number_bytes told.0 ++ number_bytes told.1)) }
    ensures fault { IfErr result (λ e. e ≡ JournalFault.Damaged) }
    ensures damaged { IsErrOf result JournalFault.Damaged → (number held : ℕ) → number < 2 ^ 32
        → held ≤ 4096 → front.now ≢ number_bytes number ++ number_bytes held }
{
    let (number, held) = numbers_before(front);
    let mut spelled = [0; 8];
    spell_front(number, held, &mut spelled);
    if held > 4096 || !is_same_front(&spelled, front) {
        return Err(JournalFault::Damaged);
    }
    Ok((number, held as usize))
}

// Reads bytes into all of a target.
fn read_bytes<S: PageStore>(
    store: &mut S,
    pages: u32,
    cursor: &mut Cursor,
    target: &mut [u8],
) -> Result<(), JournalFault>
    requires count { page_count (S.facts store.old) ≡ pages }
    requires three { 3 ≤ pages }
    requires few { cursor.old.place + length target.old < 2 ^ 63 }
    requires read { IsHonest (S.facts store.old)
        → IsRead (S.facts store.old).pages cursor.old.place cursor.old.page }
    ensures place { OnOk result (cursor.new.place ≡ cursor.old.place + length target.old) }
    ensures read { OnOk result (IsHonest (S.facts store.old)
        → IsRead (S.facts store.old).pages cursor.new.place cursor.new.page) }
    ensures bytes { OnOk result (IsHonest (S.facts store.old) → target.new
        ≡ take (length target.old) (drop cursor.old.place (stream (S.facts store.old).pages))) }
    ensures damaged { IsErrOf result JournalFault.Damaged → IsHonest (S.facts store.old)
        → length (stream (S.facts store.old).pages) < cursor.old.place + length target.old }
    ensures effect { Looks (S.facts store.old) (S.facts store.new) result }
{
    let mut filled = 0;
    while filled < target.len() {
        load(store, pages, cursor)?;
        filled += copy_part(cursor, &mut target[filled..]);
    }
    Ok(())
}

// Reads the page of the next byte, unless that was read.
fn load<S: PageStore>(store: &mut S, pages: u32, cursor: &mut Cursor) -> Result<(), JournalFault>
    requires count { page_count (S.facts store.old) ≡ pages }
    requires three { 3 ≤ pages }
    requires read { IsHonest (S.facts store.old)
        → IsRead (S.facts store.old).pages cursor.old.place cursor.old.page }
    ensures place { cursor.new.place ≡ cursor.old.place }
    ensures page { OnOk result (IsHonest (S.facts store.old)
        → IsOn (S.facts store.old).pages cursor.old.place cursor.new.page) }
    ensures damaged { IsErrOf result JournalFault.Damaged → IsHonest (S.facts store.old)
        → length (stream (S.facts store.old).pages) ≤ cursor.old.place }
    ensures effect { Looks (S.facts store.old) (S.facts store.new) result }
{
    if cursor.place % 4096 != 0 {
        return Ok(());
    }
    let n = 3 + cursor.place / 4096;
    if n >= u64::from(pages) {
        return Err(JournalFault::Damaged);
    }
    read_page(store, n as u32, &mut cursor.page)
}

// Copies bytes of the page, as many as there are on it and as the target takes.
fn copy_part(cursor: &mut Cursor, target: &mut [u8]) -> usize
    requires few { cursor.old.place + length target.old < 2 ^ 63 }
    ensures count { result ≡ min (length target.old) (4096 - cursor.old.place % 4096) }
    ensures long { length target.new ≡ length target.old }
    ensures place { cursor.new.place ≡ cursor.old.place + result }
    ensures page { cursor.new.page ≡ cursor.old.page }
    ensures bytes { target.new
        ≡ take result (drop (cursor.old.place % 4096) cursor.old.page) ++ drop result target.old }
{
    let within = (cursor.place % 4096) as usize;
    let count = target.len().min(4096 - within);
    target[..count].copy_from_slice(&cursor.page[within..within + count]);
    cursor.place += count as u64;
    count
}
