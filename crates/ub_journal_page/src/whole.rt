// The reader of what stands behind the first three pages of a journal of version 1: the numbers of the pages that change, and these
// pages, each of them whole.
ghost use Rattle.std.specs.Prelude.{◌≡◌, ◌≢◌, ◌<◌, ◌≤◌, ◌+◌, ◌^◌, ◌++◌, ℕ, List, IfOk, IsErrOf, OnOk, length, take, drop};
ghost use Rattle.std.specs.List.{AllByRecursion};
ghost use Rattle.ub_journal.specs.Image.{numbers_of};
ghost use Rattle.ub_journal.specs.declared.journal.Change.{Change as change};
ghost use Rattle.ub_journal_page.specs.Pages.{number_page};
ghost use Rattle.ub_journal_page.specs.Reading.{Looks};
ghost use Rattle.ub_journal_page.specs.Whole.{number_pages, pages_in, parts_of, total_of};
ghost use Rattle.ub_journal_page.specs.inner.Numbers.{numbers_on};
ghost use Rattle.ub_journal_page.specs.inner.Parts.{AreListed, AreSoMany, HasNumbers};
ghost use Rattle.ub_store.specs.Facts.{IsHonest, page_count};

use crate::numbers::{MAX_NUMBERS, is_same, number_in, put};
use crate::reading::read_page;
use std::alloc::Global;
use ub_journal::{Change, JournalFault};
use ub_store::{Page, PageStore};

/// How many pages a journal of so many changes has.
pub fn total(changes: u32) -> u64
    ensures { result ≡ total_of changes }
{
    3 + (parts(changes) + u64::from(changes))
}

// On how many pages the numbers of so many changes stand.
fn parts(changes: u32) -> u64
    ensures { result ≡ parts_of changes }
{
    let most = MAX_NUMBERS as u64;
    (u64::from(changes) + (most - 1)) / most
}

/// So many changes that the pages behind the first three spell.
pub fn read_whole<S: PageStore>(
    alloc: Global,
    store: &mut S,
    changes: u32,
) -> Result<Vec<Change>, JournalFault>
    requires there { page_count (S.facts store.old) ≡ total_of changes }
    requires few { page_count (S.facts store.old) < 2 ^ 32 }
    ensures count { IfOk result (λ cs. length cs.items ≡ changes) }
    ensures read { IfOk result (λ cs. IsHonest (S.facts store.old)
        → AreListed (S.facts store.old).pages cs.items) }
    ensures exact { IfOk result (λ cs. IsHonest (S.facts store.old)
        → (ds : List change) → AreSoMany changes ds → AreListed (S.facts store.old).pages ds
        → cs.items ≡ ds) }
    ensures damaged { IsErrOf result JournalFault.Damaged → IsHonest (S.facts store.old)
        → (ds : List change) → AreSoMany changes ds → ¬ (AreListed (S.facts store.old).pages ds) }
    ensures effect { Looks (S.facts store.old) (S.facts store.new) result }
{
    let numbers = read_numbers(alloc, store, changes)?;
    let from = 3 + parts(changes) as u32;
    let read = read_listed(alloc, store, numbers.as_slice(), from)?;
    Ok(read)
}

// The numbers of so many changes, where the pages behind the first three are spelled of them.
fn read_numbers<S: PageStore>(
    alloc: Global,
    store: &mut S,
    changes: u32,
) -> Result<Vec<u32>, JournalFault>
    requires there { page_count (S.facts store.old) ≡ total_of changes }
    requires few { page_count (S.facts store.old) < 2 ^ 32 }
    ensures count { IfOk result (λ numbers. length numbers.items ≡ changes) }
    ensures read { IfOk result (λ numbers. IsHonest (S.facts store.old)
        → take (parts_of changes) (drop 3 (S.facts store.old).pages)
        ≡ number_pages (parts_of changes) numbers.items) }
    ensures exact { IfOk result (λ numbers. IsHonest (S.facts store.old)
        → (ns : List ℕ) → HasNumbers changes (S.facts store.old).pages ns → numbers.items ≡ ns) }
    ensures damaged { IsErrOf result JournalFault.Damaged → IsHonest (S.facts store.old)
        → (ns : List ℕ) → ¬ (HasNumbers changes (S.facts store.old).pages ns) }
    ensures effect { Looks (S.facts store.old) (S.facts store.new) result }
{
    let Ok(mut numbers) = Vec::with_capacity(alloc, changes as usize) else {
        return Err(JournalFault::Memory);
    };
    let mut page = [0; 4096];
    for k in 0..parts(changes) as u32 {
        read_page(store, 3 + k, &mut page)?;
        let left = (changes - 1024 * k) as usize;
        take_numbers(&page, left.min(MAX_NUMBERS), &mut numbers)?;
    }
    Ok(numbers)
}

// Takes the first so many numbers of a page that is spelled of so many.
fn take_numbers(page: &Page, count: usize, numbers: &mut Vec<u32>) -> Result<(), JournalFault>
    requires { count ≤ MAX_NUMBERS }
    ensures taken { OnOk result
        (numbers.new.items ≡ numbers.old.items ++ numbers_on count page.now) }
    ensures read { OnOk result (page.now ≡ number_page (numbers_on count page.now)) }
    ensures damaged { IsErrOf result JournalFault.Damaged → (xs : List ℕ) → length xs ≡ count
        → AllByRecursion (λ x. x < 2 ^ 32) xs → page.now ≢ number_page xs }
    ensures device { ¬ (IsErrOf result JournalFault.Device) }
{
    let mut spelled = [0; 4096];
    for i in 0..count {
        let x = number_in(page, i);
        put(&mut spelled, i, x);
        match numbers.push(x) {
            Ok(()) => {}
            Err(_) => return Err(JournalFault::Memory),
        }
    }
    if !is_same(&spelled, page) {
        return Err(JournalFault::Damaged);
    }
    Ok(())
}

// The pages from one on, each with its number.
fn read_listed<S: PageStore>(
    alloc: Global,
    store: &mut S,
    numbers: &[u32],
    from: u32,
) -> Result<Vec<Change>, JournalFault>
    requires there { page_count (S.facts store.old) ≡ from + length numbers.now }
    requires few { page_count (S.facts store.old) < 2 ^ 32 }
    ensures numbers { IfOk result (λ changes. numbers_of changes.items ≡ numbers.now) }
    ensures read { IfOk result (λ changes. IsHonest (S.facts store.old)
        → pages_in changes.items ≡ drop from (S.facts store.old).pages) }
    ensures damaged { ¬ (IsErrOf result JournalFault.Damaged) }
    ensures effect { Looks (S.facts store.old) (S.facts store.new) result }
{
    let Ok(mut changes) = Vec::with_capacity(alloc, numbers.len()) else {
        return Err(JournalFault::Memory);
    };
    for i in 0..numbers.len() {
        let mut page = [0; 4096];
        read_page(store, from + i as u32, &mut page)?;
        let number = numbers[i];
        match changes.push(Change { number, page }) {
            Ok(()) => {}
            Err(_) => return Err(JournalFault::Memory),
        }
    }
    Ok(changes)
}
