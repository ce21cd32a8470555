// Reading an index page by page.
ghost use Rattle.std.specs.Prelude.{◌≡◌, ◌≤◌, [], IfErr, IfOk, length, take};
ghost use Rattle.ub_index.specs.Descending.{IsForgotten, Steps};
ghost use Rattle.ub_index.specs.Index.{NamesFitting, entries_of};
ghost use Rattle.ub_page.specs.Index.{head_on, node_on};
ghost use Rattle.ub_page.specs.declared.entries.TheConstants.{MAX_ENTRIES};
ghost use Rattle.ub_store.specs.Facts.{IsHonest};

use crate::descent::{Place, bring_fitting};
use crate::fault::IndexFault;
use std::alloc::{AllocError, Global};
use ub_page::entries::read_entries;
use ub_page::{Entry, MAX_ENTRIES, Page};
use ub_store::{PageStore, Pager};
use ub_table::Key;

/// The entries of the page that an entry of this level names, where the next entry begins with `end`, if there is one. Reads
/// the page, if it isn't held, and checks it in full, held or not. The pager forgets a page that is refused.
pub fn entries_at<S: PageStore>(
    alloc: Global,
    pager: &mut Pager<S>,
    last: u128,
    level: u32,
    entry: &Entry,
    end: Option<Key>,
) -> Result<Vec<Entry>, IndexFault>
    ensures named { IsHonest pager.old.store → IfOk result
        (λ _. NamesFitting last pager.old.store.pages level entry.now end) }
    ensures entries { IsHonest pager.old.store → IfOk result
        (λ es. es.items ≡ entries_of pager.old.store.pages entry.now.page) }
    ensures few { IfOk result (λ es. length es.items ≤ MAX_ENTRIES) }
    ensures forgotten { IfErr result (IsForgotten pager.new) }
    ensures effect { Steps last level entry.now end pager.old pager.new result }
{
    let place = Place {
        entry: *entry,
        next: end,
    };
    let head = bring_fitting(pager, last, level, &place)?;
    Ok(copied(alloc, pager.cached(entry.page), head.count)?)
}

// The entries of a page, which are so many.
fn copied(alloc: Global, page: &Page, count: usize) -> Result<Vec<Entry>, AllocError>
    requires count { count ≡ (head_on page.now).count }
    requires few { count ≤ MAX_ENTRIES }
    ensures entries { IfOk result (λ es. es.items ≡ (node_on page.now).entries) }
    ensures few { IfOk result (λ es. length es.items ≤ MAX_ENTRIES) }
{
    let held = read_entries(page, count);
    let mut entries = Vec::with_capacity(alloc, count)?;
    entries.extend_from_slice(held.as_slice())?;
    Ok(entries)
}
