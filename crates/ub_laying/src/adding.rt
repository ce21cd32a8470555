// Pages that are added to the new store, and the first keys of those that were.
ghost use Rattle.std.specs.Prelude.{◌≡◌, ◌<◌, ◌≤◌, ◌+◌, length, take, IfOk, OnOk};
ghost use Rattle.ub_page.specs.Index.{index_page};
ghost use Rattle.ub_page.specs.declared.header.TheConstants.{MAX_LEVEL};
ghost use Rattle.ub_page.specs.declared.entries.TheConstants.{MAX_ENTRIES};
ghost use Rattle.ub_store.specs.Facts.{Appends, IsHonest, page_count};
ghost use Rattle.ub_laying.specs.Effects.{Adds};
ghost use Rattle.ub_laying.specs.Levels.{name_of, names_of};

use ub_page::entries::read_key;
use ub_page::{Draft, Entry, MAX_ENTRIES, Page, write_index};
use ub_region::ORIGIN;
use ub_store::{PageStore, Pager, StoreFault};

// Adds a page.
pub fn add_page<S: PageStore>(pager: &mut Pager<S>, page: &Page) -> Result<(), StoreFault>
    ensures added { OnOk result (Appends page.now pager.old.store pager.new.store) }
    ensures effect { Adds 1 pager.old pager.new result }
{
    let n = pager.extend()?;
    pager.put(n, page)
}

// Adds the page of these entries, at most 170, on a level of at most 16.
pub fn add_index_page<S: PageStore>(
    pager: &mut Pager<S>,
    entries: &[Entry],
    level: u32,
) -> Result<(), StoreFault>
    requires few { length entries.now ≤ MAX_ENTRIES }
    requires high { level ≤ MAX_LEVEL }
    ensures added { OnOk result (Appends
        (index_page (record { level = level; entries = entries.now }))
        pager.old.store pager.new.store) }
    ensures effect { Adds 1 pager.old pager.new result }
{
    let mut draft = Draft::new();
    write_index(entries, level, &mut draft);
    add_page(pager, draft.page())
}

// The entry that names the page of this number, which there is: with the key that stands where its first one is. The page, which
// nothing has checked, isn't held any more then.
fn read_name<S: PageStore>(pager: &mut Pager<S>, n: u32) -> Result<Entry, StoreFault>
    requires { n < page_count pager.old.store }
    ensures name { IsHonest pager.old.store
        → IfOk result (λ entry. entry ≡ name_of pager.old.store.pages n) }
    ensures same { pager.new.store.pages ≡ pager.old.store.pages }
    ensures effect { Adds 0 pager.old pager.new result }
{
    pager.bring(n)?;
    let first = read_key(pager.cached(n), 16);
    pager.forget(n);
    Ok(Entry { first, page: n })
}

// Puts the entries that name so many pages, from this one on, before the others.
fn read_names<S: PageStore>(
    pager: &mut Pager<S>,
    from: u32,
    count: usize,
    entries: &mut [Entry; MAX_ENTRIES],
) -> Result<(), StoreFault>
    requires few { count ≤ MAX_ENTRIES }
    requires there { from + count ≤ page_count pager.old.store }
    requires small { from + count < 4294967296 }
    ensures names { IsHonest pager.old.store
        → OnOk result (take count entries.new ≡ names_of pager.old.store.pages from count) }
    ensures same { pager.new.store.pages ≡ pager.old.store.pages }
    ensures effect { Adds 0 pager.old pager.new result }
{
    for i in 0..count {
        entries[i] = read_name(pager, from + i as u32)?;
    }
    Ok(())
}

// Adds the page, on a level of at most 16, of the entries that name so many pages, from this one on.
pub fn add_names<S: PageStore>(
    pager: &mut Pager<S>,
    from: u32,
    count: usize,
    level: u32,
) -> Result<(), StoreFault>
    requires few { count ≤ MAX_ENTRIES }
    requires high { level ≤ MAX_LEVEL }
    requires there { from + count ≤ page_count pager.old.store }
    requires small { from + count < 4294967296 }
    ensures count { OnOk result
        (page_count pager.new.store ≡ page_count pager.old.store + 1) }
    ensures added { IsHonest pager.old.store → OnOk result (Appends
        (index_page (record { level = level; entries = names_of pager.old.store.pages from count }))
        pager.old.store pager.new.store) }
    ensures effect { Adds 1 pager.old pager.new result }
{
    let none = Entry {
        first: ORIGIN,
        page: 0,
    };
    let mut entries = [none; MAX_ENTRIES];
    read_names(pager, from, count, &mut entries)?;
    add_index_page(pager, &entries[..count], level)
}
