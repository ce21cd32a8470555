// A change of an index that is prepared, and not yet made.
ghost use Rattle.std.specs.Prelude.{◌≡◌, ◌≤◌, ◌<◌, ◌+◌, ◌-◌, ◌⊎◌, None, IfOk, IfErr, IfSome};
ghost use Rattle.ub_index_change.specs.Calls.{GrowsBy};
ghost use Rattle.ub_index_change.specs.Changing.{AreBelow, IsAtMostOne, IsNoGrowth};
ghost use Rattle.ub_index.specs.Descending.{IsForgotten, Steps};
ghost use Rattle.ub_index.specs.Index.{top};
ghost use Rattle.ub_index_change.specs.Lowering.{LowersTo, ReadsRoots, entries_then, sole_page, spelled_page, unless_first};
ghost use Rattle.ub_page.specs.Index.{node_on};
ghost use Rattle.ub_store.specs.Facts.{IsHonest};
ghost use Rattle.ub_index_change.specs.Preparing.{Settles, IsSettleFault, TakesFew};
ghost use Rattle.ub_index_change.specs.declared.told.Told.TheVariants.{Gone, Two};
ghost use Rattle.ub_page.specs.declared.header.TheConstants.{MAX_LEVEL};

use crate::making::extend_by;
use crate::sheet::Sheet;
use crate::sheets::Sheets;
use crate::told::Told;
use std::marker::Model;
use ub_bytes::page::u16_at;
use ub_index::{IndexFault, bring_root};
use ub_page::{Entry, MAX_LEVEL, Page, entry_at};
use ub_store::{PageStore, Pager, StoreFault};

/// A change that is prepared: the pages that it spells, how many pages the store has, and the root from then on, and its level.
#[derive(Drop)]
pub struct Change {
    sheets: Sheets,
    start: u32,
    root: u32,
    levels: u32,
}

impl Model for Change {
    ghost use Rattle.std.specs.Prelude.{◌≤◌};
    ghost use Rattle.ub_index_change.specs.Preparing.{ChangeView, change_view};
    ghost use Rattle.ub_page.specs.declared.header.TheConstants.{MAX_LEVEL};

    ghost Value = { ChangeView };

    ghost view = { λ c. change_view c.sheets c.start c.root c.levels };

    ghost invariant = { λ c. (1 ≤ c.levels) × (c.levels ≤ MAX_LEVEL) × (1 ≤ c.root) };
}

impl Change {
    /// How the change leaves the root, which stands on this page and is of this level, and of which this is told, and not that
    /// nothing is left. Full comes where a new root would have a level above 16.
    pub(crate) fn settled(
        root: u32,
        levels: u32,
        told: Told,
        start: u32,
        sheets: Sheets,
    ) -> Result<Change, IndexFault>
        requires root { (1 ≤ root) × (1 ≤ levels) × (levels ≤ MAX_LEVEL) }
        requires more { IsAtMostOne told ⊎ (1 ≤ sheets.next) }
        requires left { ¬ (told ≡ Gone) }
        ensures settled { IfOk result (Settles root levels told start sheets) }
        ensures few { IfOk result (TakesFew start sheets.next 1) }
        ensures narrow { IsAtMostOne told → IfErr result IsNoGrowth }
        ensures refused { IfErr result (IsSettleFault root levels told sheets) }
    {
        match told {
            Told::Two(left, right) => raised(root, levels, left, right, start, sheets),
            _ => Ok(Change {
                sheets,
                start,
                root,
                levels,
            }),
        }
    }

    /// The pages that it spells, in the order in which they are put.
    pub(crate) fn sheets(&self) -> &[Sheet]
        ensures sheets { result.now ≡ self.now.sheets }
        ensures below { AreBelow self.now.next self.now.sheets }
    {
        self.sheets.all()
    }

    /// The root from then on: its page, which isn't the store's first, and its level, 1 to 16.
    pub fn root(&self) -> (u32, u32)
        ensures root { result ≡ (self.now.root, self.now.levels) }
        ensures some { 1 ≤ self.now.root }
        ensures low { 1 ≤ self.now.levels }
        ensures high { self.now.levels ≤ MAX_LEVEL }
    {
        (self.root, self.levels)
    }

    /// The page of the region that is added: the first that the store gets.
    pub fn page(&self) -> u32
        ensures { result ≡ self.now.start }
    {
        self.start
    }

    /// Gives the store the pages that the change needs, before a page is put. Device comes where the store failed in this call,
    /// BadSize where it would have more than 4294967295 pages, Memory where memory was refused. Each page that the store had is
    /// as it was; after a fault it may have got some.
    pub fn grow<S: PageStore>(&self, pager: &mut Pager<S>) -> Result<(), StoreFault>
        ensures { GrowsBy (self.now.next - self.now.start) pager.old pager.new result }
    {
        extend_by(pager, self.sheets.next().saturating_sub(self.start))
    }

    /// The change with the root to which its root gives way: while it is above level 1 and names one page alone, that page
    /// becomes the root. A page that isn't spelled is read, and refused, and then forgotten, as in a search.
    pub(crate) fn lowered<S: PageStore>(
        self,
        pager: &mut Pager<S>,
        last: u128,
    ) -> Result<Change, IndexFault>
        ensures lowered { IsHonest pager.old.store → IfOk result
            (LowersTo pager.old.store.pages self) }
        ensures next { IfOk result (λ change. change.next ≡ self.next) }
        ensures forgotten { IfErr result (IsForgotten pager.new) }
        ensures effect { ReadsRoots last self pager.old pager.new result }
    {
        let mut root = self.root;
        let mut levels = self.levels;
        while levels > 1 {
            let Some(page) = named_alone(pager, last, &self.sheets, root, levels)? else {
                break;
            };
            root = page;
            levels -= 1;
        }
        Ok(Change {
            sheets: self.sheets,
            start: self.start,
            root,
            levels,
        })
    }
}

// The page that the root of this level names alone, if it does, once the sheets stand.
fn named_alone<S: PageStore>(
    pager: &mut Pager<S>,
    last: u128,
    sheets: &Sheets,
    root: u32,
    level: u32,
) -> Result<Option<u32>, IndexFault>
    ensures sole { IsHonest pager.old.store → IfOk result (λ page. page
        ≡ sole_page (entries_then sheets.now.sheets pager.old.store.pages root)) }
    ensures some { IfOk result (λ page. IfSome page (λ n. 1 ≤ n)) }
    ensures unspelled { IfErr result (λ _. spelled_page sheets.now.sheets root ≡ None) }
    ensures forgotten { IfErr result (IsForgotten pager.new) }
    ensures effect { Steps last level (top root) None pager.old pager.new result }
{
    if let Some(page) = sheets.find(root) {
        return Ok(sole_on(page));
    }
    bring_root(pager, last, level, root)?;
    Ok(sole_on(pager.cached(root)))
}

// The page that a page of an index names alone, if it does, and it isn't page 0.
fn sole_on(page: &Page) -> Option<u32>
    ensures sole { result ≡ sole_page (node_on page.now).entries }
    ensures some { IfSome result (λ n. 1 ≤ n) }
{
    if u16_at(page, 2) == 1 {
        unless_first(entry_at(page, 0).page)
    } else {
        None
    }
}

// This page, unless it is page 0.
fn unless_first(page: u32) -> Option<u32>
    ensures same { result ≡ unless_first page }
    ensures some { IfSome result (λ n. 1 ≤ n) }
{
    if page == 0 { None } else { Some(page) }
}

// How the change leaves a root the entries of which stand on two pages: a new one above it names them.
fn raised(
    root: u32,
    levels: u32,
    left: Entry,
    right: Entry,
    start: u32,
    sheets: Sheets,
) -> Result<Change, IndexFault>
    requires high { levels ≤ MAX_LEVEL }
    requires more { 1 ≤ sheets.next }
    ensures settled { IfOk result (Settles root levels (Two left right) start sheets) }
    ensures few { IfOk result (TakesFew start sheets.next 1) }
    ensures refused { IfErr result (IsSettleFault root levels (Two left right) sheets) }
{
    if levels == MAX_LEVEL {
        return Err(IndexFault::Full);
    }
    let mut sheets = sheets;
    let page = sheets.take_number()?;
    sheets.spell(page, levels + 1, &[left, right])?;
    Ok(Change {
        sheets,
        start,
        root: page,
        levels: levels + 1,
    })
}
