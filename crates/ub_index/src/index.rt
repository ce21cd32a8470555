ghost use Rattle.std.specs.Prelude.{◌≡◌, ◌≤◌, ◌<◌, ◌^◌, ℕ, None, Some, IfOk, IfErr, option_copied};
ghost use Rattle.ub_bigmin.specs.Box.{HoldsAny};
ghost use Rattle.ub_bigmin.specs.Extremes.{LeastFrom};
ghost use Rattle.ub_index.specs.Spans.{first_keys, Meets, region_of};
ghost use Rattle.ub_index.specs.View.{IsIndexOn, IsRegionAt, IsNextRegion, IsPreviousRegion, entries_in, index_view};
ghost use Rattle.ub_index.specs.Descending.{FindsBehind, HoldsLeaf, IsForgotten, LeadsDown, Seeks};
ghost use Rattle.ub_index.specs.Held.{AreChecked};
ghost use Rattle.ub_index.specs.Searching.{Aims, Gives, GivesAny, GoesDown, IsMet, key_before};
ghost use Rattle.ub_region.specs.Spans.{end_before};
ghost use Rattle.ub_page.specs.declared.header.TheConstants.{MAX_LEVEL};
ghost use Rattle.ub_region.specs.Regions.{index_holding};
ghost use Rattle.ub_store.specs.Facts.{IsHonest};

use crate::descent::{Found, Leaf, aim, earlier, look, root_place, step_down};
use crate::fault::IndexFault;
use crate::goal::Goal;
use std::marker::Model;
use ub_bigmin::ZBox;
use ub_page::Entry;
use ub_region::{ORIGIN, Region};
use ub_store::{PageStore, Pager};
use ub_table::{Key, PageFault};

/// An index of several levels over the pages of a store: where its root stands, and how many levels it has. No page of it is
/// kept here.
#[derive(Drop)]
pub struct Index {
    root: u32,
    levels: u32,
    last: u128,
}

impl Model for Index {
    ghost use Rattle.std.specs.Prelude.{◌≤◌, ◌<◌, ◌^◌};
    ghost use Rattle.ub_index.specs.View.{IndexView, index_view};
    ghost use Rattle.ub_page.specs.declared.header.TheConstants.{MAX_LEVEL};

    ghost Value = { IndexView };

    ghost view = { λ i. index_view i.root i.levels i.last };

    ghost invariant = { λ i. (1 ≤ i.levels) × (i.levels ≤ MAX_LEVEL) × (i.last < 2 ^ 128) × (1 ≤ i.root) };
}

impl Index {
    /// The index whose root stands on this page, which isn't the store's first, and is of this level, 1 to 16, in a space with
    /// this last address. Nothing is read.
    pub fn new(root: u32, levels: u32, last: u128) -> Index
        requires some { 1 ≤ root }
        requires low { 1 ≤ levels }
        requires high { levels ≤ MAX_LEVEL }
        ensures { result ≡ record { root = root; levels = levels; last = last } }
    {
        Index { root, levels, last }
    }

    /// The root: its page, which isn't the store's first, and its level, 1 to 16.
    pub fn root(&self) -> (u32, u32)
        ensures root { result ≡ (self.now.root, self.now.levels) }
        ensures some { 1 ≤ self.now.root }
        ensures low { 1 ≤ self.now.levels }
        ensures high { self.now.levels ≤ MAX_LEVEL }
    {
        (self.root, self.levels)
    }

    /// The last address of its space.
    pub fn last(&self) -> u128
        ensures { result ≡ self.now.last }
    {
        self.last
    }

    /// The region that holds a key: the last one that does not begin after it.
    ///
    /// Page comes where a page on the way down is refused: by its reader; as BadCount where it isn't of the level due; as
    /// OutOfRegion where it doesn't begin with the key by which the page above names it, or doesn't end before that of the next
    /// one. One that is read in this call is looked at in full; of one that the pager holds the ends alone are, which is enough
    /// where it was checked before. Store with NoPage comes where a page is named that the store doesn't have, with Device where
    /// the store failed in this call, with Memory where memory was refused. The first refusal on the way is told. Index and
    /// store are then as they were, and the pager has forgotten the page that is refused.
    pub fn region_holding<S: PageStore>(
        &self,
        pager: &mut Pager<S>,
        key: &Key,
    ) -> Result<Region, IndexFault>
        ensures given { AreChecked self.now.last pager.old
            → IfOk result (Gives self.now pager.old.store key.now) }
        ensures region { AreChecked self.now.last pager.old
            → IsIndexOn self.now pager.old.store → IfOk result
            (IsRegionAt (entries_in self.now pager.old.store)
            (index_holding key.now (first_keys (entries_in self.now pager.old.store)))) }
        ensures small { IfOk result (λ region. region.first.number < 2 ^ 32) }
        ensures forgotten { IfErr result (IsForgotten pager.new) }
        ensures effect { GoesDown (λ k. k ≡ key.now) self.now pager.old pager.new result }
    {
        descend(pager, self.root, self.levels, self.last, key)
    }

    /// The region after another one, if there is one. Refused as `region_holding` is, on the way to that region's first
    /// key.
    pub fn after<S: PageStore>(
        &self,
        pager: &mut Pager<S>,
        region: &Region,
    ) -> Result<Option<Region>, IndexFault>
        ensures given { AreChecked self.now.last pager.old
            → IfOk result (GivesAny self.now pager.old.store region.now.next) }
        ensures after { AreChecked self.now.last pager.old → (i : ℕ)
            → IsIndexOn self.now pager.old.store
            → IsRegionAt (entries_in self.now pager.old.store) i region.now
            → IfOk result (IsNextRegion (entries_in self.now pager.old.store) i) }
        ensures forgotten { IfErr result (IsForgotten pager.new) }
        ensures effect { GoesDown (λ k. region.now.next ≡ Some k) self.now pager.old pager.new
            result }
    {
        match &region.next {
            Some(next) => Ok(Some(self.region_holding(pager, next)?)),
            None => Ok(None),
        }
    }

    /// The region before another one, if there is one. Refused as `region_holding` is, on the way to the greatest key
    /// before that one's first.
    pub fn before<S: PageStore>(
        &self,
        pager: &mut Pager<S>,
        region: &Region,
    ) -> Result<Option<Region>, IndexFault>
        ensures given { AreChecked self.now.last pager.old
            → IfOk result (GivesAny self.now pager.old.store
            (key_before region.now.first.z region.now.first.number)) }
        ensures before { AreChecked self.now.last pager.old → (i : ℕ)
            → IsIndexOn self.now pager.old.store
            → IsRegionAt (entries_in self.now pager.old.store) i region.now
            → IfOk result (IsPreviousRegion (entries_in self.now pager.old.store) i) }
        ensures forgotten { IfErr result (IsForgotten pager.new) }
        ensures effect { GoesDown
            (λ k. key_before region.now.first.z region.now.first.number ≡ Some k)
            self.now pager.old pager.new result }
    {
        match before_key(&region.first) {
            Some(key) => Ok(Some(self.region_holding(pager, &key)?)),
            None => Ok(None),
        }
    }

    /// The first region later than `after`, if one is given, whose span ends at z or later. `None` exactly where there is none.
    ///
    /// Refused as `region_holding` is, on the way to the first key of `after`, or then on the way to the place from which the search
    /// goes on. Page comes with the root and OutOfRegion where what is found would not begin later than `after`: only a store
    /// that isn't honest, or a pager whose pages weren't checked, gives one page in two ways.
    pub fn seek<S: PageStore>(
        &self,
        pager: &mut Pager<S>,
        z: u128,
        after: Option<&Region>,
    ) -> Result<Option<Region>, IndexFault>
        ensures { Seeks (λ _ to. to ≡ Some z) (λ r. z ≤ r.to) self.now (option_copied after.entry)
            pager.old pager.new result }
    {
        self.later_region(pager, &Goal::Address(z), after)
    }

    /// The first region later than `after`, if one is given, that meets one of the boxes. `None` exactly where there is none.
    /// Refused as `seek` is.
    pub fn next_meeting<S: PageStore>(
        &self,
        pager: &mut Pager<S>,
        boxes: &[ZBox],
        after: Option<&Region>,
    ) -> Result<Option<Region>, IndexFault>
        ensures { Seeks (λ from. LeastFrom (HoldsAny boxes.now) from.z) (Meets boxes.now) self.now
            (option_copied after.entry) pager.old pager.new result }
    {
        self.later_region(pager, &Goal::Boxes(boxes), after)
    }

    // The region that is found after another one, if one is given. It is refused where it would not begin later, and the pager then
    // forgets the root.
    fn later_region<S: PageStore>(
        &self,
        pager: &mut Pager<S>,
        goal: &Goal,
        after: Option<&Region>,
    ) -> Result<Option<Region>, IndexFault>
        ensures { Seeks (Aims goal.now) (IsMet goal.now) self.now (option_copied after.entry)
            pager.old pager.new result }
    {
        match self.region_after(pager, goal, after)? {
            Some((from, region)) if region.first.is_before(&from) => {
                pager.forget(self.root);
                Err(IndexFault::Page {
                    page: self.root,
                    fault: PageFault::OutOfRegion,
                })
            }
            Some((_, region)) => Ok(Some(region)),
            None => Ok(None),
        }
    }

    // The region that a search with this goal finds after another one, if one is given, and where the search goes on from: where
    // the next region begins, or the first of all.
    fn region_after<S: PageStore>(
        &self,
        pager: &mut Pager<S>,
        goal: &Goal,
        after: Option<&Region>,
    ) -> Result<Option<(Key, Region)>, IndexFault>
        ensures { FindsBehind (Aims goal.now) self.now (option_copied after.entry) pager.old
            pager.new result }
    {
        match after {
            Some(region) => self.region_behind(pager, goal, region),
            None => self.first_region(pager, goal),
        }
    }

    // The region that a search with this goal finds from the first key of all on, with that key.
    fn first_region<S: PageStore>(
        &self,
        pager: &mut Pager<S>,
        goal: &Goal,
    ) -> Result<Option<(Key, Region)>, IndexFault>
        ensures { FindsBehind (Aims goal.now) self.now None pager.old pager.new result }
    {
        match aim(goal, self.last, &ORIGIN) {
            Some(aim) => Ok(Some((ORIGIN, self.region_holding(pager, &aim)?))),
            None => Ok(None),
        }
    }

    // The region that a search with this goal finds behind another one, and where the next region begins. It is looked for on the
    // own leaf of that one first; only where it can't be there the search goes down anew.
    fn region_behind<S: PageStore>(
        &self,
        pager: &mut Pager<S>,
        goal: &Goal,
        region: &Region,
    ) -> Result<Option<(Key, Region)>, IndexFault>
        ensures { FindsBehind (Aims goal.now) self.now (Some region.now) pager.old pager.new
            result }
    {
        let leaf = leaf_of(pager, self.root, self.levels, self.last, &region.first)?;
        match look(pager, self.last, &leaf, &region.first, goal)? {
            Found::Nothing => Ok(None),
            Found::Here(from, place) => Ok(Some((
                from,
                region_at(self.last, place.entry, place.next),
            ))),
            Found::Beyond(from, aim) => Ok(Some((from, self.region_holding(pager, &aim)?))),
        }
    }
}

// The region to which the way down from a root of this level leads.
fn descend<S: PageStore>(
    pager: &mut Pager<S>,
    root: u32,
    levels: u32,
    last: u128,
    key: &Key,
) -> Result<Region, IndexFault>
    requires { 1 ≤ levels }
    ensures given { AreChecked last pager.old
        → IfOk result (Gives (index_view root levels last) pager.old.store key.now) }
    ensures small { IfOk result (λ region. region.first.number < 2 ^ 32) }
    ensures forgotten { IfErr result (IsForgotten pager.new) }
    ensures effect { GoesDown (λ k. k ≡ key.now) (index_view root levels last) pager.old pager.new
        result }
{
    let leaf = leaf_of(pager, root, levels, last, key)?;
    let place = step_down(pager, last, 1, &leaf.place, key)?;
    Ok(region_at(last, place.entry, place.next))
}

/// The leaf to which the way down from a root of this level leads. The pager forgets a page that is refused.
pub fn leaf_of<S: PageStore>(
    pager: &mut Pager<S>,
    root: u32,
    levels: u32,
    last: u128,
    key: &Key,
) -> Result<Leaf, IndexFault>
    requires { 1 ≤ levels }
    ensures holds { IfOk result (HoldsLeaf key.now) }
    ensures leads { IsHonest pager.old.store → AreChecked last pager.old → IfOk result
        (LeadsDown (index_view root levels last) pager.old.store key.now 1) }
    ensures forgotten { IfErr result (IsForgotten pager.new) }
    ensures effect { GoesDown (λ k. k ≡ key.now) (index_view root levels last) pager.old pager.new
        result }
{
    let mut leaf = Leaf {
        place: root_place(root),
        until: None,
    };
    let mut level = levels;
    while level > 1 {
        let place = step_down(pager, last, level, &leaf.place, key)?;
        let until = earlier(&place.next, &leaf.until);
        leaf = Leaf { place, until };
        level -= 1;
    }
    Ok(leaf)
}

// The greatest key before this one, if there is any.
fn before_key(key: &Key) -> Option<Key>
    ensures { result ≡ key_before key.now.z key.now.number }
{
    if key.number > 0 {
        Some(Key {
            z: key.z,
            number: key.number - 1,
        })
    } else if key.z > 0 {
        Some(Key {
            z: key.z - 1,
            number: u32::MAX,
        })
    } else {
        None
    }
}

/// The region of an entry, up to where the next one begins, in a space with this last address.
pub fn region_at(last: u128, entry: Entry, next: Option<Key>) -> Region
    ensures region { result ≡ region_of last entry next }
    ensures small { result.first.number < 2 ^ 32 }
{
    let first = entry.first;
    Region {
        first,
        next,
        from: first.z,
        to: end_at(last, &next),
        page: entry.page,
    }
}

/// The greatest address that a key before this one can have, or else the last of all.
pub fn end_at(last: u128, next: &Option<Key>) -> u128
    ensures { result ≡ end_before last next.now }
{
    match next {
        Some(next) if next.number == 0 => next.z.saturating_sub(1),
        Some(next) => next.z,
        None => last,
    }
}
