// The next regions of an index that meet some boxes: those that follow one another on a leaf.
ghost use Rattle.std.specs.Prelude.{◌≡◌, ◌<◌, ◌≤◌, ◌∷◌, [], List, option_copied, IfOk, OnOk};
ghost use Rattle.ub_bigmin.specs.Box.{Corners};
ghost use Rattle.ub_index.specs.Along.{ComesToLeaf, HandsAlong, HandsLeaf, IsSlotNext, Meeting};
ghost use Rattle.ub_index.specs.Fitting.{FitsAtEnds};
ghost use Rattle.ub_index.specs.Held.{AreChecked};
ghost use Rattle.ub_index.specs.Sinks.{Began, TakesThese};
ghost use Rattle.ub_index.specs.Spans.{Meets};
ghost use Rattle.ub_index.specs.View.{index_view};
ghost use Rattle.ub_index.specs.Walking.{HandsNext, IsGivenAny, begins_at};
ghost use Rattle.ub_page.specs.Index.{head_on};
ghost use Rattle.ub_region.specs.declared.region.Region.{Region};

use crate::descent::{Leaf, aim, bring_next, ends_before, place_in, slot_behind};
use crate::fault::IndexFault;
use crate::goal::Goal;
use crate::index::{Index, leaf_of, region_at};
use std::alloc::AllocError;
use std::collections::VecDeque;
use ub_bigmin::ZBox;
use ub_page::{MAX_ENTRIES, Page, first_at};
use ub_region::{ORIGIN, Region};
use ub_store::{PageStore, Pager};
use ub_table::{Key, PageFault};

// So many regions at most are handed over at a time. The caller reads all of them before it asks for the next ones: while it reads
// no more than these, the pages of the way down stay among the 64 that the pager holds, and needn't be read again.
const MOST_AHEAD: usize = 32;

/// What is handed the regions that meet some boxes, one after the other, and makes something of them.
///
/// A proof sees which regions it has taken between two of its states: `Takes`.
pub trait RegionSink {
    ghost Takes: { List Corners → Self → List Region → Self → Type 0 };

    /// Takes one more region that meets the boxes. After a refusal the sink is used no more.
    fn push(&mut self, boxes: &[ZBox], region: &Region) -> Result<(), AllocError>
        requires meets { Meets boxes.now region.now }
        requires began { Began (Takes boxes.now) self.old }
        ensures { OnOk result (TakesThese (Takes boxes.now) self.old self.new
            (region.now ∷ [])) };
}

/// Takes the regions themselves, behind those that stand there. Memory is refused where there is none for one more.
impl RegionSink for VecDeque<Region> {
    ghost use Rattle.std.specs.Prelude.{◌≡◌, ◌++◌};

    ghost Takes = { λ boxes start taken now. now.items ≡ start.items ++ taken };

    fn push(&mut self, _boxes: &[ZBox], region: &Region) -> Result<(), AllocError> {
        self.push_back(*region)?;
        Ok(())
    }
}

impl Index {
    /// Hands the next regions later than `after`, if one is given, that meet one of the boxes to a sink, in the order of their first
    /// keys: those that one leaf names, at most 32 of them at a time, just as `next_meeting` gives them, asked after each. None only
    /// where `next_meeting` gives none. `after` is a region that was given, so that the search begins where it ends.
    ///
    /// Refused as `next_meeting` is; Store with Memory comes also where memory was refused by the sink.
    pub fn hand_next<S: PageStore, T: RegionSink>(
        &self,
        pager: &mut Pager<S>,
        boxes: &[ZBox],
        after: Option<&Region>,
        sink: &mut T,
    ) -> Result<(), IndexFault>
        requires given { AreChecked self.now.last pager.old
            → IsGivenAny self.now pager.old.store (option_copied after) }
        requires began { Began (T.Takes boxes.now) sink.old }
        ensures { HandsNext (T.Takes boxes.now) self.now boxes.now (option_copied after.entry)
            sink.old sink.new pager.old pager.new result }
    {
        let last = self.last();
        let (root, levels) = self.root();
        let Some(from) = start_after(after) else {
            return Ok(());
        };
        let on = hand_leaf(pager, root, levels, last, boxes, &from, sink)?;
        if ends_before(&from, &on) {
            return Ok(());
        }
        pager.forget(root);
        Err(IndexFault::Page {
            page: root,
            fault: PageFault::OutOfRegion,
        })
    }
}

// Where the first region later than another one begins, if there is one: where that one ends; the first of all begins with the first
// key.
fn start_after(after: Option<&Region>) -> Option<Key>
    ensures { result ≡ begins_at (option_copied after.entry) }
{
    match after {
        Some(region) => region.next,
        None => Some(ORIGIN),
    }
}

// Hands over the regions from a key on that meet the boxes, of the leaf to which the search goes down from a root of this level. It
// goes on from a later key then, if it does, unless what that leaf gives begins before the key.
fn hand_leaf<S: PageStore, T: RegionSink>(
    pager: &mut Pager<S>,
    root: u32,
    levels: u32,
    last: u128,
    boxes: &[ZBox],
    from: &Key,
    sink: &mut T,
) -> Result<Option<Key>, IndexFault>
    requires low { 1 ≤ levels }
    requires began { Began (T.Takes boxes.now) sink.old }
    ensures { HandsLeaf (T.Takes boxes.now) (index_view root levels last) (Meeting boxes.now)
        from.now sink.old sink.new pager.old pager.new result }
{
    let Some(key) = aim(&Goal::Boxes(boxes), last, from) else {
        return Ok(None);
    };
    let leaf = leaf_of(pager, root, levels, last, &key)?;
    let head = bring_next(pager, last, 1, &leaf.place)?;
    let page = pager.cached(leaf.place.entry.page);
    let on = hand_along(page, head.count, last, &leaf, boxes, from, sink)?;
    Ok(on)
}

// Hands over the regions of a leaf's page that meet the boxes and follow one another from a key on, at most 32 of them at a time.
// Answers where the last of them ends, or else that key.
fn hand_along<T: RegionSink>(
    page: &Page,
    count: usize,
    last: u128,
    leaf: &Leaf,
    boxes: &[ZBox],
    from: &Key,
    sink: &mut T,
) -> Result<Option<Key>, AllocError>
    requires count { count ≡ (head_on page.now).count }
    requires ends { FitsAtEnds page.now 1 leaf.now.place.entry leaf.now.place.next }
    requires comes { ComesToLeaf last (Meeting boxes.now) from.now leaf.now }
    requires began { Began (T.Takes boxes.now) sink.old }
    ensures { IfOk result (HandsAlong (T.Takes boxes.now) last (Meeting boxes.now) leaf.now
        page.now count from.now sink.old sink.new) }
{
    let mut on = *from;
    let mut behind = 0;
    for _ in 0..MOST_AHEAD {
        let Some(slot) = next_slot(page, count, last, leaf, boxes, behind, &on) else {
            break;
        };
        let place = place_in(page, count, slot, leaf.place.next);
        let region = region_at(last, place.entry, place.next);
        sink.push(boxes, &region)?;
        let Some(next) = region.next else {
            return Ok(None);
        };
        on = next;
        behind = slot;
    }
    Ok(Some(on))
}

// The slot of a leaf's page in which the next region from a key on stands that meets the boxes, mostly the one behind this slot. None
// where the search goes down elsewhere, or falls to what begins before the key.
fn next_slot(
    page: &Page,
    count: usize,
    last: u128,
    leaf: &Leaf,
    boxes: &[ZBox],
    behind: usize,
    from: &Key,
) -> Option<usize>
    requires within { behind < count }
    requires few { count ≤ MAX_ENTRIES }
    ensures { IsSlotNext last (Meeting boxes.now) leaf.now page.now count from.now result }
{
    let Some(key) = aim(&Goal::Boxes(boxes), last, from) else {
        return None;
    };
    if !ends_before(&key, &leaf.until) {
        return None;
    }
    let slot = slot_behind(page, count, behind, &key);
    if first_at(page, slot).is_before(from) {
        None
    } else {
        Some(slot)
    }
}
