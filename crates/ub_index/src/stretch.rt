// Stretches of an index: what an entry of any level names, and the parts of one that meet some boxes.
ghost use Rattle.std.specs.Prelude.{◌≡◌, ◌<◌, ◌≤◌, ◌∷◌, [], List, OnOk, Some, slice_get};
ghost use Rattle.ub_bigmin.specs.Box.{Corners};
ghost use Rattle.ub_index.specs.Spans.{Meets};
ghost use Rattle.ub_index.specs.Sinks.{Began, TakesThese};
ghost use Rattle.ub_index.specs.Stretches.{FitsStretch, IsNextMeeting, OpensStretch, TakesParts, parts_on, whole_stretch};
ghost use Rattle.ub_index.specs.declared.stretch.Stretch.{Stretch};
ghost use Rattle.ub_page.specs.Index.{head_on};

use crate::descent::{Place, bring_fitting, first_after, root_place};
use crate::fault::IndexFault;
use crate::index::{Index, end_at, region_at};
use std::alloc::AllocError;
use ub_bigmin::{ZBox, next_in_any};
use ub_page::{Entry, Page, entry_at, slot_in};
use ub_region::Region;
use ub_store::{PageStore, Pager};
use ub_table::Key;

/// What an entry of any level of an index names: the keys from its first one to where the next entry of its level begins. At
/// level 0 it is a region.
#[derive(Clone, Copy, PartialEq, Eq, Debug)]
pub struct Stretch {
    /// Its first key, where the next one begins, and the addresses that its rows can have; and its page, which is that of the
    /// region at level 0, and else one of the index.
    pub span: Region,
    /// The level of its page: 0 for a region, and 1 to 16 in the index.
    pub level: u32,
}

/// What is handed the parts of a stretch that meet some boxes, one after the other, and makes something of them.
///
/// A proof sees which stretches it has taken between two of its states: `Takes`.
pub trait StretchSink {
    ghost Takes: { List Corners → Self → List Stretch → Self → Type 0 };

    /// Takes one more part that meets the boxes. After a refusal the sink is used no more.
    fn push(&mut self, boxes: &[ZBox], part: &Stretch) -> Result<(), AllocError>
        requires meets { Meets boxes.now part.now.span }
        requires began { Began (Takes boxes.now) self.old }
        ensures { OnOk result (TakesThese (Takes boxes.now) self.old self.new (part.now ∷ [])) };
}

impl Index {
    /// The whole index, as one stretch: that of its root.
    pub fn whole(&self) -> Stretch
        ensures { result ≡ whole_stretch self.now }
    {
        let (root, level) = self.root();
        let place = root_place(root);
        Stretch {
            span: region_at(self.last(), place.entry, place.next),
            level,
        }
    }

    /// Hands the parts of a stretch of level 1 or more that meet one of the boxes to a sink, one after the other, in the order of
    /// their first keys: those that the page tells which the stretch names, at most 170. That page is read, if it isn't held, and
    /// no other; it is checked in full, held or not.
    ///
    /// Page comes where that page is refused: by its reader; as BadCount where it isn't of the stretch's level; as OutOfRegion
    /// where it doesn't begin with the stretch's first key, or doesn't end before the next one. Store with NoPage comes where
    /// there is no such page, with Device where the store failed in this call, with Memory where memory was refused, here or by
    /// the sink. Index and store are then as they were, and the pager has forgotten the page that is refused.
    pub fn open_stretch<S: PageStore, T: StretchSink>(
        &self,
        pager: &mut Pager<S>,
        stretch: &Stretch,
        boxes: &[ZBox],
        sink: &mut T,
    ) -> Result<(), IndexFault>
        requires some { 1 ≤ stretch.now.level }
        requires began { Began (T.Takes boxes.now) sink.old }
        ensures { OpensStretch (T.Takes boxes.now) self.now boxes.now stretch.now sink.old sink.new
            pager.old pager.new result }
    {
        let last = self.last();
        let page = stretch.span.page;
        let place = Place {
            entry: Entry {
                first: stretch.span.first,
                page,
            },
            next: stretch.span.next,
        };
        let head = bring_fitting(pager, last, stretch.level, &place)?;
        hand_parts(pager.cached(page), head.count, last, stretch, boxes, sink)?;
        Ok(())
    }
}

// Hands over the parts of a stretch that meet the boxes, of those that its page tells, which has so many entries. It goes along
// the page from one that meets them to the next one.
fn hand_parts<T: StretchSink>(
    page: &Page,
    count: usize,
    last: u128,
    stretch: &Stretch,
    boxes: &[ZBox],
    sink: &mut T,
) -> Result<(), AllocError>
    requires count { count ≡ (head_on page.now).count }
    requires some { 1 ≤ stretch.now.level }
    requires fits { FitsStretch last page.now stretch.now }
    requires began { Began (T.Takes boxes.now) sink.old }
    ensures { OnOk result
        (TakesParts (T.Takes boxes.now) boxes.now last stretch.now page.now sink.old sink.new) }
{
    let mut behind = 0;
    while let Some(slot) = meeting_slot(page, count, last, stretch, boxes, behind) {
        sink.push(boxes, &part_at(page, count, last, stretch, slot))?;
        behind = slot + 1;
    }
    Ok(())
}

// The slot of the first part, from a slot on, that meets the boxes, if there is one. The next address in the boxes lies in the part
// of this slot, or in a later one, which is found by halving, or behind the stretch.
fn meeting_slot(
    page: &Page,
    count: usize,
    last: u128,
    stretch: &Stretch,
    boxes: &[ZBox],
    from: usize,
) -> Option<usize>
    requires count { count ≡ (head_on page.now).count }
    requires some { 1 ≤ stretch.now.level }
    requires fits { FitsStretch last page.now stretch.now }
    ensures { IsNextMeeting boxes.now (parts_on last stretch.now page.now) from result }
{
    if from >= count {
        return None;
    }
    let part = part_at(page, count, last, stretch, from);
    let Some(z) = next_in_any(boxes, part.span.from) else {
        return None;
    };
    if z <= part.span.to {
        Some(from)
    } else if z <= end_at(last, &stretch.span.next) {
        Some(slot_in(page, count, &Key { z, number: 0 }))
    } else {
        None
    }
}

// The part of a stretch that the entry in a slot of its page tells.
fn part_at(page: &Page, count: usize, last: u128, stretch: &Stretch, slot: usize) -> Stretch
    requires count { count ≡ (head_on page.now).count }
    requires some { 1 ≤ stretch.now.level }
    requires fits { FitsStretch last page.now stretch.now }
    requires within { slot < count }
    ensures { slice_get (parts_on last stretch.now page.now) slot ≡ Some result }
{
    let entry = entry_at(page, slot);
    let next = first_after(page, count, slot, stretch.span.next);
    Stretch {
        span: region_at(last, entry, next),
        level: stretch.level - 1,
    }
}
