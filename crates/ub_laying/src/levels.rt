// The levels of an index above its lowest one.
ghost use Rattle.std.specs.Prelude.{◌≤◌, IfOk};
ghost use Rattle.ub_page.specs.declared.header.TheConstants.{MAX_LEVEL};
ghost use Rattle.ub_store.specs.Facts.{IsHonest};
ghost use Rattle.ub_laying.specs.Effects.{Adds};
ghost use Rattle.ub_laying.specs.Levels.{Cut, IsLast, IsRaised, PutsLevel, PutsRoot, names_of, pages_above, pages_for, most_pages};

use crate::adding::add_names;
use ub_page::MAX_ENTRIES;
use ub_store::{PageStore, Pager, StoreFault};

/// A level of an index: the number of its first page, and how many pages it has. Their numbers follow each other, and they are the
/// last ones of the store.
#[derive(Clone, Copy)]
pub struct Level {
    /// The first of its pages.
    pub first: u32,
    /// How many pages it has.
    pub count: u32,
}

/// The root of an index: its page, and its level.
#[derive(Clone, Copy, PartialEq, Eq, Debug)]
pub struct Root {
    /// The page, which isn't the first one.
    pub page: u32,
    /// The level: 1 to 16.
    pub level: u32,
}

// Puts the level above one, behind all pages: a page for each 170 of that one.
fn write_level<S: PageStore>(
    pager: &mut Pager<S>,
    low: Level,
    level: u32,
) -> Result<Level, StoreFault>
    requires high { level ≤ MAX_LEVEL }
    requires last { IsLast pager.old.store low }
    ensures level { PutsLevel (pages_for low.count) pager.old.store pager.new.store result }
    ensures cut { IsHonest pager.old.store
        → IfOk result (λ up. Cut pager.new.store.pages level up.first up.count
        (names_of pager.old.store.pages low.first low.count)) }
    ensures effect { Adds (pages_for low.count) pager.old pager.new result }
{
    let first = pager.pages();
    let mut named = 0;
    while named < low.count {
        let count = (low.count - named).min(MAX_ENTRIES as u32);
        add_names(pager, low.first + named, count as usize, level)?;
        named += count;
    }
    Ok(Level {
        first,
        count: pager.pages() - first,
    })
}

/// Puts all levels above the lowest one, up to the one that has one page alone.
pub fn write_levels<S: PageStore>(pager: &mut Pager<S>, leaves: Level) -> Result<Root, StoreFault>
    requires last { IsLast pager.old.store leaves }
    requires some { 1 ≤ leaves.count }
    requires few { leaves.count ≤ most_pages 1 }
    requires first { 1 ≤ leaves.first }
    ensures rooted { PutsRoot (pages_above 4 leaves.count) pager.old.store pager.new.store
        result }
    ensures raised { IsHonest pager.old.store
        → IfOk result (IsRaised pager.old.store.pages pager.new.store.pages leaves) }
    ensures effect { Adds (pages_above 4 leaves.count) pager.old pager.new result }
{
    let mut low = leaves;
    let mut level = 1;
    while low.count > 1 {
        low = write_level(pager, low, level + 1)?;
        level += 1;
    }
    Ok(Root {
        page: low.first,
        level,
    })
}
