// Steps on an index and on the pager of its store, as data. None of them may note a page in the trace.
use crate::index_faults::{Case, calls_right};
use crate::index_held::{Damage, count_told};
use crate::index_keys::{is_list, leads, meets_each};
use crate::index_levels::{Level, Order, drops_each};
use crate::index_opening::begins;
use crate::index_pages::{Listed, Sheet, Tried, page_of, stored};
use crate::index_searches::stock_of;
use std::alloc::Global;
use std::process::Abort;
use ub_index::{Index, IndexFault};
use ub_index_change::{Change, commit, prepare_add, prepare_drop};
use ub_page::{Key, PageFault};
use ub_region::Region;
use ub_store::{PageStore, Pager, StoreFault};

// A step on a store, on an index, or on both.
#[derive(Clone, Copy)]
pub(crate) enum Step {
    // Takes a store of a blank page and of these from page 1 on, whose call of this number fails, behind a pager that holds so many.
    Store(&'static [Sheet], u64, usize),
    // The same of the pages of the index of six regions with so many levels, one to three.
    Six(u32, u64, usize),
    // Takes the index with this root, its level, and this last address. Nothing is read.
    Index(u32, u32, u128),
    // Opens that index, and takes it.
    Open(u32, u32, u128),
    // The same over a new store of the index of six regions with three levels.
    OpenAnew(u32, u32, u128),
    // Makes the index of the region on page 5 on this page, with this last address, and takes it.
    Create(u32, u128),
    // Puts a page in the place of this one.
    Put(u32, Sheet),
    // Takes the region that holds a key: its page.
    Find(u128, u32),
    // Takes this region: its page.
    Take(Region),
    // Whether this is the region that was taken.
    Is(Region),
    // Takes the next region, if there is one: its page, or 0.
    After,
    // The page of the region before, or 0.
    Before,
    // Takes the first region later than another, or the first of all, whose span ends at an address or later, if there is one: its
    // page, or 0.
    Seek(u128, Option<Region>),
    // Prepares that a region comes at a key behind the one that was taken: the root from then on, and its level.
    Add(u128, u32),
    // Prepares that the region that was taken goes: the same.
    Drop,
    // The page of the region that the prepared change adds.
    Added,
    // Grows the store as that needs.
    Grow,
    // Makes the change.
    Commit,
    // Whether the index answers as the first so many of a flat list do.
    List(&'static [Listed], usize),
    // Whether the least keys of so many addresses from one on lead to as many pages from one on: the address, how many, the page.
    Lead(u128, u32, u32),
    // Whether boxes meet those of the six regions of `index_searches` that they meet.
    Meet,
    // How many pages the store has.
    Pages,
    // Whether a page begins with these bytes, and has zeros behind them.
    Begins(u32, &'static [u8; 40]),
}

// What a step answers.
#[derive(Clone, Copy, PartialEq, Eq)]
pub(crate) enum Answer {
    Done,
    Wrong,
    // A page, or a number of pages.
    Told(u32),
    // A root and its level.
    Root(u32, u32),
    // A page is refused.
    Page(u32, PageFault),
    Store(StoreFault),
    Full,
}

pub(crate) const DEVICE: Answer = Answer::Store(StoreFault::Device);

pub(crate) const NO_PAGE: Answer = Answer::Store(StoreFault::NoPage);

// A region that begins with the least key of all, on no page.
const NO_REGION: Region = Region {
    first: Key { z: 0, number: 0 },
    next: None,
    from: 0,
    to: 0,
    page: 0,
};

// An index, the region that was taken last, and the change that was prepared last.
#[derive(Drop)]
struct Held {
    alloc: Global,
    index: Index,
    region: Region,
    change: Option<Change>,
}

// That, and the pager of a store.
#[derive(Drop)]
pub(crate) struct Trial {
    held: Held,
    pager: Option<Tried>,
}

// What is played on a trial of its own.
#[derive(Clone, Copy)]
pub(crate) enum Play {
    // Steps, and what they answer.
    Steps(&'static [(Step, Answer)]),
    // Pages that are damaged.
    Damages(&'static [Damage]),
    // An index of a level, from which regions are dropped in an order.
    Drops(&'static Level, Order),
    // What is made over a store that fails at each of its calls, and at the first after them.
    Calls(&'static Case),
}

// Asserts that all of a play is right, by what it shows.
pub(crate) fn goes(rt: &impl Abort, alloc: Global, shown: &str, play: Play) {
    let (right, all) = right_of(alloc, play);
    assert!(rt; right == all, "{shown}: {right} were right");
}

// How many parts of a play on a trial are right, up to the first wrong one, and how many it has.
fn right_on(trial: &mut Trial, play: Play) -> (u64, u64) {
    match play {
        Play::Steps(steps) => (trial.count_right(steps), steps.len() as u64),
        Play::Damages(damages) => (count_told(trial, damages), damages.len() as u64),
        Play::Drops(level, order) => (u64::from(drops_each(trial, level, order)), 1),
        Play::Calls(case) => (calls_right(trial, case), case.calls.saturating_add(1)),
    }
}

// The same on a new one, with no store yet.
fn right_of(alloc: Global, play: Play) -> (u64, u64) {
    let held = Held {
        alloc,
        index: Index::new(1, 1, 0),
        region: NO_REGION,
        change: None,
    };
    let mut trial = Trial { held, pager: None };
    right_on(&mut trial, play)
}

impl Trial {
    // How many of these steps are answered so, up to the first wrong one.
    pub(crate) fn count_right(&mut self, steps: &[(Step, Answer)]) -> u64 {
        let mut right = 0u64;
        for (step, wanted) in steps {
            if self.answer(step) != *wanted {
                return right;
            }
            right = right.saturating_add(1);
        }
        right
    }

    // What a step answers: that it is wrong also where the trace notes a page then.
    pub(crate) fn answer(&mut self, step: &Step) -> Answer {
        if let Some((pages, due, room)) = stock_of(step) {
            self.pager = stored(self.held.alloc, pages, due, room);
        }
        match &mut self.pager {
            Some(pager) => self.held.answer(pager, step),
            None => Answer::Wrong,
        }
    }
}

impl Held {
    // What a step answers once its store is taken.
    fn answer<S: PageStore>(&mut self, pager: &mut Pager<S>, step: &Step) -> Answer {
        let told = match step {
            Step::Store(_, _, _) | Step::Six(_, _, _) => Answer::Done,
            Step::Index(root, levels, last) => {
                let index = Index::new((*root).max(1), (*levels).clamp(1, 16), *last);
                self.take(Ok(index))
            }
            Step::Open(root, levels, last) | Step::OpenAnew(root, levels, last) => {
                let opened = Index::open(pager, (*root).max(1), (*levels).clamp(1, 16), *last);
                self.take(opened)
            }
            Step::Create(root, last) => {
                match Index::create(pager, (*root).max(1), 5, *last) {
                    Ok(index) => self.take(Ok(index)),
                    Err(fault) => Answer::Store(fault),
                }
            }
            Step::Add(z, number) => self.prepare(pager, Some(&key_of(*z, *number))),
            Step::Drop => self.prepare(pager, None),
            Step::Added | Step::Grow | Step::Commit => self.make(pager, step),
            Step::Put(number, sheet) => ended(pager.put(*number, &page_of(sheet))),
            _ => self.search(pager, step),
        };
        if pager.trace().is_empty() {
            told
        } else {
            Answer::Wrong
        }
    }

    // Takes an index.
    fn take(&mut self, made: Result<Index, IndexFault>) -> Answer {
        match made {
            Ok(index) => {
                self.index = index;
                Answer::Done
            }
            Err(fault) => refused(fault),
        }
    }

    // Takes the region that a search gives.
    fn found(&mut self, found: Result<Option<Region>, IndexFault>) -> Answer {
        if let Ok(Some(region)) = found {
            self.region = region;
        }
        told(found)
    }

    // What a step that changes neither the index nor its pages answers.
    fn search<S: PageStore>(&mut self, pager: &mut Pager<S>, step: &Step) -> Answer {
        let index = &self.index;
        match step {
            Step::Take(region) => self.found(Ok(Some(*region))),
            Step::Is(region) => whether(self.region == *region),
            Step::Find(z, number) => {
                match index.region_holding(pager, &key_of(*z, *number)) {
                    Ok(region) => self.found(Ok(Some(region))),
                    Err(fault) => refused(fault),
                }
            }
            Step::After => {
                let found = index.after(pager, &self.region);
                self.found(found)
            }
            Step::Seek(z, after) => {
                let found = index.seek(pager, *z, after.as_ref());
                self.found(found)
            }
            Step::Before => told(index.before(pager, &self.region)),
            Step::List(flat, count) => {
                whether(is_list(index, pager, &flat[..flat.len().min(*count)]))
            }
            Step::Lead(z, count, page) => whether(leads(index, pager, *z, *count, *page)),
            Step::Meet => whether(meets_each(index, pager)),
            Step::Pages => Answer::Told(pager.pages()),
            Step::Begins(number, bytes) => begins(pager, *number, bytes),
            _ => Answer::Wrong,
        }
    }

    // Takes the change that a region comes at a key behind the one that was taken, or where there is no key that this one goes.
    fn prepare<S: PageStore>(&mut self, pager: &mut Pager<S>, key: Option<&Key>) -> Answer {
        let prepared = match key {
            Some(key) => prepare_add(&self.index, self.alloc, pager, &self.region, key),
            None => prepare_drop(&self.index, self.alloc, pager, &self.region),
        };
        match prepared {
            Ok(change) => {
                let (root, level) = change.root();
                self.change = Some(change);
                Answer::Root(root, level)
            }
            Err(fault) => refused(fault),
        }
    }

    // Tells the page of the region that the prepared change adds, grows the store as that needs, or makes the change.
    fn make<S: PageStore>(&mut self, pager: &mut Pager<S>, step: &Step) -> Answer {
        match &self.change {
            Some(change) => match step {
                Step::Added => Answer::Told(change.page()),
                Step::Grow => ended(change.grow(pager)),
                _ => ended(commit(&mut self.index, pager, change)),
            },
            None => Answer::Wrong,
        }
    }
}

// The key of an address and a number.
fn key_of(z: u128, number: u32) -> Key {
    Key { z, number }
}

// Done where that is so.
pub(crate) fn whether(is_so: bool) -> Answer {
    if is_so { Answer::Done } else { Answer::Wrong }
}

// The page of the region that a search gives, or 0.
fn told(found: Result<Option<Region>, IndexFault>) -> Answer {
    match found {
        Ok(Some(region)) => Answer::Told(region.page),
        Ok(None) => Answer::Told(0),
        Err(fault) => refused(fault),
    }
}

// What a call of the store answers.
fn ended(end: Result<(), StoreFault>) -> Answer {
    match end {
        Ok(()) => Answer::Done,
        Err(fault) => Answer::Store(fault),
    }
}

// The answer that an index's fault is.
fn refused(fault: IndexFault) -> Answer {
    match fault {
        IndexFault::Page { page, fault } => Answer::Page(page, fault),
        IndexFault::Store(fault) => Answer::Store(fault),
        IndexFault::Full => Answer::Full,
    }
}
