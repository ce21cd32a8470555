ghost use Rattle.std.specs.Prelude.{◌≡◌, ◌<◌, ◌≤◌, ◌+◌, ◌↔◌, ◌∷◌, [], max, None, false, IfSome, IfNone, IfOk, OnOk, OnErr, IsTrue, length};
ghost use Rattle.std.specs.List.{list_any};
ghost use Rattle.std.specs.Option.{is_some, option_copied};
ghost use Rattle.ub_journal.specs.Image.{IsUntouched};
ghost use Rattle.ub_overlay.specs.Changes.{change, changed_page, changes_of, held_from, put_change, put_each};

use std::alloc::{AllocError, Global};
use std::marker::Model;
use ub_journal::Journal;
use ub_store::Page;

/// The pages that were changed, by their numbers. Each stands in a box of its own.
///
/// A change is looked for at each page that is read and written, in no order: so there is a slot for each number up to the greatest
/// that was changed.
#[derive(Drop)]
pub struct Changes {
    alloc: Global,
    slots: Vec<Option<Box<Page>>>,
}

impl Model for Changes {
    ghost use Rattle.std.specs.Prelude.{◌≤◌, ◌^◌, List, length};
    ghost use Rattle.ub_journal.specs.declared.journal.Change.{Change as Declared};
    ghost use Rattle.ub_overlay.specs.Changes.{held_from};

    ghost Value = { List Declared };

    ghost view = { λ c. held_from 0 c.slots.items };

    ghost invariant = { λ c. length c.slots.items ≤ 2 ^ 32 };
}

impl Changes {
    /// No changes. They take no memory.
    pub fn new(alloc: Global) -> Changes
        ensures { result ≡ [] }
    {
        Changes {
            alloc,
            slots: Vec::new(alloc),
        }
    }

    /// Whether there are none.
    pub fn is_empty(&self) -> bool
        ensures { IsTrue result ↔ (self.now ≡ []) }
    {
        !is_any_held(self.slots.as_slice())
    }

    /// The page of this number, if it was changed.
    pub fn get(&self, n: u32) -> Option<&Page>
        ensures { option_copied result ≡ changed_page self.now n }
    {
        match self.slots.get(n as usize)? {
            Some(page) => Some(page),
            None => None,
        }
    }

    /// Puts a page at this number. Memory may be refused for one that isn't held yet; nothing changes then.
    pub fn put(&mut self, n: u32, page: &Page) -> Result<(), AllocError>
        ensures put { OnOk result (self.new ≡ put_change (change n page.now) self.old) }
        ensures refused { OnErr result (self.new ≡ self.old) }
        ensures needed { OnErr result (changed_page self.old n ≡ None) }
    {
        if self.write(n, page) {
            return Ok(());
        }
        let at = n as usize;
        reach(&mut self.slots, at)?;
        // By `?` the page that was refused would be handed on, and copied for it.
        let Ok(page) = Box::new(self.alloc, *page) else {
            return Err(AllocError);
        };
        self.slots[at] = Some(page);
        Ok(())
    }

    // Writes over the page of this number, where it is held, and tells whether it is.
    fn write(&mut self, n: u32, page: &Page) -> bool
        ensures held { result ≡ is_some (changed_page self.old n) }
        ensures written { IsTrue result → self.new ≡ put_change (change n page.now) self.old }
        ensures kept { result ≡ false → self.new ≡ self.old }
    {
        let at = n as usize;
        if at >= self.slots.len() {
            return false;
        }
        match &mut self.slots[at] {
            Some(held) => {
                **held = *page;
                true
            }
            None => false,
        }
    }

    /// Puts the pages of a journal, the first one last. Where memory is refused some of them were put.
    pub fn put_journal(&mut self, journal: &Journal) -> Result<(), AllocError>
        ensures { OnOk result (self.new
            ≡ put_change (change 0 journal.now.head)
            (put_each journal.now.changes.items self.old)) }
    {
        for change in journal.changes.as_slice() {
            self.put(change.number, &change.page)?;
        }
        self.put(0, &journal.head)
    }

    /// Takes out the page of number 0, if it was changed.
    pub fn take_first(&mut self) -> Option<Box<Page>>
        ensures taken { IfSome result (λ page. self.old ≡ change 0 page.value ∷ self.new) }
        ensures none { IfNone result ((self.new ≡ self.old) × IsUntouched self.old 0) }
    {
        if self.slots.is_empty() {
            return None;
        }
        self.slots[0].take()
    }

    /// The changes as a list, in ascending order of their numbers. Each page stays in its box.
    pub fn into_list(self) -> Result<Vec<(u32, Box<Page>)>, AllocError>
        ensures { IfOk result (λ list. changes_of list.items ≡ self) }
    {
        let mut list = Vec::new(self.alloc);
        let mut number = 0usize;
        for slot in self.slots {
            if let Some(page) = slot {
                list.push((number as u32, page))?;
            }
            number += 1;
        }
        Ok(list)
    }
}

// Whether a page stands in one of the slots.
fn is_any_held(slots: &[Option<Box<Page>>]) -> bool
    ensures { result ≡ list_any is_some slots.now }
{
    slots.iter().any(|slot| slot.is_some())
}

// Has a slot at this place, and those before it. Memory may be refused; what is held is the same in any case.
fn reach(slots: &mut Vec<Option<Box<Page>>>, at: usize) -> Result<(), AllocError>
    ensures there { OnOk result (at < length slots.new.items) }
    ensures few { length slots.new.items ≤ max (length slots.old.items) (at + 1) }
    ensures held { held_from 0 slots.new.items ≡ held_from 0 slots.old.items }
{
    while slots.len() <= at {
        slots.push(None)?;
    }
    Ok(())
}
