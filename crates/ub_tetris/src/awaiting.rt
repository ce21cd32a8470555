ghost use Rattle.std.specs.Prelude.{◌≡◌, ◌≤◌, ◌∷◌, [], OnErr, OnOk};
ghost use Rattle.std.specs.List.Sorted.{IsPermutation};
ghost use Rattle.ub_tetris.specs.inner.Events.{HasQueued, IsValueOfFirst, TakesNext, ahead_on, seen};

use crate::course::Course;
use crate::event::Awaited;
use std::alloc::{AllocError, Global};
use std::collections::BinaryHeap;
use std::marker::Model;
use ub_bigmin::ZBox;
use ub_tree::{Stretch, StretchSink};

/// The stretches to which a sweep is to come, of which the first is found at once: by event value along the sweep, and where
/// these are equal, by first key.
#[derive(Drop)]
pub struct Awaiting {
    course: Course,
    heap: BinaryHeap<Awaited>,
}

impl Model for Awaiting {
    ghost use Rattle.std.specs.BinaryHeap.{heap_items};
    ghost use Rattle.ub_tetris.specs.inner.Events.{Ahead, AreHeaped, ahead_on, awaited_of};

    ghost Value = { Ahead };

    ghost view = { λ a. ahead_on a.course (awaited_of (heap_items a.heap)) };

    ghost invariant = { λ a. AreHeaped a.course (heap_items a.heap) };
}

impl Awaiting {
    /// None are awaited. Takes no memory.
    pub fn new(alloc: Global, course: Course) -> Awaiting
        ensures { result ≡ ahead_on course [] }
    {
        Awaiting {
            course,
            heap: BinaryHeap::new(alloc),
        }
    }

    /// Where the sweep goes.
    pub fn course(&self) -> Course
        ensures { self.now ≡ ahead_on result self.now.stretches }
    {
        self.course
    }

    /// The event value of the first of those awaited, if there is one.
    pub fn first_value(&self) -> Option<u32>
        ensures { IsValueOfFirst self.now result }
    {
        let first = self.heap.peek()?;
        Some(first.value)
    }

    /// Takes the first of those awaited, if there is one.
    pub fn take_first(&mut self) -> Option<Awaited>
        ensures { TakesNext self.old self.new result }
    {
        let next = self.heap.pop()?;
        Some(next)
    }

    /// Awaits one more. Refused memory leaves those awaited as they were.
    pub fn put(&mut self, awaited: Awaited) -> Result<(), AllocError>
        requires { awaited.is_descending ≡ self.old.is_descending }
        ensures ok { OnOk result (IsPermutation (seen awaited ∷ self.old.stretches)
            self.new.stretches) }
        ensures course { self.new ≡ record self.old { stretches = self.new.stretches } }
        ensures err { OnErr result (self.new ≡ self.old) }
    {
        self.heap.push(awaited)?;
        Ok(())
    }
}

/// The sink of a stretch that is opened: its parts are awaited, each with its event value.
impl StretchSink for Awaiting {
    ghost Takes = { λ boxes start taken now. HasQueued boxes start taken now };

    fn push(&mut self, boxes: &[ZBox], part: &Stretch) -> Result<(), AllocError> {
        let course = self.course();
        self.put(Awaited::new(boxes, *part, course))?;
        Ok(())
    }
}
