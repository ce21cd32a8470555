// What stands on a disk, in a few bits: what a journal makes of it, and what it stands for.

use crate::pages::{MARKED, MISMARKED, NEW, OLD, ZEROS};

/// No draft, or no journal.
pub const NONE: u32 = 0;
/// The whole journal.
pub const WHOLE: u32 = 1;
/// Something else.
pub const TORN: u32 = 2;

/// A change of a table: how many pages it has, and whether bytes stand after them, how many it is to have, and which of the others than
/// the first change: a bit for each.
#[derive(Clone, Copy)]
pub struct Case {
    pub old: u32,
    pub rest: bool,
    pub count: u32,
    pub changed: u32,
}

/// What stands there: the kinds of the table's pages, how many there are, whether bytes stand after them, what the draft is, and what
/// the journal. Pages that there aren't are zeros.
#[derive(Clone, Copy, PartialEq, Eq)]
pub struct Disk {
    // Three bits for each of four pages and for their number, one for the bytes after them, two each for draft and journal.
    pub bits: u32,
}

impl Case {
    /// Whether the page of this number changes.
    pub(crate) fn changes(&self, n: u32) -> bool {
        n < 4 && (self.changed >> n) & 1 == 1
    }

    /// Whether each page of the new table is one of the old one, or changes, and no other changes.
    pub(crate) fn can_be(&self) -> bool {
        let mut can = true;
        for n in 1..4 {
            can &= if n < self.count {
                self.changes(n) || n < self.old
            } else {
                !self.changes(n)
            };
        }
        can
    }

    /// The table of before, with nothing beside it.
    pub(crate) fn before(&self) -> Disk {
        Disk { bits: 0 }.sized(self.old, OLD).with_rest(self.rest)
    }

    /// The table that is to be, with nothing beside it.
    pub(crate) fn after(&self) -> Disk {
        self.before().applied(self)
    }
}

impl Disk {
    /// The kind of the page of this number.
    pub(crate) fn at(&self, n: u32) -> u32 {
        match n {
            0 => self.bits & 7,
            1 => (self.bits >> 3) & 7,
            2 => (self.bits >> 6) & 7,
            3 => (self.bits >> 9) & 7,
            _ => ZEROS,
        }
    }

    /// How many pages there are.
    pub(crate) fn count(&self) -> u32 {
        (self.bits >> 12) & 7
    }

    /// Whether bytes stand after them.
    pub(crate) fn rest(&self) -> bool {
        (self.bits >> 15) & 1 == 1
    }

    /// What the draft is.
    pub(crate) fn draft(&self) -> u32 {
        (self.bits >> 16) & 3
    }

    /// What the journal is.
    pub(crate) fn journal(&self) -> u32 {
        (self.bits >> 18) & 3
    }

    /// With a page of this kind there.
    pub(crate) fn with(self, n: u32, kind: u32) -> Disk {
        let kind = kind & 7;
        let bits = match n {
            0 => (self.bits & 0xffff_fff8) | kind,
            1 => (self.bits & 0xffff_ffc7) | (kind << 3),
            2 => (self.bits & 0xffff_fe3f) | (kind << 6),
            3 => (self.bits & 0xffff_f1ff) | (kind << 9),
            _ => self.bits,
        };
        Disk { bits }
    }

    /// With bytes after the pages, or none.
    pub(crate) fn with_rest(self, rest: bool) -> Disk {
        Disk {
            bits: (self.bits & 0xffff_7fff) | (u32::from(rest) << 15),
        }
    }

    /// With this draft.
    pub(crate) fn with_draft(self, draft: u32) -> Disk {
        Disk {
            bits: (self.bits & 0xfffc_ffff) | ((draft & 3) << 16),
        }
    }

    /// With this journal.
    pub(crate) fn with_journal(self, journal: u32) -> Disk {
        Disk {
            bits: (self.bits & 0xfff3_ffff) | ((journal & 3) << 18),
        }
    }

    /// With so many pages, and no byte after them: new ones are of this kind.
    pub(crate) fn sized(self, count: u32, kind: u32) -> Disk {
        let mut disk = self;
        for n in 0..4 {
            if n >= count {
                disk = disk.with(n, ZEROS);
            } else if n >= self.count() {
                disk = disk.with(n, kind);
            }
        }
        Disk {
            bits: (disk.bits & 0xffff_0fff) | ((count & 7) << 12),
        }
    }

    /// The table with nothing beside it.
    pub(crate) fn alone(self) -> Disk {
        self.with_draft(NONE).with_journal(NONE)
    }

    /// Whether there is a first page, and it is that of before but for its mark.
    pub(crate) fn has_front(&self) -> bool {
        let first = self.at(0);
        self.count() > 0 && (first == OLD || first == MARKED || first == MISMARKED)
    }

    // Whether all pages but the first are the new ones, with no byte after them.
    fn has_back(&self, case: &Case) -> bool {
        self.with(0, NEW).alone() == case.after()
    }

    // The table that the journal makes of this one, with nothing beside it.
    fn applied(&self, case: &Case) -> Disk {
        let mut disk = self.sized(case.count, ZEROS);
        for n in 1..case.count {
            if case.changes(n) {
                disk = disk.with(n, NEW);
            }
        }
        disk.with(0, NEW).alone()
    }

    // Whether the journal is of this table.
    fn fits(&self, case: &Case) -> bool {
        let mut whole = self.count() > 0;
        for n in 1..case.count {
            whole &= case.changes(n) || n < self.count();
        }
        whole && (self.has_front() || self.has_back(case))
    }

    // The table that this stands for, unless it stands for none.
    fn stands(&self, case: &Case) -> Option<Disk> {
        if self.journal() == NONE {
            return Some(self.alone());
        }
        if self.journal() == WHOLE && self.fits(case) {
            Some(self.applied(case))
        } else {
            None
        }
    }

    /// Whether this stands for the new table, or where it may, for the old one.
    pub(crate) fn is_well(&self, case: &Case, may_be_old: bool) -> bool {
        match self.stands(case) {
            Some(table) => table == case.after() || (may_be_old && table == case.before()),
            None => false,
        }
    }

    /// Whether the file alone is that of before but for its mark, or refused, or all its pages but the first are new.
    pub(crate) fn is_well_alone(&self, case: &Case) -> bool {
        let is_old = self.has_front() && self.with(0, OLD).alone() == case.before();
        is_old || (self.count() > 0 && self.at(0) == MARKED) || self.has_back(case)
    }
}
