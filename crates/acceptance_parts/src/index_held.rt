// Pages that are damaged under the pager that holds them, as no change of an index leaves them: while they are held their ends
// alone are looked at, and once they are read anew all of them is. And how often a search reads.
use crate::index_pages::Sheet;
use crate::index_trial::{Answer, DEVICE, NO_PAGE, Play, Step, Trial, goes};
use ub_page::{Key, PageFault};
use ub_region::Region;

// Leaves whose keys don't ascend: from the second key on, and from the first one, a search goes back.
const ON_ONE: Sheet = Sheet::Index(1, &[(20, 0, 103), (25, 0, 104), (22, 0, 106), (31, 1, 105)]);

const ON_TWO: Sheet = Sheet::Index(1, &[(9, 2, 102), (5, 0, 106), (15, 0, 107)]);

// The region of the index of three levels that begins at (20, 0).
const AFTER: Region = Region {
    first: Key { z: 20, number: 0 },
    next: Some(Key { z: 20, number: 5 }),
    from: 20,
    to: 20,
    page: 103,
};

// The last region of the first leaf.
const LAST: Region = Region {
    first: Key { z: 4, number: 0 },
    next: Some(Key { z: 9, number: 2 }),
    from: 4,
    to: 9,
    page: 101,
};

// A page of the index of three levels that is damaged under the pager that holds it, and a search then.
pub(crate) struct Damage {
    // The address whose least key is sought, and the page of its region before.
    z: u128,
    told: u32,
    // Which page is damaged, and what it is then.
    page: u32,
    sheet: Sheet,
    // What the search answers where the page is held, and where it is read.
    held: Answer,
    read: Answer,
}

// Damage at the ends of a page: no entry, a level too many, one too few, another first key on each level, and a last key that isn't
// before the next.
static ENDS: &[Damage] = &[
    Damage {
        z: 10,
        told: 102,
        page: 2,
        sheet: Sheet::Index(1, &[]),
        held: Answer::Page(2, PageFault::BadCount),
        read: Answer::Page(2, PageFault::BadCount),
    },
    Damage {
        z: 10,
        told: 102,
        page: 2,
        sheet: Sheet::Index(2, &[(9, 2, 1)]),
        held: Answer::Page(2, PageFault::BadCount),
        read: Answer::Page(2, PageFault::BadCount),
    },
    Damage {
        z: 0,
        told: 100,
        page: 4,
        sheet: Sheet::Index(1, &[(0, 0, 1)]),
        held: Answer::Page(4, PageFault::BadCount),
        read: Answer::Page(4, PageFault::BadCount),
    },
    Damage {
        z: 0,
        told: 100,
        page: 6,
        sheet: Sheet::Index(2, &[(0, 0, 4)]),
        held: Answer::Page(6, PageFault::BadCount),
        read: Answer::Page(6, PageFault::BadCount),
    },
    Damage {
        z: 0,
        told: 100,
        page: 6,
        sheet: Sheet::Index(3, &[(0, 1, 4)]),
        held: Answer::Page(6, PageFault::OutOfRegion),
        read: Answer::Page(6, PageFault::OutOfRegion),
    },
    Damage {
        z: 31,
        told: 104,
        page: 5,
        sheet: Sheet::Index(2, &[(20, 1, 3)]),
        held: Answer::Page(5, PageFault::OutOfRegion),
        read: Answer::Page(5, PageFault::OutOfRegion),
    },
    Damage {
        z: 10,
        told: 102,
        page: 2,
        sheet: Sheet::Index(1, &[(9, 1, 102)]),
        held: Answer::Page(2, PageFault::OutOfRegion),
        read: Answer::Page(2, PageFault::OutOfRegion),
    },
    Damage {
        z: 5,
        told: 101,
        page: 1,
        sheet: Sheet::Index(1, &[(0, 0, 100), (9, 2, 101)]),
        held: Answer::Page(1, PageFault::OutOfRegion),
        read: Answer::Page(1, PageFault::OutOfRegion),
    },
    // A page of another kind.
    Damage {
        z: 25,
        told: 104,
        page: 3,
        sheet: Sheet::Blank,
        held: Answer::Page(3, PageFault::WrongKind),
        read: Answer::Page(3, PageFault::WrongKind),
    },
];

// An entry on the way that names page 0, on each level, or a page that isn't there, which a search follows where the page is held; and
// damage that isn't on the way: keys that don't ascend, two that are equal, a row number above the greatest, and page 0.
static MIDDLES: &[Damage] = &[
    Damage {
        z: 25,
        told: 104,
        page: 3,
        sheet: Sheet::Index(1, &[(20, 0, 103), (21, 0, 0), (31, 1, 105)]),
        held: Answer::Told(0),
        read: Answer::Page(3, PageFault::BadRow),
    },
    Damage {
        z: 31,
        told: 104,
        page: 5,
        sheet: Sheet::Index(2, &[(20, 0, 3), (25, 0, 0)]),
        held: Answer::Page(0, PageFault::WrongKind),
        read: Answer::Page(5, PageFault::BadRow),
    },
    Damage {
        z: 3,
        told: 100,
        page: 4,
        sheet: Sheet::Index(2, &[(0, 0, 0)]),
        held: Answer::Page(0, PageFault::WrongKind),
        read: Answer::Page(4, PageFault::BadRow),
    },
    Damage {
        z: 3,
        told: 100,
        page: 4,
        sheet: Sheet::Index(2, &[(0, 0, 7)]),
        held: NO_PAGE,
        read: NO_PAGE,
    },
    Damage {
        z: 25,
        told: 104,
        page: 3,
        sheet: Sheet::Index(1, &[(20, 0, 103), (19, 0, 104), (31, 1, 105)]),
        held: Answer::Told(104),
        read: Answer::Page(3, PageFault::BadOrder),
    },
    Damage {
        z: 25,
        told: 104,
        page: 3,
        sheet: Sheet::Index(1, &[(20, 0, 103), (20, 0, 104)]),
        held: Answer::Told(104),
        read: Answer::Page(3, PageFault::BadOrder),
    },
    Damage {
        z: 63,
        told: 105,
        page: 3,
        sheet: Sheet::Index(1, &[(20, 0, 103), (20, 0, 104)]),
        held: Answer::Told(104),
        read: Answer::Page(3, PageFault::BadOrder),
    },
    Damage {
        z: 25,
        told: 104,
        page: 3,
        sheet: Sheet::Index(1, &[(20, 0, 103), (21, 16_777_216, 106), (31, 1, 105)]),
        held: Answer::Told(106),
        read: Answer::Page(3, PageFault::BadRow),
    },
    Damage {
        z: 25,
        told: 104,
        page: 3,
        sheet: Sheet::Index(1, &[(20, 0, 103), (21, 0, 0), (22, 0, 104)]),
        held: Answer::Told(104),
        read: Answer::Page(3, PageFault::BadRow),
    },
];

// Whether a search is answered so where the page is held; and where it is read, twice, since a page that is refused isn't held then.
fn is_told(trial: &mut Trial, damage: &Damage) -> bool {
    let find = Step::Find(damage.z, 0);
    let put = Step::Put(damage.page, damage.sheet);
    let wanted = [
        (Step::Six(3, 0, 4), Answer::Done),
        (Step::Index(6, 3, 63), Answer::Done),
        (find, Answer::Told(damage.told)),
        (put, Answer::Done),
        (find, damage.held),
        (Step::Six(3, 0, 4), Answer::Done),
        (put, Answer::Done),
        (find, damage.read),
        (find, damage.read),
    ];
    trial.count_right(&wanted) == 9
}

// After how many of these the searches are answered so, up to the first after which one isn't.
pub(crate) fn count_told(trial: &mut Trial, damages: &[Damage]) -> u64 {
    let mut right = 0u64;
    for damage in damages {
        if !is_told(trial, damage) {
            return right;
        }
        right = right.saturating_add(1);
    }
    right
}

// Where a leaf that is held leads back, the root is refused, and once it is read anew the leaf is.
static BACKWARDS: &[(Step, Answer)] = &[
    (Step::Six(3, 0, 4), Answer::Done),
    (Step::Index(6, 3, 63), Answer::Done),
    (Step::Find(25, 0), Answer::Told(104)),
    (Step::Put(3, ON_ONE), Answer::Done),
    (
        Step::Seek(23, Some(AFTER)),
        Answer::Page(6, PageFault::OutOfRegion),
    ),
    (Step::Six(3, 0, 4), Answer::Done),
    (Step::Put(3, ON_ONE), Answer::Done),
    (
        Step::Seek(23, Some(AFTER)),
        Answer::Page(3, PageFault::BadOrder),
    ),
    (Step::Six(3, 0, 4), Answer::Done),
    (Step::Find(10, 0), Answer::Told(102)),
    (Step::Put(2, ON_TWO), Answer::Done),
    (
        Step::Seek(10, Some(LAST)),
        Answer::Page(6, PageFault::OutOfRegion),
    ),
    (Step::Six(3, 0, 4), Answer::Done),
    (Step::Put(2, ON_TWO), Answer::Done),
    (
        Step::Seek(10, Some(LAST)),
        Answer::Page(2, PageFault::BadOrder),
    ),
];

// With one page held, three are read where the next region is on the same leaf, and six where it is on another one.
static ONCE: &[(Step, Answer)] = &[
    (Step::Six(3, 4, 1), Answer::Done),
    (Step::Index(6, 3, 63), Answer::Done),
    (Step::Seek(0, Some(AFTER)), Answer::Told(104)),
    (Step::Six(3, 4, 1), Answer::Done),
    (Step::Seek(63, Some(AFTER)), Answer::Told(105)),
    (Step::Six(3, 3, 1), Answer::Done),
    (Step::Seek(63, Some(AFTER)), DEVICE),
    (Step::Six(3, 7, 1), Answer::Done),
    (Step::Seek(0, Some(LAST)), Answer::Told(102)),
    (Step::Six(3, 6, 1), Answer::Done),
    (Step::Seek(0, Some(LAST)), DEVICE),
];

#[test]
fn held_pages(rt: HostRuntime) {
    let alloc = rt.alloc();
    goes(&rt, alloc, "the ends of a page", Play::Damages(ENDS));
    goes(&rt, alloc, "between the ends", Play::Damages(MIDDLES));
    goes(&rt, alloc, "leaves that lead back", Play::Steps(BACKWARDS));
    goes(&rt, alloc, "the way is read once", Play::Steps(ONCE));
}
