// Searches in hand-made indexes of one to three levels: each key, each neighbour, the regions met; and a store that fails at each
// call.
use crate::index_pages::{Listed, Sheet};
use crate::index_trial::{Answer, DEVICE, Play, Step, goes};
use ub_page::Key;
use ub_region::Region;

// The regions' entries, from left to right.
const FLAT: &[Listed] = &[
    (0, 0, 100),
    (4, 0, 101),
    (9, 2, 102),
    (20, 0, 103),
    (20, 5, 104),
    (31, 1, 105),
];

// These six regions under one page, under two levels and under three: the pages from 1 on; the root is the last of them.
static ONE: &[Sheet] = &[Sheet::Index(1, FLAT)];

static TWO: &[Sheet] = &[
    Sheet::Index(1, &[(0, 0, 100)]),
    Sheet::Index(1, &[(4, 0, 101), (9, 2, 102), (20, 0, 103), (20, 5, 104)]),
    Sheet::Index(1, &[(31, 1, 105)]),
    Sheet::Index(2, &[(0, 0, 1), (4, 0, 2), (31, 1, 3)]),
];

static THREE: &[Sheet] = &[
    Sheet::Index(1, &[(0, 0, 100), (4, 0, 101)]),
    Sheet::Index(1, &[(9, 2, 102)]),
    Sheet::Index(1, &[(20, 0, 103), (20, 5, 104), (31, 1, 105)]),
    Sheet::Index(2, &[(0, 0, 1), (9, 2, 2)]),
    Sheet::Index(2, &[(20, 0, 3)]),
    Sheet::Index(3, &[(0, 0, 4), (20, 0, 5)]),
];

// The pages of the store that a step takes, if it does so, which of its calls fails, and how many pages are held.
pub(crate) fn stock_of(step: &Step) -> Option<(&'static [Sheet], u64, usize)> {
    match step {
        Step::Store(pages, due, room) => Some((*pages, *due, *room)),
        Step::Six(1, due, room) => Some((ONE, *due, *room)),
        Step::Six(2, due, room) => Some((TWO, *due, *room)),
        Step::Six(_, due, room) => Some((THREE, *due, *room)),
        Step::OpenAnew(_, _, _) => Some((THREE, 0, 4)),
        _ => None,
    }
}

// The region that holds the least key of address 25.
const AT_25: Region = Region {
    first: Key { z: 20, number: 5 },
    next: Some(Key { z: 31, number: 1 }),
    from: 20,
    to: 31,
    page: 104,
};

// A store that fails does so once.
static ONE_LEVEL: &[(Step, Answer)] = &[
    (Step::Six(1, 0, 4), Answer::Done),
    (Step::Index(1, 1, 63), Answer::Done),
    (Step::List(FLAT, 6), Answer::Done),
    (Step::Seek(63, None), Answer::Told(105)),
    (Step::Seek(64, None), Answer::Told(0)),
    (Step::Meet, Answer::Done),
];

static TWO_LEVELS: &[(Step, Answer)] = &[
    (Step::Six(2, 0, 4), Answer::Done),
    (Step::Index(4, 2, 63), Answer::Done),
    (Step::List(FLAT, 6), Answer::Done),
    (Step::Seek(63, None), Answer::Told(105)),
    (Step::Seek(64, None), Answer::Told(0)),
    (Step::Meet, Answer::Done),
];

static THREE_LEVELS: &[(Step, Answer)] = &[
    (Step::Six(3, 0, 4), Answer::Done),
    (Step::Index(6, 3, 63), Answer::Done),
    (Step::List(FLAT, 6), Answer::Done),
    (Step::Seek(63, None), Answer::Told(105)),
    (Step::Seek(64, None), Answer::Told(0)),
    (Step::Meet, Answer::Done),
];

static FAILING: &[(Step, Answer)] = &[
    (Step::Six(3, 1, 4), Answer::Done),
    (Step::Index(6, 3, 63), Answer::Done),
    (Step::Find(25, 0), DEVICE),
    (Step::Find(25, 0), Answer::Told(104)),
    (Step::Is(AT_25), Answer::Done),
    (Step::Six(3, 2, 4), Answer::Done),
    (Step::Find(25, 0), DEVICE),
    (Step::Find(25, 0), Answer::Told(104)),
    (Step::Is(AT_25), Answer::Done),
    (Step::Six(3, 3, 4), Answer::Done),
    (Step::Find(25, 0), DEVICE),
    (Step::Find(25, 0), Answer::Told(104)),
    (Step::Is(AT_25), Answer::Done),
    (Step::Six(3, 4, 4), Answer::Done),
    (Step::Find(25, 0), Answer::Told(104)),
    (Step::Is(AT_25), Answer::Done),
    (Step::Find(25, 0), Answer::Told(104)),
    (Step::Is(AT_25), Answer::Done),
];

#[test]
fn searches(rt: HostRuntime) {
    let alloc = rt.alloc();
    goes(&rt, alloc, "an index of one level", Play::Steps(ONE_LEVEL));
    goes(
        &rt,
        alloc,
        "an index of two levels",
        Play::Steps(TWO_LEVELS),
    );
    goes(
        &rt,
        alloc,
        "an index of three levels",
        Play::Steps(THREE_LEVELS),
    );
    goes(
        &rt,
        alloc,
        "a search where the store fails once",
        Play::Steps(FAILING),
    );
}
