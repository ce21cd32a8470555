// Changes of an index over a store whose calls fail in turn: the fault comes once, the index is as it was where no page was put yet,
// and the same call again does what it was to do.
use crate::index_changes::THREE;
use crate::index_pages::Sheet;
use crate::index_trial::{Answer, DEVICE, Play, Step, Trial, goes};
use ub_page::Key;
use ub_region::Region;

// Addresses, and the page of the region that holds the first key of each.
type Pages = &'static [(u128, u32)];

// A step, what it answers, how many calls of the store it makes, and after how many of them, where the last of these fails, the
// index is as it was.
pub(crate) struct Made(Step, Answer, u64, u64);

// What is made: the pages of a store, steps on them, how often they call it, and where addresses lead before and after.
pub(crate) struct Case {
    shown: &'static str,
    pages: &'static [Sheet],
    steps: &'static [Made],
    pub(crate) calls: u64,
    before: Pages,
    after: Pages,
}

// The pages of an index of four levels, from 1 on.
const FOUR: &[Sheet] = &[
    Sheet::Index(1, &[(0, 0, 100)]),
    Sheet::Index(1, &[(20, 0, 101)]),
    Sheet::Index(1, &[(40, 0, 102), (50, 0, 103)]),
    Sheet::Index(2, &[(0, 0, 1)]),
    Sheet::Index(2, &[(20, 0, 2)]),
    Sheet::Index(2, &[(40, 0, 3)]),
    Sheet::Index(3, &[(0, 0, 4)]),
    Sheet::Index(3, &[(20, 0, 5), (40, 0, 6)]),
    Sheet::Index(4, &[(0, 0, 7), (20, 0, 8)]),
];

// The region behind which one comes in full pages, and the one that goes in the index of four levels.
const LAST: Region = Region {
    first: Key { z: 169, number: 0 },
    next: Some(Key { z: 200, number: 0 }),
    from: 169,
    to: 199,
    page: 1169,
};

const MIDDLE: Region = Region {
    first: Key { z: 20, number: 0 },
    next: Some(Key { z: 40, number: 0 }),
    from: 20,
    to: 39,
    page: 101,
};

static CASES: &[Case] = &[
    // A region more in three full pages: three reads, five new pages, seven puts.
    Case {
        shown: "an addition",
        pages: THREE,
        steps: &[
            Made(Step::Index(3, 3, u128::MAX), Answer::Done, 0, 0),
            Made(Step::Take(LAST), Answer::Told(1169), 0, 0),
            Made(Step::Add(180, 0), Answer::Root(8, 4), 3, 3),
            Made(Step::Grow, Answer::Done, 5, 5),
            Made(Step::Commit, Answer::Done, 7, 1),
        ],
        calls: 15,
        before: &[(0, 1000), (85, 1085), (86, 1086), (169, 1169), (199, 1169)],
        after: &[
            (0, 1000),
            (85, 1085),
            (86, 1086),
            (179, 1169),
            (180, 4),
            (199, 4),
        ],
    },
    // A region less, with which pages of two levels are emptied, and the third and the root get another key: four reads, two puts.
    Case {
        shown: "a removal",
        pages: FOUR,
        steps: &[
            Made(Step::Index(9, 4, 63), Answer::Done, 0, 0),
            Made(Step::Take(MIDDLE), Answer::Told(101), 0, 0),
            Made(Step::Drop, Answer::Root(9, 4), 4, 4),
            Made(Step::Grow, Answer::Done, 0, 0),
            Made(Step::Commit, Answer::Done, 2, 1),
        ],
        calls: 6,
        before: &[
            (0, 100),
            (19, 100),
            (20, 101),
            (39, 101),
            (40, 102),
            (63, 103),
        ],
        after: &[
            (0, 100),
            (19, 100),
            (20, 100),
            (39, 100),
            (40, 102),
            (63, 103),
        ],
    },
];

// Whether each of these addresses leads to its page.
fn leads(trial: &mut Trial, pages: Pages) -> bool {
    for (z, page) in pages {
        if trial.answer(&Step::Lead(*z, 1, *page)) != Answer::Done {
            return false;
        }
    }
    true
}

impl Made {
    // Whether the step is answered so where this call of the store fails, the first of them being 1, or none for 0: if it is one of the
    // step's, the fault comes, and then the same step does it.
    fn is_made(&self, trial: &mut Trial, case: &Case, due: u64) -> bool {
        let mut answer = trial.answer(&self.0);
        if due != 0 && due <= self.2 {
            if answer != DEVICE || (due <= self.3 && !leads(trial, case.before)) {
                return false;
            }
            answer = trial.answer(&self.0);
        }
        answer == self.1
    }
}

// Whether a case goes so over a store that fails at this call, or at the first after all that the steps make.
fn goes_over(trial: &mut Trial, case: &Case, due: u64) -> bool {
    trial.answer(&Step::Store(case.pages, due, 4));
    let mut left = due;
    for made in case.steps {
        if !made.is_made(trial, case, left) {
            return false;
        }
        // A store fails once.
        left = left.saturating_sub(made.2);
    }
    leads(trial, case.after) || (left != 0 && leads(trial, case.after))
}

// Up to which call of its store that fails a case goes so.
pub(crate) fn calls_right(trial: &mut Trial, case: &Case) -> u64 {
    for due in 1..=case.calls.saturating_add(1) {
        if !goes_over(trial, case, due) {
            return due - 1;
        }
    }
    case.calls.saturating_add(1)
}

#[test]
fn changes_over_a_failing_store(rt: HostRuntime) {
    for case in CASES {
        goes(&rt, rt.alloc(), case.shown, Play::Calls(case));
    }
}
