// Changes of hand-made indexes: a region more and a region less, full pages that are parted up to a new root, roots that give way,
// and sixteen full levels.
use crate::index_pages::Sheet;
use crate::index_trial::{Answer, Play, Step, goes};

// Full pages of one level, of three and of sixteen, from page 1 on, each of which is the first that the next one names.
const ONE: &[Sheet] = &[Sheet::Full(1, 1000)];

pub(crate) const THREE: &[Sheet] = &[Sheet::Full(1, 1000), Sheet::Full(2, 1), Sheet::Full(3, 2)];

const SIXTEEN: &[Sheet] = &[
    Sheet::Full(1, 1000),
    Sheet::Full(2, 1),
    Sheet::Full(3, 2),
    Sheet::Full(4, 3),
    Sheet::Full(5, 4),
    Sheet::Full(6, 5),
    Sheet::Full(7, 6),
    Sheet::Full(8, 7),
    Sheet::Full(9, 8),
    Sheet::Full(10, 9),
    Sheet::Full(11, 10),
    Sheet::Full(12, 11),
    Sheet::Full(13, 12),
    Sheet::Full(14, 13),
    Sheet::Full(15, 14),
    Sheet::Full(16, 15),
];

// Of the hand-made indexes the root is the last page. The region that comes in full pages is on the first page that the store grows
// by; where sixteen levels are full there is no page more.
static MORE: &[(Step, Answer)] = &[
    (
        Step::Store(
            &[
                Sheet::Index(1, &[(0, 0, 100), (4, 0, 101)]),
                Sheet::Index(2, &[(0, 0, 1)]),
            ],
            0,
            4,
        ),
        Answer::Done,
    ),
    (Step::Index(2, 2, 63), Answer::Done),
    (Step::Find(0, 0), Answer::Told(100)),
    (Step::Add(2, 0), Answer::Root(2, 2)),
    (Step::Grow, Answer::Done),
    (Step::Commit, Answer::Done),
    (
        Step::List(&[(0, 0, 100), (2, 0, 3), (4, 0, 101)], 3),
        Answer::Done,
    ),
];

static FIRST_GOES: &[(Step, Answer)] = &[
    (
        Step::Store(
            &[
                Sheet::Index(1, &[(0, 0, 100)]),
                Sheet::Index(1, &[(4, 0, 101), (9, 0, 102)]),
                Sheet::Index(2, &[(0, 0, 1), (4, 0, 2)]),
            ],
            0,
            4,
        ),
        Answer::Done,
    ),
    (Step::Index(3, 2, 63), Answer::Done),
    (Step::Find(4, 0), Answer::Told(101)),
    (Step::Drop, Answer::Root(3, 2)),
    (Step::Grow, Answer::Done),
    (Step::Commit, Answer::Done),
    (Step::List(&[(0, 0, 100), (9, 0, 102)], 2), Answer::Done),
];

static TWO_GIVE_WAY: &[(Step, Answer)] = &[
    (
        Step::Store(
            &[
                Sheet::Index(1, &[(0, 0, 100)]),
                Sheet::Index(1, &[(20, 0, 101)]),
                Sheet::Index(2, &[(0, 0, 1)]),
                Sheet::Index(2, &[(20, 0, 2)]),
                Sheet::Index(3, &[(0, 0, 3), (20, 0, 4)]),
            ],
            0,
            4,
        ),
        Answer::Done,
    ),
    (Step::Index(5, 3, 63), Answer::Done),
    (Step::Find(20, 0), Answer::Told(101)),
    (Step::Drop, Answer::Root(1, 1)),
    (Step::Grow, Answer::Done),
    (Step::Commit, Answer::Done),
    (Step::List(&[(0, 0, 100)], 1), Answer::Done),
];

static THREE_GIVE_WAY: &[(Step, Answer)] = &[
    (
        Step::Store(
            &[
                Sheet::Index(1, &[(0, 0, 100)]),
                Sheet::Index(1, &[(20, 0, 101)]),
                Sheet::Index(2, &[(0, 0, 1)]),
                Sheet::Index(2, &[(20, 0, 2)]),
                Sheet::Index(3, &[(0, 0, 3)]),
                Sheet::Index(3, &[(20, 0, 4)]),
                Sheet::Index(4, &[(0, 0, 5), (20, 0, 6)]),
            ],
            0,
            4,
        ),
        Answer::Done,
    ),
    (Step::Index(7, 4, 63), Answer::Done),
    (Step::Find(20, 0), Answer::Told(101)),
    (Step::Drop, Answer::Root(1, 1)),
    (Step::Grow, Answer::Done),
    (Step::Commit, Answer::Done),
    (Step::List(&[(0, 0, 100)], 1), Answer::Done),
];

static ROOT_STAYS: &[(Step, Answer)] = &[
    (
        Step::Store(
            &[
                Sheet::Index(1, &[(0, 0, 100)]),
                Sheet::Index(1, &[(20, 0, 101)]),
                Sheet::Index(1, &[(30, 0, 102)]),
                Sheet::Index(2, &[(0, 0, 1)]),
                Sheet::Index(2, &[(20, 0, 2)]),
                Sheet::Index(2, &[(30, 0, 3)]),
                Sheet::Index(3, &[(0, 0, 4)]),
                Sheet::Index(3, &[(20, 0, 5)]),
                Sheet::Index(3, &[(30, 0, 6)]),
                Sheet::Index(4, &[(0, 0, 7), (20, 0, 8), (30, 0, 9)]),
            ],
            0,
            4,
        ),
        Answer::Done,
    ),
    (Step::Index(10, 4, 63), Answer::Done),
    (Step::Find(20, 0), Answer::Told(101)),
    (Step::Drop, Answer::Root(10, 4)),
    (Step::Grow, Answer::Done),
    (Step::Commit, Answer::Done),
    (Step::List(&[(0, 0, 100), (30, 0, 102)], 2), Answer::Done),
];

static ONE_PARTED: &[(Step, Answer)] = &[
    (Step::Store(ONE, 0, 4), Answer::Done),
    (Step::Index(1, 1, u128::MAX), Answer::Done),
    (Step::Find(0, 0), Answer::Told(1000)),
    (Step::Add(0, 1), Answer::Root(4, 2)),
    (Step::Added, Answer::Told(2)),
    (Step::Grow, Answer::Done),
    (Step::Commit, Answer::Done),
    (Step::Lead(0, 170, 1000), Answer::Done),
    (Step::Find(0, 2), Answer::Told(2)),
];

static THREE_PARTED: &[(Step, Answer)] = &[
    (Step::Store(THREE, 0, 4), Answer::Done),
    (Step::Index(3, 3, u128::MAX), Answer::Done),
    (Step::Find(0, 0), Answer::Told(1000)),
    (Step::Add(0, 1), Answer::Root(8, 4)),
    (Step::Added, Answer::Told(4)),
    (Step::Grow, Answer::Done),
    (Step::Commit, Answer::Done),
    (Step::Lead(0, 170, 1000), Answer::Done),
    (Step::Find(0, 2), Answer::Told(4)),
];

static ALL_FULL: &[(Step, Answer)] = &[
    (Step::Store(SIXTEEN, 0, 4), Answer::Done),
    (Step::Index(16, 16, u128::MAX), Answer::Done),
    (Step::Find(0, 0), Answer::Told(1000)),
    (Step::Add(0, 1), Answer::Full),
    (Step::Pages, Answer::Told(17)),
];

#[test]
fn changed_indexes(rt: HostRuntime) {
    let alloc = rt.alloc();
    goes(&rt, alloc, "a region more, on page 3", Play::Steps(MORE));
    goes(
        &rt,
        alloc,
        "the first of a page goes: the page above gets another key",
        Play::Steps(FIRST_GOES),
    );
    goes(
        &rt,
        alloc,
        "the only one of a page and of the page above goes: two roots give way",
        Play::Steps(TWO_GIVE_WAY),
    );
    goes(
        &rt,
        alloc,
        "the only one of pages of three levels goes: three roots give way at once",
        Play::Steps(THREE_GIVE_WAY),
    );
    goes(
        &rt,
        alloc,
        "the same, and the root stays, since it names two pages yet",
        Play::Steps(ROOT_STAYS),
    );
    goes(
        &rt,
        alloc,
        "one full page is parted up to a new root",
        Play::Steps(ONE_PARTED),
    );
    goes(
        &rt,
        alloc,
        "three full pages are parted up to a new root",
        Play::Steps(THREE_PARTED),
    );
    goes(&rt, alloc, "sixteen full levels", Play::Steps(ALL_FULL));
}
