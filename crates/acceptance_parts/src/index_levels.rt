// An index of six levels with one to four entries a page, the leftmost pages of which are the roots of indexes of one to five: each
// key, each neighbour, and all regions but the first dropped in several orders.
use crate::index_pages::{Listed, Sheet};
use crate::index_trial::{Answer, Play, Step, Trial, goes};

// The regions' entries, from left to right.
static REGIONS: &[Listed] = &[
    (0, 0, 100),
    (1, 0, 101),
    (1, 3, 102),
    (2, 1, 103),
    (5, 0, 104),
    (6, 0, 105),
    (6, 1, 106),
    (9, 0, 107),
    (10, 0, 108),
    (10, 4, 109),
    (12, 0, 110),
    (14, 0, 111),
    (15, 2, 112),
    (20, 0, 113),
    (22, 1, 114),
    (22, 2, 115),
    (25, 0, 116),
    (30, 0, 117),
    (31, 0, 118),
];

// The pages, from 1 on, in this order: what a page leads to, and then the page.
static PAGES: &[Sheet] = &[
    Sheet::Index(1, &[(0, 0, 100), (1, 0, 101), (1, 3, 102), (2, 1, 103)]),
    Sheet::Index(1, &[(5, 0, 104)]),
    Sheet::Index(1, &[(6, 0, 105), (6, 1, 106)]),
    Sheet::Index(2, &[(0, 0, 1), (5, 0, 2), (6, 0, 3)]),
    Sheet::Index(1, &[(9, 0, 107), (10, 0, 108), (10, 4, 109)]),
    Sheet::Index(2, &[(9, 0, 5)]),
    Sheet::Index(3, &[(0, 0, 4), (9, 0, 6)]),
    Sheet::Index(1, &[(12, 0, 110)]),
    Sheet::Index(2, &[(12, 0, 8)]),
    Sheet::Index(3, &[(12, 0, 9)]),
    Sheet::Index(1, &[(14, 0, 111)]),
    Sheet::Index(1, &[(15, 2, 112)]),
    Sheet::Index(2, &[(14, 0, 11), (15, 2, 12)]),
    Sheet::Index(3, &[(14, 0, 13)]),
    Sheet::Index(1, &[(20, 0, 113)]),
    Sheet::Index(2, &[(20, 0, 15)]),
    Sheet::Index(3, &[(20, 0, 16)]),
    Sheet::Index(4, &[(0, 0, 7), (12, 0, 10), (14, 0, 14), (20, 0, 17)]),
    Sheet::Index(1, &[(22, 1, 114), (22, 2, 115)]),
    Sheet::Index(2, &[(22, 1, 19)]),
    Sheet::Index(3, &[(22, 1, 20)]),
    Sheet::Index(4, &[(22, 1, 21)]),
    Sheet::Index(5, &[(0, 0, 18), (22, 1, 22)]),
    Sheet::Index(1, &[(25, 0, 116)]),
    Sheet::Index(2, &[(25, 0, 24)]),
    Sheet::Index(3, &[(25, 0, 25)]),
    Sheet::Index(4, &[(25, 0, 26)]),
    Sheet::Index(5, &[(25, 0, 27)]),
    Sheet::Index(1, &[(30, 0, 117)]),
    Sheet::Index(1, &[(31, 0, 118)]),
    Sheet::Index(2, &[(30, 0, 29)]),
    Sheet::Index(2, &[(31, 0, 30)]),
    Sheet::Index(3, &[(30, 0, 31), (31, 0, 32)]),
    Sheet::Index(4, &[(30, 0, 33)]),
    Sheet::Index(5, &[(30, 0, 34)]),
    Sheet::Index(6, &[(0, 0, 23), (25, 0, 28), (30, 0, 35)]),
];

// An index: its level, its root, and how many regions stand below it.
pub(crate) type Level = (u32, u32, u32);

static LEVELS: [Level; 6] = [
    (1, 1, 4),
    (2, 4, 7),
    (3, 7, 10),
    (4, 18, 14),
    (5, 23, 16),
    (6, 36, 19),
];

// In which order regions are dropped.
#[derive(Clone, Copy)]
pub(crate) enum Order {
    Ascending,
    Descending,
    Middle,
}

// Whether the index is the flat list of the regions that are left, one bit for each from the lowest: gone through from the first to
// the last, each has the one before it for a neighbour.
fn is_left(trial: &mut Trial, left: u32) -> bool {
    let mut here = trial.answer(&Step::Find(0, 0));
    let mut before = Answer::Told(0);
    let mut rest = left;
    for region in REGIONS {
        if rest % 2 == 1 {
            let is_here = here == Answer::Told(region.2);
            if !(is_here & (trial.answer(&Step::Before) == before)) {
                return false;
            }
            before = here;
            here = trial.answer(&Step::After);
        }
        rest /= 2;
    }
    here == Answer::Told(0)
}

// The root of the regions that are left: the lowest that leads to all of them; and its level.
fn root_over(left: u32) -> Answer {
    for level in &LEVELS {
        if left.wrapping_shr(level.2) == 0 {
            return Answer::Root(level.1, level.0);
        }
    }
    Answer::Wrong
}

// The region that is dropped next of those that are left, and its bit. Before it so many are left as the order says.
fn next_of(left: u32, order: Order) -> Option<(Listed, u32)> {
    let mut ahead = match order {
        Order::Ascending => 1,
        Order::Descending => left.count_ones().saturating_sub(1),
        Order::Middle => left.count_ones() / 2,
    };
    let mut rest = left;
    let mut bit = 1u32;
    for region in REGIONS {
        if rest % 2 == 1 {
            if ahead == 0 {
                return Some((*region, bit));
            }
            ahead -= 1;
        }
        rest /= 2;
        bit = bit.wrapping_mul(2);
    }
    None
}

// Whether this region is dropped, the root is that of those that are left then, and they are the index.
fn drops(trial: &mut Trial, region: Listed, left: u32) -> bool {
    let wanted = [
        (Step::Find(region.0, region.1), Answer::Told(region.2)),
        (Step::Drop, root_over(left)),
        (Step::Grow, Answer::Done),
        (Step::Commit, Answer::Done),
    ];
    trial.count_right(&wanted) == 4 && is_left(trial, left)
}

// Whether the index of this level is the flat list of the regions below it, and all of them but the first are dropped in this order.
pub(crate) fn drops_each(trial: &mut Trial, level: &Level, order: Order) -> bool {
    let wanted = [
        (Step::Store(PAGES, 0, 4), Answer::Done),
        (Step::Index(level.1, level.0, 63), Answer::Done),
        (Step::List(REGIONS, level.2 as usize), Answer::Done),
    ];
    if trial.count_right(&wanted) != 3 {
        return false;
    }
    let mut left = u32::MAX.wrapping_shr(32 - level.2.clamp(1, 32));
    for _ in 1..level.2 {
        let Some((region, bit)) = next_of(left, order) else {
            return false;
        };
        left &= !bit;
        if !drops(trial, region, left) {
            return false;
        }
    }
    left == 1
}

#[test]
fn drops_to_one(rt: HostRuntime) {
    let alloc = rt.alloc();
    for level in &LEVELS {
        goes(
            &rt,
            alloc,
            "ascending",
            Play::Drops(level, Order::Ascending),
        );
        goes(
            &rt,
            alloc,
            "descending",
            Play::Drops(level, Order::Descending),
        );
        goes(
            &rt,
            alloc,
            "from the middle",
            Play::Drops(level, Order::Middle),
        );
    }
}
