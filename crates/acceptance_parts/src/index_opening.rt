// Indexes that are opened, each by its root alone, and one that is made: what is taken, what is refused and why, and how often the
// store is read for it.
use crate::index_pages::Sheet;
use crate::index_trial::{Answer, DEVICE, NO_PAGE, Play, Step, goes, whether};
use ub_page::{Key, PageFault};
use ub_region::Region;
use ub_store::{PageStore, Pager};

// The page of a root that names the region on page 5, byte by byte: 'I', level 1, one entry, zeros, and at 36 the number of the page.
const ROOT: [u8; 40] = [
    0x49, 1, 0, 1, 0, 0, 0, 0, 0, 0, 0, 0, 0, 0, 0, 0, 0, 0, 0, 0, 0, 0, 0, 0, 0, 0, 0, 0, 0, 0, 0,
    0, 0, 0, 0, 0, 0, 0, 0, 5,
];

// Its region.
const ALL: Region = Region {
    first: Key { z: 0, number: 0 },
    next: None,
    from: 0,
    to: u128::MAX,
    page: 5,
};

// Whether the page of this number begins with these bytes, and has zeros behind them.
pub(crate) fn begins<S: PageStore>(pager: &mut Pager<S>, number: u32, bytes: &[u8; 40]) -> Answer {
    match pager.bring(number) {
        Ok(_) => {
            let mut wanted = [0u8; 4096];
            wanted[..40].copy_from_slice(bytes);
            whether(*pager.cached(number) == wanted)
        }
        Err(fault) => Answer::Store(fault),
    }
}

// Roots of the index of three levels, their levels and the last addresses, and how each is opened.
static ROOTS: &[(Step, Answer)] = &[
    // pages 1 and 4 are roots too
    (Step::OpenAnew(6, 3, 63), Answer::Done),
    (Step::OpenAnew(6, 3, 20), Answer::Done),
    (Step::OpenAnew(4, 2, 63), Answer::Done),
    (Step::OpenAnew(1, 1, 63), Answer::Done),
    (Step::OpenAnew(1, 1, 4), Answer::Done),
    // one of another level, also where it doesn't begin with the least key
    (
        Step::OpenAnew(6, 2, 63),
        Answer::Page(6, PageFault::BadCount),
    ),
    (
        Step::OpenAnew(6, 4, 63),
        Answer::Page(6, PageFault::BadCount),
    ),
    (
        Step::OpenAnew(6, 16, 63),
        Answer::Page(6, PageFault::BadCount),
    ),
    (
        Step::OpenAnew(1, 2, 63),
        Answer::Page(1, PageFault::BadCount),
    ),
    (
        Step::OpenAnew(5, 1, 63),
        Answer::Page(5, PageFault::BadCount),
    ),
    // one that begins later
    (
        Step::OpenAnew(5, 2, 63),
        Answer::Page(5, PageFault::OutOfRegion),
    ),
    (
        Step::OpenAnew(2, 1, 63),
        Answer::Page(2, PageFault::OutOfRegion),
    ),
    // an address above the last
    (Step::OpenAnew(6, 3, 19), Answer::Page(6, PageFault::BadRow)),
    (Step::OpenAnew(6, 2, 19), Answer::Page(6, PageFault::BadRow)),
    // no page
    (Step::OpenAnew(7, 3, 63), NO_PAGE),
    (Step::OpenAnew(u32::MAX, 1, 63), NO_PAGE),
];

// A search after the opening reads the two pages below the root. Making an index calls the store once.
static ZEROS: &[(Step, Answer)] = &[
    (Step::Six(3, 0, 4), Answer::Done),
    (Step::Put(6, Sheet::Blank), Answer::Done),
    (Step::Open(6, 3, 63), Answer::Page(6, PageFault::WrongKind)),
];

static READS: &[(Step, Answer)] = &[
    (Step::Six(3, 1, 4), Answer::Done),
    (Step::Open(6, 3, 63), DEVICE),
    (Step::Open(6, 3, 63), Answer::Done),
    (Step::Six(3, 2, 4), Answer::Done),
    (Step::Open(6, 3, 63), Answer::Done),
    (Step::Find(25, 0), DEVICE),
    (Step::Find(25, 0), Answer::Told(104)),
    (Step::Open(6, 3, 63), Answer::Done),
    (Step::Six(3, 3, 4), Answer::Done),
    (Step::Open(6, 3, 63), Answer::Done),
    (Step::Find(25, 0), DEVICE),
    (Step::Find(25, 0), Answer::Told(104)),
    (Step::Open(6, 3, 63), Answer::Done),
    (Step::Six(3, 4, 4), Answer::Done),
    (Step::Open(6, 3, 63), Answer::Done),
    (Step::Find(25, 0), Answer::Told(104)),
    (Step::Find(25, 0), Answer::Told(104)),
    (Step::Open(6, 3, 63), Answer::Done),
];

static MADE: &[(Step, Answer)] = &[
    (Step::Six(3, 0, 4), Answer::Done),
    (Step::Create(2, u128::MAX), Answer::Done),
    (Step::Begins(2, &ROOT), Answer::Done),
    (Step::Find(0, 0), Answer::Told(5)),
    (Step::Is(ALL), Answer::Done),
    (Step::Find(u128::MAX, u32::MAX), Answer::Told(5)),
    (Step::Is(ALL), Answer::Done),
    (Step::Open(2, 1, u128::MAX), Answer::Done),
    (Step::Six(3, 1, 4), Answer::Done),
    (Step::Create(2, u128::MAX), DEVICE),
    (Step::Six(3, 2, 4), Answer::Done),
    (Step::Create(2, u128::MAX), Answer::Done),
    (Step::Begins(2, &ROOT), DEVICE),
    (Step::Six(3, 3, 4), Answer::Done),
    (Step::Create(2, u128::MAX), Answer::Done),
    (Step::Begins(2, &ROOT), Answer::Done),
    (Step::Find(0, 0), Answer::Told(5)),
    (Step::Is(ALL), Answer::Done),
    (Step::Find(u128::MAX, u32::MAX), Answer::Told(5)),
    (Step::Is(ALL), Answer::Done),
    (Step::Open(2, 1, u128::MAX), Answer::Done),
];

static UNMADE: &[(Step, Answer)] = &[
    (Step::Six(3, 0, 4), Answer::Done),
    (Step::Create(6, 63), Answer::Done),
    (Step::Six(3, 0, 4), Answer::Done),
    (Step::Create(7, 63), NO_PAGE),
    (Step::Six(3, 1, 4), Answer::Done),
    (Step::Create(6, 63), DEVICE),
];

#[test]
fn openings(rt: HostRuntime) {
    let alloc = rt.alloc();
    goes(&rt, alloc, "roots", Play::Steps(ROOTS));
    goes(&rt, alloc, "a page of zeros", Play::Steps(ZEROS));
    goes(
        &rt,
        alloc,
        "opening reads the root, and a search after it the two pages below",
        Play::Steps(READS),
    );
    goes(
        &rt,
        alloc,
        "an index of one region is made",
        Play::Steps(MADE),
    );
    goes(&rt, alloc, "faults in making", Play::Steps(UNMADE));
}
