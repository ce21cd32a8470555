// What several of these tests start from, and the test that goes over their tables.
use crate::answer::LIMITED;
use crate::boxes::COVERED;
use crate::growing::{GROWN, is_many};
use crate::lexer::CUT;
use crate::planning::is_count_scanned;
use crate::syntax::{STATEMENTS, bad_byte_is_no_part};
use std::alloc::Global;
use std::process::Abort;
use ub_bigmin::ZBox;
use ub_table::{Name, PageFault, Schema};
use ub_zaddr::{Point, Shape};

// A row of a table of cases: what is asked, and what is to be answered.
pub(crate) trait Case {
    // Whether it is answered so.
    fn holds(&self, alloc: Global) -> bool;
}

// Asserts that all cases hold, by what they show and the place of the first one that doesn't.
pub(crate) fn all_hold<C: Case>(rt: &impl Abort, alloc: Global, shown: &str, cases: &[C]) {
    for (i, case) in cases.iter().enumerate() {
        assert!(rt; case.holds(alloc), "{shown}: case {i}");
    }
}

// A table t with two rows on a page, whose columns have these letters for names: the first of them are its dimensions, and those whose bits
// a mask has are signed.
pub(crate) fn table(letters: &[u8], dims: u32, signed: u32) -> Result<Schema, PageFault> {
    let name = Name::new(b"t")?;
    let count = letters.len().min(8);
    let mut columns = [name; 8];
    for i in 0..count {
        columns[i] = Name::new(&letters[i..=i])?;
    }
    Schema::new(name, &columns[..count], dims, 2, signed)
}

// The box between two corners, if it has points, in the space of so many dimensions.
pub(crate) fn between(low: &[u32], high: &[u32]) -> Option<ZBox> {
    let shape = Shape::new(low.len().min(5) as u32).ok()?;
    let lo = Point::new(shape, low).ok()?;
    let hi = Point::new(shape, high).ok()?;
    ZBox::new(shape, &lo, &hi)
}

#[test]
fn tables_hold(rt: HostRuntime) {
    let alloc = rt.alloc();
    all_hold(
        &rt,
        alloc,
        "rows put after others, as the limit says",
        LIMITED,
    );
    all_hold(&rt, alloc, "boxes of conditions", COVERED);
    all_hold(&rt, alloc, "regions that rows make", GROWN);
    all_hold(&rt, alloc, "sources cut into tokens", CUT);
    all_hold(&rt, alloc, "statements and their syntax", STATEMENTS);
    assert!(rt; is_many(alloc), "rows come to many regions");
    assert!(rt; is_count_scanned(alloc), "a count is scanned in any order");
    assert!(rt; bad_byte_is_no_part(), "no bad byte is taken for a part");
}
