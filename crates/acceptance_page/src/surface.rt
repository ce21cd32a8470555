// Names of pages that stand below `ub_page`, and that it passes on: each is imported from there, as by those who know the format.
use crate::samples::plane;
use std::simd::prelude::*;
use ub_page::laws::within;
use ub_page::{Draft, Entry, Key, Page, PageFault, RegionPage, Schema};

// Why a page that nothing was written on isn't the page of the region at an entry.
fn refusal_of(schema: &Schema, entry: &Entry) -> Option<PageFault> {
    let draft = Draft::new();
    let page: Page = *draft.page();
    match RegionPage::read(schema, &page) {
        Ok(region) if region.first() == entry.first => None,
        Ok(_) => Some(PageFault::OutOfRegion),
        Err(fault) => Some(fault),
    }
}

#[test]
fn names_are_passed_on(rt: HostRuntime) {
    let schema = plane().expect(&rt, "a plane");
    let first = Key { z: 0, number: 0 };
    let refusal = refusal_of(&schema, &Entry { first, page: 1 });
    assert!(rt; refusal == Some(PageFault::WrongKind));
    let lanes = within(u32x8::from_array([0, 1, 2, 3, 4, 5, 6, 7]), 2, 4);
    assert!(rt; lanes == 0b0001_1100);
}
