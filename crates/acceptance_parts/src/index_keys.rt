// What an index is to answer by the flat list of its regions' entries, and whether it does.
use crate::cases::between;
use crate::index_pages::Listed;
use ub_bigmin::ZBox;
use ub_index::{Index, IndexFault};
use ub_page::Key;
use ub_region::Region;
use ub_store::{PageStore, Pager};

// The last address of each space whose regions are listed.
const LAST: u128 = 63;

// The region that holds a key, among those that are listed, and its place among them.
fn region_in(flat: &[Listed], key: Key) -> Option<(Region, usize)> {
    let mut held = None;
    for i in 0..flat.len() {
        let (z, number, page) = flat[i];
        let first = Key { z, number };
        if !key.is_before(&first) {
            let (next, to) = match flat.get(i + 1) {
                Some((z, 0, _)) => (Some(Key { z: *z, number: 0 }), z.saturating_sub(1)),
                Some((z, number, _)) => (
                    Some(Key {
                        z: *z,
                        number: *number,
                    }),
                    *z,
                ),
                None => (None, LAST),
            };
            let region = Region {
                first,
                next,
                from: z,
                to,
                page,
            };
            held = Some((region, i));
        }
    }
    held
}

// Whether a key is found in the region that holds it, which has those for neighbours that are listed beside it.
fn finds<S: PageStore>(index: &Index, pager: &mut Pager<S>, flat: &[Listed], key: Key) -> bool {
    let Some((region, i)) = region_in(flat, key) else {
        return false;
    };
    let before = if i == 0 { None } else { flat.get(i - 1) };
    let after = flat.get(i.saturating_add(1));
    (index.region_holding(pager, &key) == Ok(region))
        & is_page(index.before(pager, &region), before)
        & is_page(index.after(pager, &region), after)
}

// Whether a search gives the region that is listed there, or none where none is.
fn is_page(given: Result<Option<Region>, IndexFault>, listed: Option<&Listed>) -> bool {
    match (given, listed) {
        (Ok(Some(region)), Some(listed)) => region.page == listed.2,
        (Ok(None), None) => true,
        _ => false,
    }
}

// Whether an index answers as the flat list of its regions does: for each number up to 6 at each address up to one behind the last
// region's first.
pub(crate) fn is_list<S: PageStore>(index: &Index, pager: &mut Pager<S>, flat: &[Listed]) -> bool {
    for i in 0..280u32 {
        let key = Key {
            z: u128::from(i / 7),
            number: i % 7,
        };
        if !finds(index, pager, flat, key) {
            return false;
        }
    }
    true
}

// Whether the least keys of so many addresses from one on lead to as many pages from one on.
pub(crate) fn leads<S: PageStore>(
    index: &Index,
    pager: &mut Pager<S>,
    from: u128,
    count: u32,
    page: u32,
) -> bool {
    for i in 0..count {
        let z = from.saturating_add(u128::from(i));
        match index.region_holding(pager, &Key { z, number: 0 }) {
            Ok(region) if region.page == page.saturating_add(i) => {}
            _ => return false,
        }
    }
    true
}

// Whether the regions on these pages are those that are met, in this order and no others.
fn meets<S: PageStore>(index: &Index, pager: &mut Pager<S>, boxes: &[ZBox], pages: &[u32]) -> bool {
    let mut after: Option<Region> = None;
    for page in pages {
        match index.next_meeting(pager, boxes, after.as_ref()) {
            Ok(Some(region)) if region.page == *page => after = Some(region),
            _ => return false,
        }
    }
    index.next_meeting(pager, boxes, after.as_ref()) == Ok(None)
}

// Whether boxes meet those of six regions that they meet.
pub(crate) fn meets_each<S: PageStore>(index: &Index, pager: &mut Pager<S>) -> bool {
    let (Some(middle), Some(low), Some(high)) = (
        between(&[5], &[20]),
        between(&[2], &[2]),
        between(&[40], &[63]),
    ) else {
        return false;
    };
    meets(index, pager, &[middle], &[101, 102, 103, 104])
        & meets(index, pager, &[high, low], &[100, 105])
        & meets(index, pager, &[], &[])
}
