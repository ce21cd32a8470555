// A region read from its page where one is due.
ghost use Rattle.std.specs.Prelude.{◌≡◌, ◌⊎◌, ◌↔◌, Err, IsOk, OnOk, IfErr, IsTrue};
ghost use Rattle.std.specs.List.{AllByRecursion};
ghost use Rattle.ub_check.specs.Standing.{IsHeldBy, ReadsAt};
ghost use Rattle.ub_check.specs.inner.Taking.{IsRefusedAt, TakesIn};
ghost use Rattle.ub_region.specs.RegionPage.{region_page};
ghost use Rattle.ub_table.specs.Keys.{IsBefore, AreKeysAscending};
ghost use Rattle.ub_store.specs.View.{IsCached, IsFull, Notes, SameTrace};
ghost use Rattle.ub_table.specs.Region.{RegionRows, IsRegion, keys_of};

use ub_index::IndexFault;
use ub_page::{Page, RegionPage};
use ub_region::{Region, is_equal};
use ub_store::{PageStore, Pager, StoreFault};
use ub_table::{Key, PageFault, Schema};

/// Reads the page of a region, and takes in the region that it spells, which begins with this one's first key, and has its rows before
/// the next one's, if there is one.
///
/// Page comes where the page is refused: by its reader, or as OutOfRegion where what it spells doesn't stand so; it isn't held after
/// that. Store comes with NoPage where the store has no such page, with Device where it failed in this call, with Memory where memory
/// was refused. After a fault any region may stand in `page`.
pub fn read_region<S: PageStore>(
    pager: &mut Pager<S>,
    schema: &Schema,
    region: &Region,
    page: &mut RegionPage,
) -> Result<(), IndexFault>
    ensures trace { SameTrace pager.old pager.new }
    ensures read { ReadsAt schema.now region.now pager.old pager.new page.new result }
{
    pager.bring(region.page)?;
    take_region(pager, schema, region, page)
}

/// The same of a page that is noted in the trace first, whether it is held or not. Memory comes also where it was refused for the
/// note; then the trace has no room for one page more, and nothing has changed.
pub fn fetch_region<S: PageStore>(
    pager: &mut Pager<S>,
    schema: &Schema,
    region: &Region,
    page: &mut RegionPage,
) -> Result<(), IndexFault>
    ensures noted { ((result ≡ Err (IndexFault.Store StoreFault.Memory))
        × (pager.new ≡ pager.old) × IsFull pager.old.trace)
        ⊎ Notes region.now.page pager.old.trace pager.new.trace }
    ensures read { ReadsAt schema.now region.now pager.old pager.new page.new result }
{
    pager.bring_region(region.page)?;
    take_region(pager, schema, region, page)
}

// Takes in what stands on the page of a region, which the pager holds. A page that is refused isn't held after it.
fn take_region<S: PageStore>(
    pager: &mut Pager<S>,
    schema: &Schema,
    region: &Region,
    page: &mut RegionPage,
) -> Result<(), IndexFault>
    requires { IsCached pager.old region.now.page }
    ensures { TakesIn schema.now region.now pager.old pager.new page.new result }
{
    match take_in(schema, region, pager.cached(region.page), page) {
        Ok(()) => Ok(()),
        Err(fault) => {
            pager.forget(region.page);
            Err(fault)
        }
    }
}

// The same of the bytes of that page.
fn take_in(
    schema: &Schema,
    region: &Region,
    bytes: &Page,
    page: &mut RegionPage,
) -> Result<(), IndexFault>
    ensures dims { OnOk result (page.new.dims ≡ schema.now.dims) }
    ensures found { OnOk result (IsRegion schema.now page.new.region
        × (bytes.now ≡ region_page schema.now page.new.region)) }
    ensures held { OnOk result
        (IsHeldBy schema.now.dims region.now.first region.now.next page.new.region) }
    ensures exact { (r : RegionRows) → IsRegion schema.now r
        → bytes.now ≡ region_page schema.now r
        → IsHeldBy schema.now.dims region.now.first region.now.next r
        → IsOk result × (page.new ≡ record { dims = schema.now.dims; region = r }) }
    ensures refused { IfErr result (IsRefusedAt schema.now region.now bytes.now) }
{
    page.fill(schema, bytes).map_err(|fault| IndexFault::Page {
        page: region.page,
        fault,
    })?;
    if is_held(page, &region.first, region.next) {
        Ok(())
    } else {
        Err(IndexFault::Page {
            page: region.page,
            fault: PageFault::OutOfRegion,
        })
    }
}

// Whether the page's region begins with this key, and the next one, if there is one, after its
// rows.
fn is_held(region: &RegionPage, first: &Key, next: Option<Key>) -> bool
    requires { AreKeysAscending (keys_of region.now.dims region.now.region.rows) }
    ensures { IsTrue result ↔ IsHeldBy region.now.dims first.now next region.now.region }
{
    if !is_equal(&region.first(), first) {
        return false;
    }
    match next {
        Some(next) => is_all_before(region, &next),
        None => true,
    }
}

// Whether the last of the page's rows, and so each of them, is before a key.
fn is_all_before(region: &RegionPage, key: &Key) -> bool
    requires { AreKeysAscending (keys_of region.now.dims region.now.region.rows) }
    ensures { IsTrue result ↔ AllByRecursion (λ k. IsBefore k key.now)
        (keys_of region.now.dims region.now.region.rows) }
{
    let len = region.len();
    len == 0 || region.key(len - 1).is_before(key)
}
