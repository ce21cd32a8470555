// The pages of regions, one after the other.
ghost use Rattle.std.specs.Prelude.{◌≡◌, ◌+◌, ◌++◌, length, map, OnOk};
ghost use Rattle.std.specs.List.{AllByRecursion};
ghost use Rattle.ub_laying.specs.Effects.{Adds};
ghost use Rattle.ub_region.specs.RegionPage.{region_page};
ghost use Rattle.ub_store.specs.Facts.{IsHonest, page_count};
ghost use Rattle.ub_table.specs.Region.{IsRegion};

use crate::adding::add_page;
use ub_growing::Grown;
use ub_page::{Draft, write_region};
use ub_store::{PageStore, Pager, StoreFault};
use ub_table::Schema;

/// Adds a page for each region, in their order.
pub fn write_regions<S: PageStore>(
    pager: &mut Pager<S>,
    schema: &Schema,
    grown: &Grown,
) -> Result<(), StoreFault>
    requires { AllByRecursion (IsRegion schema.now) grown.now }
    ensures count { OnOk result
        (page_count pager.new.store ≡ page_count pager.old.store + length grown.now) }
    ensures pages { IsHonest pager.old.store → OnOk result
        (pager.new.store.pages ≡ pager.old.store.pages ++ map (region_page schema.now) grown.now) }
    ensures effect { Adds (length grown.now) pager.old pager.new result }
{
    let mut draft = Draft::new();
    for i in 0..grown.len() {
        write_region(schema, grown.first(i), grown.rows(i), &mut draft);
        add_page(pager, draft.page())?;
    }
    Ok(())
}
