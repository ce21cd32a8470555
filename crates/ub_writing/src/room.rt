// The memory in which a region is changed, and its page put from there.
ghost use Rattle.std.specs.Prelude.{◌≡◌, ◌⊎◌, ◌≤◌, [], ◌∷◌, None, Ok, IfErr, IfSome, OnOk, IsErrOf};
ghost use Rattle.ub_region.specs.RegionPage.{region_page};
ghost use Rattle.ub_store.specs.Cache.{Renews};
ghost use Rattle.ub_store.specs.Facts.{page_count};
ghost use Rattle.ub_store.specs.View.{SameTrace};
ghost use Rattle.ub_store.specs.Writing.{WritesStore};
ghost use Rattle.ub_table.specs.Region.{IsRegion};
ghost use Rattle.ub_table.specs.declared.schema.Schema as schema_spec;
ghost use Rattle.ub_writing.specs.Marks.{IsMarkOf, Marks};
ghost use Rattle.ub_writing.specs.Puts.{IsPutPage, Puts, PutsTwo};
ghost use Rattle.ub_writing.specs.declared.mark.Mark.TheVariants.{Written};

use crate::mark::Mark;
use crate::order::{write_page, write_pages};
use std::alloc::{AllocError, Global};
use ub_page::{Draft, RegionPage};
use ub_store::{PageStore, Pager, StoreFault};
use ub_table::Schema;
use ub_zaddr::Shape;

/// Room for what a change of a table needs: the regions that it reads, and the pages that it writes.
#[derive(Drop)]
pub struct Room {
    /// The region that is changed.
    pub region: RegionPage,
    /// The right half of it, the one after it, or the one before it.
    pub other: RegionPage,
    /// The pages.
    pub drafts: Drafts,
}

/// The pages that a change writes, each spelled over what was spelled before.
#[derive(Drop)]
pub struct Drafts {
    /// That of a region that is changed.
    pub page: Draft,
    /// That of a new region.
    pub other: Draft,
}

/// The room that is kept, which is given back after use; or else such room from memory, in a box of its own, so that nothing of it
/// moves. None is kept then. What stands in the room isn't told: whoever takes it fills it.
pub fn take_room(
    kept: &mut Option<Box<Room>>,
    alloc: Global,
    shape: Shape,
) -> Result<Box<Room>, AllocError>
    ensures taken { kept.new ≡ None }
    ensures held { IfSome kept.old (λ room. result ≡ Ok room) }
{
    match kept.take() {
        Some(room) => Ok(room),
        None => new_room(alloc, shape),
    }
}

// Such room.
fn new_room(alloc: Global, shape: Shape) -> Result<Box<Room>, AllocError> {
    Ok(Box::new(
        alloc,
        Room {
            region: RegionPage::empty(shape),
            other: RegionPage::empty(shape),
            drafts: Drafts {
                page: Draft::new(),
                other: Draft::new(),
            },
        },
    )?)
}

/// Spells the page of a region and puts it in the place of that of this number, and before it the mark, where it is due: one of
/// some table.
///
/// Device comes where the store failed in this call, and NoPage where it has no such page.
pub fn put_region<S: PageStore>(
    pager: &mut Pager<S>,
    mark: &mut Mark,
    schema: &Schema,
    n: u32,
    region: &RegionPage,
    draft: &mut Draft,
) -> Result<(), StoreFault>
    requires mark { (of : schema_spec.Schema) × IsMarkOf of mark.old }
    requires region { IsRegion schema.now region.now.region }
    ensures put { OnOk result (Puts n (region_page schema.now region.now.region) pager.old.store
        pager.new.store) }
    ensures marks { Marks (n ∷ []) mark.old mark.new pager.old.store pager.new.store }
    ensures marked { OnOk result (mark.new ≡ Written) }
    ensures trace { SameTrace pager.old pager.new }
    ensures effect { WritesStore pager.old.store pager.new.store result }
    ensures missing { IsErrOf result StoreFault.NoPage → (page_count pager.old.store ≡ 0)
        ⊎ (page_count pager.old.store ≤ n) }
    ensures faults { IfErr result (λ fault. (fault ≡ StoreFault.Device)
        ⊎ (fault ≡ StoreFault.NoPage)) }
    ensures held { Renews (IsPutPage (region_page schema.now region.now.region ∷ []))
        pager.old.cached pager.new.cached }
{
    region.write(schema, draft);
    write_page(pager, mark, n, draft.page())
}

/// Spells the pages of the halves of a region and puts them in the places of those of these numbers: first that of the new one,
/// and then that of the old one; and before them the mark, where it is due: one of some table.
///
/// Device comes where the store failed in this call, and NoPage where it has no such page.
pub fn put_halves<S: PageStore>(
    pager: &mut Pager<S>,
    mark: &mut Mark,
    schema: &Schema,
    new: (u32, &RegionPage),
    old: (u32, &RegionPage),
    drafts: &mut Drafts,
) -> Result<(), StoreFault>
    requires mark { (of : schema_spec.Schema) × IsMarkOf of mark.old }
    requires new { IsRegion schema.now new.1.now.region }
    requires old { IsRegion schema.now old.1.now.region }
    ensures put { OnOk result
        (PutsTwo new.entry.0 (region_page schema.now new.entry.1.now.region) old.entry.0
        (region_page schema.now old.entry.1.now.region) pager.old.store pager.new.store) }
    ensures marks { Marks (new.entry.0 ∷ old.entry.0 ∷ []) mark.old mark.new pager.old.store
        pager.new.store }
    ensures marked { OnOk result (mark.new ≡ Written) }
    ensures trace { SameTrace pager.old pager.new }
    ensures effect { WritesStore pager.old.store pager.new.store result }
    ensures missing { IsErrOf result StoreFault.NoPage → (page_count pager.old.store ≡ 0)
        ⊎ ((page_count pager.old.store ≤ new.entry.0)
        ⊎ (page_count pager.old.store ≤ old.entry.0)) }
    ensures faults { IfErr result (λ fault. (fault ≡ StoreFault.Device)
        ⊎ (fault ≡ StoreFault.NoPage)) }
    ensures held { Renews (IsPutPage (region_page schema.now new.entry.1.now.region
        ∷ region_page schema.now old.entry.1.now.region ∷ [])) pager.old.cached pager.new.cached }
{
    new.1.write(schema, &mut drafts.other);
    old.1.write(schema, &mut drafts.page);
    write_pages(
        pager,
        mark,
        (new.0, drafts.other.page()),
        (old.0, drafts.page.page()),
    )
}
