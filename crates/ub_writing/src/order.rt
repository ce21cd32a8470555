// In which order the pages of a table go out.
//
// A table: first the header, marked as changed (`write_mark`), and then the page of its one region; that of the index's root, which names it, is the
// tree's to put.
// A change: first the header, marked as changed, unless it is marked already: a table of which any other page was written is not
// opened until it is closed again. Where a region is split, the page of the new region comes next, and then that of the old one,
// which holds all their rows until it is written; where two are joined, the page that takes the rows of both. Those of the index come
// after them, put by `ub_index_change`, so that none of them names a page that does not stand yet.
// Closing: a sync; the clean header; and a sync. So what the header that lasts tells of lasts.

ghost use Rattle.std.specs.Prelude.{◌≡◌, ◌⊎◌, ◌<◌, ◌≤◌, [], ◌∷◌, false, IfErr, OnOk, OnErr, IsErrOf};
ghost use Rattle.ub_page.specs.Header.{AreInRange, IsHeader, header_page, numbers_of};
ghost use Rattle.ub_region.specs.RegionPage.{only_region, region_on, region_page};
ghost use Rattle.ub_store.specs.Cache.{Renews};
ghost use Rattle.ub_store.specs.Facts.{page_count, IsHonest, WritesAt};
ghost use Rattle.ub_store.specs.View.{SameTrace};
ghost use Rattle.ub_store.specs.Writing.{WritesStore, put_store};
ghost use Rattle.ub_writing.specs.Closing.{IsClosed, IsSaveFault, IsSaved, IsUnclosed};
ghost use Rattle.ub_writing.specs.Creation.{IsLaidOut, IsLayoutFault, IsUncreated};
ghost use Rattle.ub_table.specs.declared.schema.Schema.{Schema};
ghost use Rattle.ub_writing.specs.Marks.{HasMark, IsMarkOf, Marks};
ghost use Rattle.ub_writing.specs.Puts.{IsPutPage, Puts, PutsTwo};
ghost use Rattle.ub_writing.specs.declared.mark.Mark.TheVariants.{Written};

use crate::header::first_header;
use crate::mark::Mark;
use ub_page::{Draft, Header, Page, write_header, write_region};
use ub_region::ORIGIN;
use ub_store::{PageStore, Pager, StoreFault};
use ub_table::Schema;

/// Three pages: first the header, marked unclean, and then the empty region, and one of zeros.
///
/// Memory comes where memory was refused, and Device where the store failed in this call.
pub fn write_first_pages<S: PageStore>(
    pager: &mut Pager<S>,
    schema: &Schema,
) -> Result<(), StoreFault>
    requires { page_count pager.old.store ≡ 0 }
    ensures count { OnOk result (page_count pager.new.store ≡ 3) }
    ensures pages { OnOk result (IsHonest pager.old.store
        → IsLaidOut schema.now pager.new.store.pages) }
    ensures first { OnErr result (IsHonest pager.old.store
        → IsUncreated schema.now pager.new.store) }
    ensures trace { SameTrace pager.old pager.new }
    ensures left { pager.new.store ≡ put_store result pager.old.store pager.new.store }
    ensures refused { IfErr result (IsLayoutFault pager.old.store) }
    ensures held { Renews (IsPutPage (region_page schema.now only_region ∷ []))
        pager.old.cached pager.new.cached }
{
    write_mark(pager, schema)?;
    pager.extend()?;
    pager.extend()?;
    let mut draft = Draft::new();
    pager.put(1, write_empty(schema, &mut draft))?;
    Ok(())
}

/// The first page of a store that has none: a header of this schema, marked unclean.
///
/// Memory comes where memory was refused, and Device where the store failed in this call.
pub fn write_mark<S: PageStore>(pager: &mut Pager<S>, schema: &Schema) -> Result<(), StoreFault>
    requires { page_count pager.old.store ≡ 0 }
    ensures count { OnOk result (page_count pager.new.store ≡ 1) }
    ensures marked { OnOk result (IsHonest pager.old.store
        → HasMark schema.now pager.new.store.pages) }
    ensures first { OnErr result (page_count pager.new.store ≤ 1) }
    ensures trace { SameTrace pager.old pager.new }
    ensures left { pager.new.store ≡ put_store result pager.old.store pager.new.store }
    ensures refused { IfErr result (IsLayoutFault pager.old.store) }
    ensures held { Renews (IsPutPage []) pager.old.cached pager.new.cached }
{
    pager.extend()?;
    put_header(pager, &first_header(schema))
}

// Spells the page of a region of no rows, which begins with the least key of all.
fn write_empty<'a>(schema: &Schema, draft: &'a mut Draft) -> &'a Page
    ensures page { result.now ≡ region_page schema.now only_region }
    ensures reads_back { region_on schema.now result.now ≡ only_region }
{
    write_region(schema, ORIGIN, &[], draft);
    draft.page()
}

/// Puts two pages in their places, and before them the mark, where it is due: one of some table.
///
/// Device comes where the store failed in this call, and NoPage where it has no such page.
pub fn write_pages<S: PageStore>(
    pager: &mut Pager<S>,
    mark: &mut Mark,
    first: (u32, &Page),
    second: (u32, &Page),
) -> Result<(), StoreFault>
    requires { (schema : Schema) × IsMarkOf schema mark.old }
    ensures put { OnOk result (PutsTwo first.entry.0 first.entry.1.now second.entry.0
        second.entry.1.now pager.old.store pager.new.store) }
    ensures marks { Marks (first.entry.0 ∷ second.entry.0 ∷ []) mark.old mark.new pager.old.store
        pager.new.store }
    ensures marked { OnOk result (mark.new ≡ Written) }
    ensures trace { SameTrace pager.old pager.new }
    ensures effect { WritesStore pager.old.store pager.new.store result }
    ensures missing { IsErrOf result StoreFault.NoPage → (page_count pager.old.store ≡ 0)
        ⊎ (page_count pager.old.store ≤ first.entry.0)
        ⊎ (page_count pager.old.store ≤ second.entry.0) }
    ensures faults { IfErr result (λ fault. (fault ≡ StoreFault.Device)
        ⊎ (fault ≡ StoreFault.NoPage)) }
    ensures held { Renews (IsPutPage (first.entry.1.now ∷ second.entry.1.now ∷ []))
        pager.old.cached pager.new.cached }
{
    write_page(pager, mark, first.0, first.1)?;
    write_page(pager, mark, second.0, second.1)
}

/// Puts a page in the place of that of this number, and before it the mark, where it is due: one of some table.
///
/// Device comes where the store failed in this call, and NoPage where it has no such page.
pub fn write_page<S: PageStore>(
    pager: &mut Pager<S>,
    mark: &mut Mark,
    n: u32,
    page: &Page,
) -> Result<(), StoreFault>
    requires { (schema : Schema) × IsMarkOf schema mark.old }
    ensures put { OnOk result (Puts n page.now pager.old.store pager.new.store) }
    ensures marks { Marks (n ∷ []) mark.old mark.new pager.old.store pager.new.store }
    ensures marked { OnOk result (mark.new ≡ Written) }
    ensures trace { SameTrace pager.old pager.new }
    ensures effect { WritesStore pager.old.store pager.new.store result }
    ensures missing { IsErrOf result StoreFault.NoPage → (page_count pager.old.store ≡ 0)
        ⊎ (page_count pager.old.store ≤ n) }
    ensures faults { IfErr result (λ fault. (fault ≡ StoreFault.Device)
        ⊎ (fault ≡ StoreFault.NoPage)) }
    ensures held { Renews (IsPutPage (page.now ∷ [])) pager.old.cached pager.new.cached }
{
    if let Mark::Due(first) = mark {
        put_header(pager, first)?;
        *mark = Mark::Written;
    }
    pager.put(n, page)
}

/// Makes what was put last, and then writes this header, which is clean, and makes that last too.
///
/// Device comes where the store failed in this call, and NoPage where it has no page.
pub fn write_table<S: PageStore>(pager: &mut Pager<S>, header: &Header) -> Result<(), StoreFault>
    requires range { AreInRange (numbers_of header.now) }
    requires clean { header.now.unclean ≡ false }
    ensures closed { IsHonest pager.old.store
        → OnOk result (IsClosed header.now pager.old.store pager.new.store) }
    ensures left { IsHonest pager.old.store
        → OnErr result (IsUnclosed pager.old.store pager.new.store) }
    ensures saved { OnOk result (IsSaved pager.old.store pager.new.store) }
    ensures same { pager.new.store ≡ put_store result pager.old.store pager.new.store }
    ensures refused { IfErr result (IsSaveFault pager.old.store) }
{
    pager.sync()?;
    put_header(pager, header)?;
    pager.sync()
}

// Puts the page of a header in the first place.
fn put_header<S: PageStore>(pager: &mut Pager<S>, header: &Header) -> Result<(), StoreFault>
    requires { AreInRange (numbers_of header.now) }
    ensures header { IsHeader header.now }
    ensures trace { SameTrace pager.old pager.new }
    ensures there { OnOk result (0 < page_count pager.old.store) }
    ensures missing { IsErrOf result StoreFault.NoPage → page_count pager.old.store ≤ 0 }
    ensures faults { IfErr result (λ fault. (fault ≡ StoreFault.Device)
        ⊎ (fault ≡ StoreFault.NoPage)) }
    ensures effect { WritesAt 0 (header_page header.now) pager.old.store pager.new.store result }
    ensures held { Renews (IsPutPage []) pager.old.cached pager.new.cached }
{
    let mut draft = Draft::new();
    write_header(header, &mut draft);
    pager.put(0, draft.page())
}
