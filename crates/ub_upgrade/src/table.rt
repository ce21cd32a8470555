// A table of an older format, over a new store. First the header of the old one is read, and the new store is marked as changed; then
// all other pages are brought over, and the index that stands there then is opened.
ghost use Rattle.std.specs.Prelude.{◌≡◌, ◌≤◌, ◌⊎◌, List, IfErr, IfOk, MatchResult, OnErr};
ghost use Rattle.ub_page.specs.declared.header.OldHeader as head_spec;
ghost use Rattle.ub_page.specs.declared.header.TheConstants.{MAX_LEVEL};
ghost use Rattle.ub_region.specs.declared.entry.Entry as spec;
ghost use Rattle.ub_store.specs.Facts.{IsHonest, page_count};
ghost use Rattle.ub_table.specs.declared.schema.Schema as schema_spec;
ghost use Rattle.ub_upgrade.specs.Bringing.{HasOldHeader};
ghost use Rattle.ub_upgrade.specs.Building.{IsPassing};
ghost use Rattle.ub_upgrade.specs.Table.{BringsTable, CanBring, IsMade, IsMadeOf, IsTableFault};
ghost use Rattle.ub_upgrade.specs.inner.Table.{OpensRoot};
ghost use Rattle.ub_writing.specs.Marks.{HasMark};
ghost use Rattle.ub_zaddr.specs.Address.{last_address};

use crate::bringing::{bring_pages, read_head};
use crate::fault::UpgradeFault;
use std::alloc::Global;
use ub_index::{Index, IndexFault};
use ub_laying::Root;
use ub_page::OldHeader;
use ub_store::{PageStore, Pager, StoreFault, new_page};
use ub_table::Schema;
use ub_writing::write_mark;
use ub_zaddr::last;

/// Brings a table of an older format over to a new store that has no pages: its regions stand on pages of the same numbers, behind a
/// first page that marks the table as changed. The header that was read, and the index that stands there now, are the result; of
/// that the root's page alone was read.
///
/// The faults are those of `read_head` and `bring_pages`, and where the root of the index is refused Page, or New with NoPage. Memory
/// comes with the store for which it was refused, Device with the one that failed in this call.
pub fn bring_table<O: PageStore, S: PageStore>(
    alloc: Global,
    old: &mut O,
    pager: &mut Pager<S>,
) -> Result<(OldHeader, Index), UpgradeFault>
    requires none { page_count pager.old.store ≡ 0 }
    ensures made { IfOk result
        (λ made. IsMade (O.facts old.old) pager.old pager.new made.0 made.1) }
    ensures exact { (head : head_spec.OldHeader) (entries : List spec.Entry)
        → IsHonest (O.facts old.old) → IsHonest pager.old.store
        → HasOldHeader (O.facts old.old) head
        → CanBring head (O.facts old.old).pages entries
        → MatchResult result (λ made. IsMadeOf head (O.facts old.old) pager.new.store.pages entries
        made.0 made.1) IsPassing }
    ensures unopened { IsHonest pager.old.store
        → OnErr result ((page_count pager.new.store ≤ 1)
        ⊎ ((schema : schema_spec.Schema) × HasMark schema pager.new.store.pages)) }
    ensures refused { IfErr result (IsTableFault (O.facts old.old) pager.old.store) }
    ensures effect { BringsTable (O.facts old.old) (O.facts old.new) pager.old pager.new result }
{
    let Ok(mut page) = new_page(alloc) else {
        return Err(UpgradeFault::New(StoreFault::Memory));
    };
    let head = read_head(old, &mut page)?;
    write_mark(pager, &head.header.schema).map_err(UpgradeFault::New)?;
    let root = bring_pages(old, pager, &head, &mut page)?;
    let index = open_root(pager, &root, &head.header.schema)?;
    Ok((head, index))
}

// Opens the index of this root.
fn open_root<S: PageStore>(
    pager: &mut Pager<S>,
    root: &Root,
    schema: &Schema,
) -> Result<Index, UpgradeFault>
    requires some { 1 ≤ root.now.page }
    requires low { 1 ≤ root.now.level }
    requires high { root.now.level ≤ MAX_LEVEL }
    ensures { OpensRoot (last_address schema.now.dims) root.now pager.old pager.new result }
{
    match Index::open(pager, root.page, root.level, last(schema.shape())) {
        Ok(index) => Ok(index),
        Err(IndexFault::Page { page, fault }) => Err(UpgradeFault::Page { page, fault }),
        Err(IndexFault::Store(fault)) => Err(UpgradeFault::New(fault)),
        Err(IndexFault::Full) => unreachable!(),
    }
}
