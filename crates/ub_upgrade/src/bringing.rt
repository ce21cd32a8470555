// The header of an old table, and all its pages but the first.
ghost use Rattle.std.specs.Prelude.{◌≡◌, ◌≤◌, IfErr, IfOk, MatchResult, OnOk};
ghost use Rattle.ub_page.specs.Header.{IsOldHeader};
ghost use Rattle.ub_page.specs.declared.header.OldHeader as spec;
ghost use Rattle.ub_store.specs.Facts.{IsHonest, page_count};
ghost use Rattle.ub_upgrade.specs.Bringing.{BringsPages, HasOldHeader, IsHeadFault};
ghost use Rattle.ub_upgrade.specs.Building.{IsPassing};
ghost use Rattle.ub_upgrade.specs.Effects.{counted_old};

use crate::building::build_index;
use crate::copying::copy_pages;
use crate::fault::UpgradeFault;
use ub_laying::Root;
use ub_page::{OldHeader, read_old_header};
use ub_store::{Page, PageStore, Pager};

/// The header of an old table, which its first page holds. That page is read into the one that is lent.
///
/// Page comes where the reader refuses it, Old with NoPage where the store has no page, with Device where it failed in this call,
/// with Memory where it refused memory.
pub fn read_head<O: PageStore>(old: &mut O, page: &mut Page) -> Result<OldHeader, UpgradeFault>
    ensures header { IfOk result (HasOldHeader (O.facts old.old)) }
    ensures there { OnOk result (1 ≤ page_count (O.facts old.old)) }
    ensures exact { (head : spec.OldHeader) → IsHonest (O.facts old.old)
        → HasOldHeader (O.facts old.old) head
        → MatchResult result (λ read. read ≡ head) IsPassing }
    ensures refused { IfErr result (IsHeadFault (O.facts old.old)) }
    ensures effect { O.facts old.new ≡ record (O.facts old.old) {
      failed_reads = counted_old result (O.facts old.old).failed_reads;
    } }
{
    old.read_into(0, page).map_err(UpgradeFault::Old)?;
    match read_old_header(page) {
        Ok(head) => Ok(head),
        Err(fault) => Err(UpgradeFault::Page { page: 0, fault }),
    }
}

/// Copies all pages of the old store but the first to the new one, which has its first page already, and then finds the root of
/// the index: that of which the header tells, and in version 1 that of one that is built of the directory, whose pages are the only
/// ones that the new store has more.
///
/// The faults are those of `copy_pages` and `build_index`. The first page of the new store is as it was, also after a fault.
pub fn bring_pages<O: PageStore, S: PageStore>(
    old: &mut O,
    pager: &mut Pager<S>,
    head: &OldHeader,
    page: &mut Page,
) -> Result<Root, UpgradeFault>
    requires head { IsOldHeader head.now }
    requires some { 1 ≤ page_count (O.facts old.old) }
    requires one { page_count pager.old.store ≡ 1 }
    ensures { BringsPages head.now (O.facts old.old) (O.facts old.new) pager.old pager.new
        result }
{
    copy_pages(old, pager, page)?;
    let header = &head.header;
    if head.version != 1 {
        return Ok(Root {
            page: header.root,
            level: header.levels,
        });
    }
    build_index(
        old,
        pager,
        &header.schema,
        header.root,
        header.regions,
        page,
    )
}
