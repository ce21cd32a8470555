// Pages of the old store, copied to the new one.
ghost use Rattle.std.specs.Prelude.{◌≡◌, max, IfErr, OnOk};
ghost use Rattle.ub_store.specs.Facts.{IsHonest, page_count};
ghost use Rattle.ub_upgrade.specs.Building.{AreCopied, IsCopyFault};
ghost use Rattle.ub_upgrade.specs.Effects.{BringsOver};

use crate::fault::UpgradeFault;
use ub_laying::add_page;
use ub_store::{Page, PageStore, Pager};

/// Copies all pages of the old store but the first to the new one, which has its first page already, each under its own number.
/// The page that is lent takes one after the other.
///
/// Old with Device comes where the old store failed in this call, with Memory where it refused memory, New the same of the new
/// store. The first page of the new one is as it was, also after a fault, and others may stand after it.
pub fn copy_pages<O: PageStore, S: PageStore>(
    old: &mut O,
    pager: &mut Pager<S>,
    page: &mut Page,
) -> Result<(), UpgradeFault>
    requires { page_count pager.old.store ≡ 1 }
    ensures copied { IsHonest (O.facts old.old) → IsHonest pager.old.store
        → OnOk result (AreCopied (O.facts old.old).pages pager.new.store.pages) }
    ensures count { OnOk result
        (page_count pager.new.store ≡ max 1 (page_count (O.facts old.old))) }
    ensures refused { IfErr result (IsCopyFault (O.facts old.old) pager.old.store) }
    ensures effect { BringsOver (O.facts old.old) (O.facts old.new) pager.old pager.new result }
{
    for n in 1..old.pages() {
        old.read_into(n, page).map_err(UpgradeFault::Old)?;
        add_page(pager, page).map_err(UpgradeFault::New)?;
    }
    Ok(())
}
