// How a change is made in a store.
ghost use Rattle.std.specs.Prelude.{◌≡◌, ℕ, IfErr, OnOk};
ghost use Rattle.ub_index_change.specs.Calls.{Commits, GrowsBy};
ghost use Rattle.ub_store.specs.Writing.{put_store};
ghost use Rattle.ub_index_change.specs.Changing.{AreBelow, AreIndexPages, AreOnce, Stand};
ghost use Rattle.ub_index.specs.Held.{KeepsChecked};
ghost use Rattle.ub_index_change.specs.Making.{IsPutFault, PutsSheets};
ghost use Rattle.ub_store.specs.Facts.{IsHonest};
ghost use Rattle.ub_store.specs.View.{SameTrace};

use crate::change::Change;
use crate::sheet::Sheet;
use ub_index::Index;
use ub_store::{PageStore, Pager, StoreFault};

/// Gives the store so many pages more.
pub fn extend_by<S: PageStore>(pager: &mut Pager<S>, by: u32) -> Result<(), StoreFault>
    ensures { GrowsBy by pager.old pager.new result }
{
    let mut left = by;
    while left > 0 {
        pager.extend()?;
        left -= 1;
    }
    Ok(())
}

/// Makes a change, once the store has grown: puts the pages that it spells, and then takes over the root. Device comes
/// where the store failed in this call, NoPage where it has no page of that number, which it only can where it hasn't as many
/// as the change needs; the index is then as it was, and the pages that the change spells may hold any bytes.
pub fn commit<S: PageStore>(
    index: &mut Index,
    pager: &mut Pager<S>,
    change: &Change,
) -> Result<(), StoreFault>
    ensures { Commits change.now index.old index.new pager.old pager.new result }
{
    put_all(pager, change.sheets())?;
    let (root, levels) = change.root();
    *index = Index::new(root, levels, index.last());
    Ok(())
}

// Puts the pages that are spelled, one after the other.
fn put_all<S: PageStore>(pager: &mut Pager<S>, sheets: &[Sheet]) -> Result<(), StoreFault>
    ensures trace { SameTrace pager.old pager.new }
    ensures kept { PutsSheets sheets.now pager.old.store pager.new.store }
    ensures checked { (last : ℕ) → AreIndexPages last sheets.now
        → KeepsChecked last pager.old pager.new }
    ensures stand { AreOnce sheets.now → IsHonest pager.old.store
        → OnOk result (Stand pager.new.store.pages sheets.now) }
    ensures same { pager.new.store ≡ put_store result pager.old.store pager.new.store }
    ensures refused { (count : ℕ) → AreBelow count sheets.now
        → IfErr result (IsPutFault count sheets.now pager.old.store) }
{
    for sheet in sheets {
        pager.put(sheet.number, &sheet.page)?;
    }
    Ok(())
}
