// Opening an index that stands on a store, and making one of a single region.
ghost use Rattle.std.specs.Prelude.{◌≤◌};
ghost use Rattle.ub_index.specs.Opening.{CreatesIndex, OpensIndex};
ghost use Rattle.ub_index.specs.View.{index_view};
ghost use Rattle.ub_page.specs.declared.header.TheConstants.{MAX_LEVEL};

use crate::descent::{bring_root, root_place};
use crate::fault::IndexFault;
use crate::index::Index;
use ub_page::{Draft, write_index};
use ub_store::{PageStore, Pager, StoreFault};

impl Index {
    /// Opens the index whose root stands on this page, which isn't the store's first, and is of this level, 1 to 16, in a space
    /// with this last address. The root's page is read, if it isn't held, and no other.
    ///
    /// Page comes where that page is refused: by its reader; as BadCount where it is of another level; as OutOfRegion where it
    /// doesn't begin with the least key. Store with NoPage comes where there is no such page, with Device where the store
    /// failed in this call, with Memory where memory was refused.
    pub fn open<S: PageStore>(
        pager: &mut Pager<S>,
        root: u32,
        levels: u32,
        last: u128,
    ) -> Result<Index, IndexFault>
        requires some { 1 ≤ root }
        requires low { 1 ≤ levels }
        requires high { levels ≤ MAX_LEVEL }
        ensures { OpensIndex (index_view root levels last) pager.old pager.new result }
    {
        bring_root(pager, last, levels, root)?;
        Ok(Index::new(root, levels, last))
    }

    /// Makes an index of one region, which stands on the page `page` and begins with the least key, in a space with this last
    /// address: puts its root, of level 1, on the page `root`, which isn't the store's first. Device comes where the store
    /// failed in this call, and that page may then hold any bytes; NoPage where there is no such page.
    pub fn create<S: PageStore>(
        pager: &mut Pager<S>,
        root: u32,
        page: u32,
        last: u128,
    ) -> Result<Index, StoreFault>
        requires { 1 ≤ root }
        ensures { CreatesIndex root page last pager.old pager.new result }
    {
        let mut draft = Draft::new();
        write_index(&[root_place(page).entry], 1, &mut draft);
        pager.put(root, draft.page())?;
        Ok(Index::new(root, 1, last))
    }
}
