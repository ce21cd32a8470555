// The pager over the store of a table.
ghost use Rattle.std.specs.Prelude.{◌≡◌, IfOk, IfErr};
ghost use Rattle.ub_store.specs.View.{pager_view, untouched};

use std::alloc::Global;
use std::num::NonZeroUsize;
use ub_store::{PageStore, Pager, Rejected};

// How many pages the cache of a table holds.
const CACHE_PAGES: usize = 64;

/// A pager over the store, with the cache of a table. Where memory is refused the store is handed back, with this fault.
pub fn pager_over<S: PageStore, F: Copy>(
    alloc: Global,
    store: S,
    fault: F,
) -> Result<Pager<S>, Rejected<S, F>>
    ensures made { IfOk result (λ pager. pager ≡ pager_view (S.facts store) untouched) }
    ensures refused { IfErr result (λ refused. (refused.store ≡ store)
        × (refused.fault ≡ fault)) }
{
    let cache = NonZeroUsize::new(CACHE_PAGES).unwrap();
    match Pager::new(alloc, store, cache) {
        Ok(pager) => Ok(pager),
        Err(refused) => Err(Rejected {
            store: refused.store,
            fault,
        }),
    }
}
