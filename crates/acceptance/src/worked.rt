// The worked table of five rows, which has three regions with two rows a page, and worked statements on it; and scripts over any table.
ghost use Rattle.std.specs.Prelude.{◌≡◌};
ghost use Rattle.ub_store.specs.Facts.{page_count};

use std::alloc::Global;
use ub_load::{LoadFault, load};
use ub_script::{Over, RunFault, Summary, run};
use ub_store::PageStore;
use ub_tree::Tree;

pub(crate) const DATA: &[u8] = b"x,y,m\n1,1,10\n2,3,20\n3,0,5\n0,2,7\n2,3,1\n";

// The first statement asks the last region, the second one none, the third the first and the last one. The fourth is refused at
// its `y`, which is byte 138 of the script. The fifth asks all three, and so do the others.
pub(crate) const SCRIPT: &[u8] = b"SELECT COUNT(*), SUM(m) FROM t WHERE x > 9;
EXPLAIN SELECT * FROM t WHERE x <= 2 OR y >= 2;
SELECT x, y FROM t ORDER BY x LIMIT 1;
SELECT y, SUM(m) FROM t GROUP BY x;
SELECT x, SUM(m) FROM t GROUP BY x;
SELECT x, m FROM t WHERE x >= 2 AND m > 4 ORDER BY m DESC;
SELECT * FROM t WHERE x BETWEEN 2 AND 3;
";

// The texts of its statements.
pub(crate) static TEXTS: [&str; 7] = [
    "COUNT(*),SUM(m)\n0,NULL\n-- rows 1, pages 1\n",
    "plan scan\ncover exact\nfilter no\nbox x 0..2, y 0..4294967295\n\
        box x 3..4294967295, y 2..4294967295\npoints 18446744065119617030\nregions 3 of 3\n",
    "x,y\n0,2\n-- rows 1, pages 2\n",
    "! NotGrouped at 138\n",
    "x,SUM(m)\n0,7\n1,10\n2,21\n3,5\n-- rows 4, pages 3\n",
    "x,m\n2,20\n3,5\n-- rows 2, pages 3\n",
    "x,y,m\n2,3,20\n3,0,5\n2,3,1\n-- rows 3, pages 3\n",
];

// The worked table in a store that has no pages.
pub(crate) fn table<S: PageStore>(alloc: Global, store: S) -> Result<Tree<S>, LoadFault>
    requires { page_count (S.facts store) ≡ 0 }
{
    load(alloc, DATA, 2, 2, b"t", 0, store)
}

// The same, closed.
pub(crate) fn closed<S: PageStore>(alloc: Global, store: S) -> Option<S>
    requires { page_count (S.facts store) ≡ 0 }
{
    let made = table(alloc, store).ok()?;
    made.close().ok()
}

// Whether these bytes are texts, one after the other.
pub(crate) fn are(bytes: &[u8], texts: &[&str]) -> bool {
    let mut rest = bytes;
    for text in texts {
        match rest.strip_prefix(text.as_bytes()) {
            Some(after) => rest = after,
            None => return false,
        }
    }
    rest.is_empty()
}

// How a script over a tree ends, if it writes these texts, one after the other, and no more.
pub(crate) fn ended<S: PageStore>(
    alloc: Global,
    tree: &mut Tree<S>,
    script: &[u8],
    texts: &[&str],
) -> Option<Result<Summary, RunFault>> {
    let mut out = Over::new(Vec::new(alloc));
    let end = run(alloc, tree, script, &mut out);
    are(out.into_inner().as_slice(), texts).then_some(end)
}
