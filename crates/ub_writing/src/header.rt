ghost use Rattle.std.specs.Prelude.{◌≡◌, true};
ghost use Rattle.ub_page.specs.Header.{AreInRange, numbers_of};

use ub_page::Header;
use ub_table::Schema;

/// The header of a new table, which marks it as changed: one region, and an index of one level, the root of which is page 2.
pub fn first_header(schema: &Schema) -> Header
    ensures numbers { AreInRange (numbers_of result) }
    ensures unclean { result.unclean ≡ true }
    ensures schema { result.schema ≡ schema.now }
    ensures counts { (result.next ≡ 1) × (result.rows ≡ 0) × (result.regions ≡ 1) }
    ensures root { (result.root ≡ 2) × (result.levels ≡ 1) }
{
    Header {
        schema: schema.copy(),
        next: 1,
        rows: 0,
        regions: 1,
        root: 2,
        levels: 1,
        unclean: true,
    }
}
