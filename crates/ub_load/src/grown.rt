//! A CSV text as a table that is read before any store is there.

ghost use Rattle.std.specs.Prelude.{◌≡◌, ℕ, List, Option, [], Some, IfErr, IfOk};
ghost use Rattle.ub_laying.specs.Begun.{CanLay};
ghost use Rattle.ub_load.specs.Grown.{LaysGrown, ReadsFrom};
ghost use Rattle.ub_load.specs.LoadedTable.{axes_with};
ghost use Rattle.ub_load.specs.inner.Progress.{AreFirstRows, IsGrownOf};
ghost use Rattle.ub_load.specs.inner.Records.{IsAt};
ghost use Rattle.ub_table.specs.Schema.{AreTableNumbers, IsMask};

use crate::fault::LoadFault;
use crate::last::{LastRead, Watched};
use crate::reading::reader_of;
use crate::table::{load_records, read_header};
use csv::{ByteRecord, Reader};
use std::alloc::Global;
use std::io::Read;
use ub_growing::{Grown, grow};
use ub_laying::GrownStore;
use ub_table::{Axes, Row, Schema};
use ub_tree::{Begun, Tree};

/// A table that was read of a text: what it is made of, the regions of its rows, and the number that its next row gets.
#[derive(Drop)]
pub struct GrownTable {
    pub schema: Schema,
    pub grown: Grown,
    pub next: u32,
}

/// Reads the table of this name that the text of a source holds, as `load` does, into the regions that its rows make which are put in
/// one after the other. No store is asked for: it can be laid over one later. The text is read as it comes, and not held: record after
/// record, and nothing after one that is refused. The error is the first thing that is wrong, as of `load` over a store that never fails.
/// `Csv` is told where a read fails, too: the source knows whether one did. Where nothing is known of what the source gives, the answer is
/// that for some text. The header and the record that was read last are left in `last`, with why no more was read.
pub fn read_table<R: Read + Drop>(
    alloc: Global,
    source: R,
    dims: u32,
    page_rows: u32,
    name: &[u8],
    signed: u32,
    last: &mut LastRead,
) -> Result<GrownTable, LoadFault>
    requires numbers { AreTableNumbers dims page_rows }
    requires mask { IsMask dims signed }
    ensures { ReadsFrom (R.remaining source) (axes_with dims signed) page_rows name.now result }
{
    let mut reader = reader_of(alloc, Watched::over(alloc, source));
    let read = read_grown(
        alloc,
        &mut reader,
        &mut last.header,
        &mut last.row,
        Axes { dims, signed },
        page_rows,
        name,
    );
    last.note(&reader, &read);
    read
}

// Reads the table of this name that a reader's text holds, from its header on. Each record after that is read into the place of the one
// before.
fn read_grown<R: Read>(
    alloc: Global,
    reader: &mut Reader<R>,
    header: &mut ByteRecord,
    fields: &mut ByteRecord,
    axes: Axes,
    page_rows: u32,
    name: &[u8],
) -> Result<GrownTable, LoadFault>
    requires numbers { AreTableNumbers axes.dims page_rows }
    requires mask { IsMask axes.dims axes.signed }
    ensures { (known : Option (List ℕ))
        → ((text : List ℕ) → known ≡ Some text → IsAt R.remaining text [] reader.old)
        → ReadsFrom known axes page_rows name.now result }
{
    let schema = read_header(reader, header, axes, page_rows, name)?;
    let rows = load_records(alloc, reader, fields, &schema)?;
    grow_table(alloc, schema, rows)
}

// The table of this schema with these rows, which were put in one after the other.
fn grow_table(alloc: Global, schema: Schema, rows: Vec<Row>) -> Result<GrownTable, LoadFault>
    requires { AreFirstRows schema rows.items }
    ensures grown { IfOk result (IsGrownOf schema rows.items) }
    ensures refused { IfErr result (λ fault. fault ≡ LoadFault.Memory) }
{
    let next = rows.len() as u32 + 1;
    let page_rows = schema.page_rows() as usize;
    let grown = grow(alloc, schema.shape(), page_rows, rows)?;
    Ok(GrownTable {
        schema,
        grown,
        next,
    })
}

/// Lays a table that was read over a store of its own in memory, where the page of a region is spelled when it is asked for: the tree
/// holds no more in memory than the table and the pages of its index. Memory comes where memory was refused, and no other fault does.
pub fn lay_table<'a>(
    alloc: Global,
    table: &'a GrownTable,
) -> Result<Tree<GrownStore<'a>>, LoadFault>
    requires { CanLay table.now.schema table.now.next table.now.grown }
    ensures { LaysGrown table.now result }
{
    let store = GrownStore::over(alloc, &table.schema, &table.grown);
    // The store fails only where memory is refused.
    let Ok(begun) = Begun::begin(alloc, store, &table.schema) else {
        return Err(LoadFault::Memory);
    };
    match Tree::lay(alloc, begun, &table.grown, table.next) {
        Ok(tree) => Ok(tree),
        Err(_) => Err(LoadFault::Memory),
    }
}
