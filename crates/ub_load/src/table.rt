//! A whole CSV text as a table in a UB-tree.

ghost use Rattle.std.specs.Prelude.{◌≡◌, ◌≤◌, ◌+◌, ℕ, List, Option, [], Some, IfOk, IfErr, length};
ghost use Rattle.csv.specs.Records.{fields_of};
ghost use Rattle.ub_laying.specs.Begun.{IsBegun};
ghost use Rattle.ub_load.specs.Calls.{Loads, LoadsFrom};
ghost use Rattle.ub_load.specs.LoadedTable.{axes_with};
ghost use Rattle.ub_load.specs.LoadedTree.{loaded_regions};
ghost use Rattle.ub_load.specs.Loading.{IsNewFault};
ghost use Rattle.ub_load.specs.inner.Calls.{Reads};
ghost use Rattle.ub_load.specs.inner.Progress.{AreFirstRows, HasLoadedRecords, HasReadHeader, IsHeaderFault, IsRecordsFault, IsRowOf, record_refusal};
ghost use Rattle.ub_load.specs.inner.Records.{IsAt};
ghost use Rattle.ub_store.specs.Facts.{page_count};
ghost use Rattle.ub_table.specs.Schema.{AreTableNumbers, IsMask};
ghost use Rattle.ub_table.specs.declared.row.TheConstants.{MAX_ROW_NUMBER};
ghost use Rattle.ub_tree.specs.Laid.{IsLaid};

use crate::fault::LoadFault;
use crate::header::read_schema;
use crate::reading::{read_record, reader_of};
use crate::row::read_row;
use csv::{ByteRecord, Reader};
use std::alloc::Global;
use std::io::Read;
use ub_growing::grow;
use ub_store::PageStore;
use ub_table::{Axes, MAX_ROW_NUMBER, Row, Schema};
use ub_tree::{Begun, Tree, TreeFault};

/// Loads the table of this name that a CSV text holds into a new tree over this store, which has no pages: the first record
/// is the header, whose first `dims` columns are the dimensions and whose others are the measures, and each record after it
/// is a row, with the numbers from 1. The regions are those that rows make which are put in one after the other; no page of
/// them is written before all rows are read. `page_rows` is how many rows a region's page holds, and bit i of `signed` says that
/// dimension i is signed. Records are read as `csv` reads them with its defaults; spaces at the ends of a field are no part of it.
///
/// The error is the first thing that is wrong, in the order of the text: `NoHeader`, `ColumnCount`, `BadName`, and then for
/// each row `Csv` for a length other than the header's, `BadNumber` or `OutOfRange`, and `Tree` with `Full`. `Csv` comes only
/// where `csv` refused a record, which is also where reading failed, `Memory` only where memory was refused, and `Tree` with
/// another fault only from the store: `Device` where it failed (never where it can't fail), and `NoPage`, a page's fault or
/// `Full` where it isn't honest. It never is `BadSize`, since a store has room for eighteen times as many pages as a table can
/// have rows. With each refusal the store is dropped, and the rows in it. Where a table is loaded no call of the store has failed.
pub fn load<S: PageStore>(
    alloc: Global,
    text: &[u8],
    dims: u32,
    page_rows: u32,
    name: &[u8],
    signed: u32,
    store: S,
) -> Result<Tree<S>, LoadFault>
    requires numbers { AreTableNumbers dims page_rows }
    requires mask { IsMask dims signed }
    requires empty { page_count (S.facts store) ≡ 0 }
    ensures { Loads text.now (axes_with dims signed) page_rows name.now (S.facts store) result }
{
    load_from(alloc, text, dims, page_rows, name, signed, store)
}

/// The same of the text that a source gives, which is read as it is loaded, and not held: record after record, and nothing after one
/// that is refused. So what comes first in the text is told, a refused record before a read that fails. `Csv` is told where a read fails, too:
/// the source knows whether one did. Where nothing is known of what the source gives, the answer is that for some text.
pub fn load_from<R: Read + Drop, S: PageStore>(
    alloc: Global,
    source: R,
    dims: u32,
    page_rows: u32,
    name: &[u8],
    signed: u32,
    store: S,
) -> Result<Tree<S>, LoadFault>
    requires numbers { AreTableNumbers dims page_rows }
    requires mask { IsMask dims signed }
    requires empty { page_count (S.facts store) ≡ 0 }
    ensures { LoadsFrom (R.remaining source) (axes_with dims signed) page_rows name.now
        (S.facts store) result }
{
    let mut reader = reader_of(alloc, source);
    // Each record is read into the place of the one before.
    let mut fields = ByteRecord::new(alloc);
    load_all(
        alloc,
        &mut reader,
        &mut fields,
        Axes { dims, signed },
        page_rows,
        name,
        store,
    )
}

// Loads the table of this name that a reader's text holds, from its header on.
fn load_all<R: Read, S: PageStore>(
    alloc: Global,
    reader: &mut Reader<R>,
    fields: &mut ByteRecord,
    axes: Axes,
    page_rows: u32,
    name: &[u8],
    store: S,
) -> Result<Tree<S>, LoadFault>
    requires numbers { AreTableNumbers axes.dims page_rows }
    requires mask { IsMask axes.dims axes.signed }
    requires empty { page_count (S.facts store) ≡ 0 }
    ensures { (known : Option (List ℕ))
        → ((text : List ℕ) → known ≡ Some text → IsAt R.remaining text [] reader.old)
        → LoadsFrom known axes page_rows name.now (S.facts store) result }
{
    let schema = read_header(reader, fields, axes, page_rows, name)?;
    let begun = begin_table(alloc, store, &schema)?;
    let rows = load_records(alloc, reader, fields, &schema)?;
    lay_rows(alloc, begun, rows)
}

/// The schema of a table of this name whose columns are the fields of the first record, or why there is none.
pub(crate) fn read_header<R: Read>(
    reader: &mut Reader<R>,
    fields: &mut ByteRecord,
    axes: Axes,
    page_rows: u32,
    name: &[u8],
) -> Result<Schema, LoadFault>
    requires numbers { AreTableNumbers axes.dims page_rows }
    requires mask { IsMask axes.dims axes.signed }
    ensures read { IfOk result
        (HasReadHeader R.remaining axes page_rows name.now reader.old reader.new) }
    ensures refused { IfErr result (IsHeaderFault R.remaining axes name.now reader.old) }
{
    if !read_record(reader, fields)? {
        return Err(LoadFault::NoHeader);
    }
    read_schema(fields, axes, page_rows, name)
}

// A table of this schema, begun over a store. Where it is refused the store is dropped.
fn begin_table<S: PageStore>(
    alloc: Global,
    store: S,
    schema: &Schema,
) -> Result<Begun<S>, LoadFault>
    requires { page_count (S.facts store) ≡ 0 }
    ensures begun { IfOk result (λ begun. IsBegun (S.facts store) schema.now begun) }
    ensures refused { IfErr result (IsNewFault (S.facts store)) }
{
    match Begun::begin(alloc, store, schema) {
        Ok(begun) => Ok(begun),
        Err(refused) => Err(LoadFault::from(TreeFault::from(refused.fault))),
    }
}

/// The rows of all other records, for a table of this schema.
pub(crate) fn load_records<R: Read>(
    alloc: Global,
    reader: &mut Reader<R>,
    fields: &mut ByteRecord,
    schema: &Schema,
) -> Result<Vec<Row>, LoadFault>
    ensures loaded { IfOk result (λ rows.
        HasLoadedRecords R.remaining reader.old schema.now rows.items) }
    ensures rows { IfOk result (λ rows. AreFirstRows schema.now rows.items) }
    ensures refused { IfErr result (IsRecordsFault R.remaining reader.old schema.now) }
{
    let mut rows = Vec::new(alloc);
    let mut number = 1;
    while read_record(reader, fields)? {
        let row = load_record(schema, fields, number)?;
        rows.push(row)?;
        number += 1;
    }
    Ok(rows)
}

// The row of this number that a record holds, for a table of this schema, or the first thing that is wrong with the record.
fn load_record(schema: &Schema, fields: &ByteRecord, number: u32) -> Result<Row, LoadFault>
    requires { (1 ≤ number) × (number ≤ MAX_ROW_NUMBER + 1) }
    ensures { Reads (IsRowOf schema.now (number, fields_of fields.now))
        (record_refusal schema.now (number, fields_of fields.now)) result }
{
    let axes = schema.axes();
    let width = schema.columns().len();
    let row = read_row(fields, axes, width, number)?;
    if number > MAX_ROW_NUMBER {
        return Err(LoadFault::Tree(TreeFault::Full));
    }
    Ok(row)
}

// The tree of a table that was begun, with these rows, which were put in one after the other. Where it is refused the store is
// dropped.
fn lay_rows<S: PageStore>(
    alloc: Global,
    begun: Begun<S>,
    rows: Vec<Row>,
) -> Result<Tree<S>, LoadFault>
    requires { AreFirstRows begun.schema rows.items }
    ensures laid { IfOk result (IsLaid begun (length rows.items + 1)
        (loaded_regions begun.schema.dims begun.schema.page_rows rows.items)) }
    ensures refused { IfErr result (IsNewFault begun.store) }
{
    let next = rows.len() as u32 + 1;
    let shape = begun.schema().shape();
    let page_rows = begun.schema().page_rows() as usize;
    let grown = grow(alloc, shape, page_rows, rows)?;
    match Tree::lay(alloc, begun, &grown, next) {
        Ok(tree) => Ok(tree),
        Err(refused) => Err(LoadFault::from(refused.fault)),
    }
}
