ghost use Rattle.std.specs.Prelude.{◌≡◌, ◌≢◌, ◌+◌, ◌<◌, ◌≤◌, ◌∷◌, ◌++◌, [], ℕ, List, Option, length, map, take, IfOk, IfSome, OnOk};
ghost use Rattle.std.specs.HashMap.{IsUnique};
ghost use Rattle.std.specs.List.{All, AllByRecursion, Contains, flat_map};
ghost use Rattle.std.specs.List.Sorted.{IsPermutation};
ghost use Rattle.ub_answer.specs.Held.{many};
ghost use Rattle.ub_answer.specs.Shaped.{IsShaped};
ghost use Rattle.ub_answer.specs.inner.Groups as spec;
ghost use Rattle.ub_answer.specs.inner.Kept.{IsArranged};
ghost use Rattle.ub_query.specs.Cells.{Group};
ghost use Rattle.ub_query.specs.Groups.{AreGroups, selected, values_of};
ghost use Rattle.ub_query.specs.Meaning.{IsGroupMeaning, limited};
ghost use Rattle.ub_query.specs.Posed.{IsItemOver, IsGrouped};
ghost use Rattle.ub_query.specs.Shape.{Shape, asked};
ghost use Rattle.ub_table.specs.Table.{Table};

use crate::cells::Cells;
use crate::order::{arrange, compare_by};
use crate::result_set::ResultSet;
use crate::tally::{MAX_ITEMS, Tally, add_row, tally_of_none};
use smallvec::SmallVec;
use std::alloc::{AllocError, Global};
use std::cmp::Ordering;
use std::collections::HashMap;
use ub_query::{Cell, Item, Query, SortKey};
use ub_table::{Row, Schema};

/// The values that the rows of a group share, in the order of the group columns.
#[derive(PartialEq, Eq, PartialOrd, Ord, Hash, Drop)]
pub struct Values {
    all: SmallVec<i64, 8>,
}

/// What a query with GROUP BY shows of the rows taken: one entry for each group. No row is held.
#[derive(Drop)]
pub struct CollectedGroups {
    groups: HashMap<Values, Tally>,
}

impl CollectedGroups {
    /// No row is taken yet. Takes no memory.
    pub fn new(alloc: Global) -> CollectedGroups
        ensures { result.groups.entries ≡ [] }
    {
        CollectedGroups {
            groups: HashMap::new(alloc),
        }
    }

    /// Takes one more row. After a refusal this is used no more.
    #[inline(always)]
    pub fn take(
        &mut self,
        alloc: Global,
        schema: &Schema,
        query: &Query,
        row: &Row,
    ) -> Result<(), AllocError>
        requires over { All (λ item. IsItemOver (length schema.now.columns) item) query.now.items }
        requires few { length query.now.items ≤ MAX_ITEMS }
        requires columns { All (λ column. column < length schema.now.columns) query.now.group }
        ensures { (taken : List _) → All (λ item. IsGrouped query.now.group item) query.now.items
            → spec.HoldsGroups schema.now query.now.group query.now.items taken
            self.old.groups.entries
            → OnOk result (spec.HoldsGroups schema.now query.now.group query.now.items
            (taken ++ row.now ∷ []) self.new.groups.entries) }
    {
        let values = values_of(alloc, schema, query.group.as_slice(), row)?;
        add_to_group(
            &mut self.groups,
            values,
            schema,
            query.items.as_slice(),
            row,
        )
    }

    /// The answer: the groups in the order asked, the first n where LIMIT n stands, each as its cells.
    pub fn finish(self, alloc: Global, query: &Query) -> Result<ResultSet, AllocError>
        requires { length query.now.items ≤ MAX_ITEMS }
        ensures answer { (table : Table) (filter : Option Shape) (taken : List _)
            → query.now.group ≢ [] → length taken < many
            → All (λ key. Contains query.now.items key.item) query.now.order
            → IsPermutation (selected table filter) taken
            → spec.HoldsGroups table.schema query.now.group query.now.items taken
            self.groups.entries
            → IfOk result
            (λ cells. IsGroupMeaning table (record (asked query.now) { filter = filter }) cells) }
        ensures shaped { IfOk result (IsShaped (asked query.now)) }
        ensures held { (schema : _) (taken : List _) (groups : List Group)
            → query.now.group ≢ [] → length taken < many
            → spec.HoldsGroups schema query.now.group query.now.items taken self.groups.entries
            → AreGroups schema query.now.group taken groups
            → length self.groups.entries ≡ length groups }
    {
        let items = query.items.as_slice();
        let mut entries = entries_of(alloc, &self.groups)?;
        arrange_entries(&mut entries, items, query.order.as_slice(), query.limit);
        cells_of_entries(alloc, items, entries.as_slice())
    }
}

// The values of a row in the group columns.
#[inline(always)]
fn values_of(
    alloc: Global,
    schema: &Schema,
    columns: &[usize],
    row: &Row,
) -> Result<Values, AllocError>
    requires { All (λ column. column < length schema.now.columns) columns.now }
    ensures { IfOk result (λ values. values.all.items ≡ values_of schema.now columns.now row.now) }
{
    let mut all = SmallVec::new(alloc);
    for column in columns {
        all.push(schema.value_of(row, *column))?;
    }
    Ok(Values { all })
}

// Takes one more row into the group of these values.
#[inline(always)]
fn add_to_group(
    groups: &mut HashMap<Values, Tally>,
    values: Values,
    schema: &Schema,
    items: &[Item],
    row: &Row,
) -> Result<(), AllocError>
    requires over { All (λ item. IsItemOver (length schema.now.columns) item) items.now }
    requires few { length items.now ≤ MAX_ITEMS }
    ensures { OnOk result (spec.AddsRow schema.now items.now row.now values
        groups.old.entries groups.new.entries) }
{
    if let Some(tally) = groups.get_mut(&values) {
        add_row(tally, schema, items, row);
        return Ok(());
    }
    let mut tally = tally_of_none(items);
    add_row(&mut tally, schema, items, row);
    groups.insert(values, tally)?;
    Ok(())
}

// The groups, each once.
fn entries_of(
    alloc: Global,
    groups: &HashMap<Values, Tally>,
) -> Result<Vec<(&Values, &Tally)>, AllocError>
    ensures entries { IfOk result (λ v. map spec.entry_of v.items ≡ groups.now.entries) }
    ensures unique { IsUnique spec.values_eq groups.now }
{
    groups.iter().collect(alloc)
}

// The cell of a group for one of the items.
fn cell_at(items: &[Item], tally: &Tally, item: Item) -> Cell
    requires { length items.now ≤ MAX_ITEMS }
    ensures { result ≡ spec.cell_from 0 items.now tally.now item }
{
    for (place, other) in items.iter().enumerate() {
        if other.is_same(item) {
            return tally[place];
        }
    }
    Cell::Null
}

// How two groups stand in the order asked: by the first key whose cells differ, else by their values.
fn compare_entries(
    items: &[Item],
    keys: &[SortKey],
    a: &(&Values, &Tally),
    b: &(&Values, &Tally),
) -> Ordering
    requires { length items.now ≤ MAX_ITEMS }
    ensures { result ≡ spec.lent_cmp items.now keys.now a.now b.now }
{
    for key in keys {
        let first = cell_at(items, a.1, key.item);
        let second = cell_at(items, b.1, key.item);
        match compare_by(key.is_descending, first, second) {
            Ordering::Equal => {}
            decided => return decided,
        }
    }
    a.0.cmp(b.0)
}

// Puts groups into the order asked, and lets all but the first n go where LIMIT n stands.
fn arrange_entries(
    entries: &mut Vec<(&Values, &Tally)>,
    items: &[Item],
    keys: &[SortKey],
    limit: Option<u64>,
)
    requires { length items.now ≤ MAX_ITEMS }
    ensures arranged { IsArranged (spec.lent_cmp items.now keys.now) limit entries.old.items
        entries.new.items }
    ensures few { IfSome limit (λ n. length entries.new.items ≤ n) }
{
    arrange(entries, |a, b| compare_entries(items, keys, a, b), limit);
}

// The cells of each group, one after the other.
fn cells_of_entries(
    alloc: Global,
    items: &[Item],
    entries: &[(&Values, &Tally)],
) -> Result<ResultSet, AllocError>
    requires { length items.now ≤ MAX_ITEMS }
    ensures lines { IfOk result (λ cells. cells ≡ spec.entry_lines items.now entries.now) }
    ensures wide { IfOk result (AllByRecursion (λ cells. length cells ≡ length items.now)) }
{
    let mut cells = Vec::new(alloc);
    for entry in entries {
        push_cells(&mut cells, entry.1, items.len())?;
    }
    Ok(ResultSet::of_cells(Cells::new(cells, items.len(), entries.len())))
}

// Puts so many cells of a group after those that there are.
fn push_cells(cells: &mut Vec<Cell>, tally: &Tally, width: usize) -> Result<(), AllocError>
    requires { width ≤ MAX_ITEMS }
    ensures cells { OnOk result (cells.new.items ≡ cells.old.items ++ take width tally.now) }
    ensures count { OnOk result (length cells.new.items ≡ length cells.old.items + width) }
{
    cells.extend_from_slice(&tally[..width])
}
