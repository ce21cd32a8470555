// The plan of a query that no statement asks.
use crate::cases::table;
use std::alloc::{AllocError, Global};
use ub_planning::{Kind, plan};
use ub_query::{Item, Items, Query, SortKey};
use ub_table::Schema;

// SELECT COUNT(*) FROM t ORDER BY x.
fn counted(alloc: Global) -> Result<Query, AllocError> {
    let items = Vec::from_slice(alloc, &[Item::Count])?;
    let key = SortKey {
        item: Item::Column(0),
        is_descending: false,
    };
    let order = Vec::from_slice(alloc, &[key])?;
    Ok(Query {
        items: Items::new(items),
        filter: None,
        group: Items::new(Vec::new(alloc)),
        order: Items::new(order),
        limit: None,
    })
}

// Whether a query of a table is scanned.
fn is_scanned(alloc: Global, query: &Query, schema: &Schema) -> bool {
    match plan(alloc, query, schema) {
        Ok(plan) => plan.kind() == Kind::Scan,
        Err(_) => false,
    }
}

// Whether that one is, of a table of two dimensions.
pub(crate) fn is_count_scanned(alloc: Global) -> bool {
    let Ok(schema) = table(b"xym", 2, 0) else {
        return false;
    };
    match counted(alloc) {
        Ok(query) => is_scanned(alloc, &query, &schema),
        Err(_) => false,
    }
}
