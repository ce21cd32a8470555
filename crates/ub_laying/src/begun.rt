// A table that is loaded: its store is begun before its rows are read, and then its regions are laid on pages, in the order of their
// keys.
ghost use Rattle.std.specs.Prelude.{◌≡◌, ◌<◌, true, length};
ghost use Rattle.ub_laying.specs.Begun.{Begins, CanLay, LaysBegun};
ghost use Rattle.ub_region.specs.Regions.{rows_of};
ghost use Rattle.ub_store.specs.Facts.{page_count};

use crate::laying::lay_regions;
use crate::levels::Root;
use crate::pager::pager_over;
use std::alloc::Global;
use std::marker::Model;
use ub_growing::Grown;
use ub_index::Index;
use ub_page::Header;
use ub_store::{PageStore, Pager, Rejected, StoreFault};
use ub_table::Schema;
use ub_writing::write_mark;
use ub_zaddr::last;

/// A table that is begun over a store: the first page marks it as changed, and no other one stands there yet.
#[derive(Drop)]
pub struct Begun<S: PageStore> {
    schema: Schema,
    pager: Pager<S>,
}

impl<S: PageStore> Model for Begun<S> {
    ghost use Rattle.ub_laying.specs.Begun.{BegunView, IsFresh, begun_view};

    ghost Value = { BegunView };

    ghost view = { λ b. begun_view b.schema b.pager.store };

    ghost invariant = { λ b. IsFresh b.schema b.pager };
}

impl<S: PageStore> Begun<S> {
    /// Begins a table of this schema over a store that has no pages: the first one is written, as a header that marks the table as
    /// changed. Until the tree that is laid there is closed, the store isn't opened as a table.
    ///
    /// Memory comes where memory was refused, Device where the store failed in this call; the store is then handed back.
    pub fn begin(
        alloc: Global,
        store: S,
        schema: &Schema,
    ) -> Result<Begun<S>, Rejected<S, StoreFault>>
        requires { page_count (S.facts store) ≡ 0 }
        ensures { Begins S.facts (S.facts store) schema.now result }
    {
        let mut pager = match pager_over(alloc, store, StoreFault::Memory) {
            Ok(pager) => pager,
            Err(refused) => return Err(refused),
        };
        match write_mark(&mut pager, schema) {
            Ok(()) => Ok(Begun {
                schema: schema.copy(),
                pager,
            }),
            Err(fault) => Err(Rejected {
                store: pager.into_store(),
                fault,
            }),
        }
    }

    /// What the table is made of.
    pub fn schema(&self) -> &Schema
        ensures { result.now ≡ self.now.schema }
    {
        &self.schema
    }

    /// Lays these regions, each on a page, from page 1 on, in the order of their keys, and behind them an index of theirs. The header
    /// of the table, whose next row gets this number, that index, and the pager over their pages are the result; the first page is
    /// the mark still.
    ///
    /// Memory comes where memory was refused, Device where the store failed in this call; the store is then handed back.
    pub fn lay(
        self,
        alloc: Global,
        grown: &Grown,
        next: u32,
    ) -> Result<(Header, Index, Pager<S>), Rejected<S, StoreFault>>
        requires { CanLay self.schema next grown.now }
        ensures { LaysBegun S.facts self next grown.now result }
    {
        let mut pager = self.pager;
        match lay_regions(alloc, &mut pager, &self.schema, grown) {
            Ok(root) => {
                let end = last(self.schema.shape());
                let index = Index::new(root.page, root.level, end);
                let header = header_of(self.schema, grown, next, &root);
                Ok((header, index, pager))
            }
            Err(fault) => Err(Rejected {
                store: pager.into_store(),
                fault,
            }),
        }
    }
}

// The header of a table of these regions, whose index has this root, and whose next row gets this number.
fn header_of(schema: Schema, grown: &Grown, next: u32, root: &Root) -> Header
    requires { CanLay schema next grown.now }
    ensures { result ≡ record {
      schema = schema;
      next = next;
      rows = length (rows_of grown.now);
      regions = length grown.now;
      root = root.now.page;
      levels = root.now.level;
      unclean = true;
    } }
{
    Header {
        schema,
        next,
        rows: count_rows(grown),
        regions: grown.len() as u32,
        root: root.page,
        levels: root.level,
        unclean: true,
    }
}

// How many rows regions have, fewer than a row number can be.
fn count_rows(grown: &Grown) -> u32
    requires { length (rows_of grown.now) < 16777216 }
    ensures { result ≡ length (rows_of grown.now) }
{
    let mut count = 0;
    for i in 0..grown.len() {
        count += grown.rows(i).len() as u32;
    }
    count
}
