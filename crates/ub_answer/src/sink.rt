ghost use Rattle.ub_answer.specs.Sink.{HasGathered};

use crate::gathering::Gathering;
use std::alloc::AllocError;
use ub_query::{Query, RowBatch, RowSink};
use ub_table::{Row, Schema};

/// The sink of a query whose answer is made once all of its rows were handed over.
impl RowSink for Gathering {
    ghost HasTaken = { HasGathered };

    fn push(&mut self, schema: &Schema, query: &Query, row: &Row) -> Result<(), AllocError> {
        self.take(schema, query, row)
    }

    fn push_batch<B: RowBatch>(&mut self, schema: &Schema, query: &Query, batch: &B) -> bool {
        self.take_batch(schema, query, batch)
    }
}
