//! Which rows of a page a plan takes, and the one loop that tells them from the others: whatever is made of a query's rows, they
//! go to a sink (`RowSink`) through here.
//!
//! A `Choice`, made once for a plan, says by what they are told: by the masks of the plan's boxes, or by the query's condition
//! (`choice`). `push_chosen` hands those of one page to a sink (`chosen`), all at once (`batch`) where the sink has a way to take them so and
//! nothing is left to be asked of each. Which pages are read stands elsewhere.
#![tactic(auto)]

mod batch;
mod choice;
mod chosen;
pub mod law;

pub use choice::Choice;
pub use chosen::push_chosen;
pub use ub_page::RegionPage;
pub use ub_planning::Plan;
pub use ub_query::RowSink;
pub use ub_table::Schema;
