//! From the text of a CSV file to the rows of a table: what a field says (field), the header as a schema (header), a record
//! as a row (row), the records one after the other (reading), and the whole text: as a table, whose rows are put into a UB-tree
//! (table), or into regions before any store is there, which can be laid later (grown); or as rows for a table that there is
//! (rows). What was read last of a text that is refused is kept, to be told of (last). Reading a file, keeping pages and answering
//! queries belong elsewhere.
#![tactic(auto)]

pub mod fault;
mod field;
pub mod grown;
mod header;
pub mod last;
mod reading;
mod row;
pub mod rows;
pub mod table;

pub use fault::LoadFault;
pub use grown::{GrownTable, lay_table, read_table};
pub use last::LastRead;
pub use rows::read_rows;
pub use table::{load, load_from};
