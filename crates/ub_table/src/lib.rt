//! The types that every layer speaks of, and the rules that they keep: a name is spelled as the language spells names, a
//! schema has its numbers in range and no two columns of one name. A row is plain data, and so is the key by which the
//! tree orders it. `Items` is a list that contracts see as a list.
//!
//! What belongs here is what a table is, and what a region of it is (the definitions stand in specs/). How pages are
//! spelled, how addresses are computed, how texts are read and how rows are found stands elsewhere. Nothing in this crate
//! takes memory.

#![tactic(auto)]

pub mod axes;
pub mod columns;
pub mod fault;
pub mod filling;
pub mod items;
pub mod keyword;
pub mod law;
pub mod name;
pub mod row;
pub mod schema;
pub mod value;

pub use axes::Axes;
pub use columns::Columns;
pub use fault::PageFault;
pub use filling::row_of;
pub use items::Items;
pub use keyword::is_keyword;
pub use name::Name;
pub use row::{Key, MAX_ROW_NUMBER, Row};
pub use schema::{MAX_ROWS, Schema};
pub use value::{SHIFT, coordinate_at, fits_at};
