//! A journal as pages of 4096 bytes. What a journal is stands in ub_journal.
//!
//!     page 0      the head: four numbers, and zeros to the end
//!                 0       'UBTJ', with which no page of a table begins
//!                 4       the version, 2
//!                 8       how many pages the table is to have: at least 1
//!                 12      how many of them change besides the first
//!     page 1      the table's first page as it was
//!     page 2      the table's first page as it is to be
//!     page 3..    the other pages that change, one behind the other across pages, and zeros to the end of the last page; none after it.
//!                 Each of them is
//!                 0       its number. They ascend; none is 0, and each is below the count of the table's pages
//!                 4       how many of its bytes come before the zeros with which it ends: 0 to 4096
//!                 8..     these bytes, the last of which is no zero
//!
//! Version 1 had each page whole. It is read, and written no more. From page 3 on it has
//!
//!     page 3..    the numbers of the other pages that change: 1024 on each page but the last, which ends with zeros
//!     then        these pages, in the order of their numbers, and none after them
//!
//! All numbers have four bytes, the highest of them first. Pages that spell a journal spell no other one, in whichever version (`law`).
//!
//! `write_journal` writes a journal that is told, byte by byte, so that it takes no memory besides. `read_journal` reads the pages of a
//! store, once each. It keeps nothing before it knows that there are as many pages as the head tells at least: of version 2, eight bytes
//! for each page that changes. Then it takes the memory for all changes at once.

#![tactic(auto)]

mod held;
pub mod law;
mod numbers;
mod packed;
mod reading;
mod spelling;
mod whole;

pub use reading::read_journal;
pub use spelling::write_journal;
