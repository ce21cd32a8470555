//! Boxes of points on the Z-curve, and the addresses in them: membership, the least address of a box from an address
//! and the greatest up to it (BIGMIN and LITMAX: Tropf and Herzog 1981), and the least and the greatest coordinate that
//! the boxes have within a span of addresses (the event values of a sweep: Markl, Zirkel and Bayer 1999). What belongs
//! here speaks of addresses and boxes alone; pages, regions and queries stand in the crates above. Nothing allocates.
#![tactic(auto)]

mod event;
pub mod laws;
mod search;
mod several;
mod words;
mod zbox;

pub use several::{greatest_value, least_value, next_in_any};
pub use zbox::ZBox;
