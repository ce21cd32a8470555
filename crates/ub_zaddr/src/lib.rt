//! Addresses on the Z-curve (Bayer 1997; Morton's order): a point of one to four dimensions, its address by the
//! interleaving of the bits of its coordinates, and back, and which of two points has the lower one. What belongs here is
//! only the map between points and addresses; boxes of addresses and steps along the curve stand in the crates above.
//! Nothing allocates.
#![tactic(auto)]

mod address;
mod below;
mod fault;
mod gathering;
mod masks;
mod point;
mod shape;
mod spacing;
mod tables;

pub use address::{interleave, interleave_first, interleave_places, last, spread};
pub use below::{is_below_first, is_below_places};
pub use fault::ZFault;
pub use point::Point;
pub use shape::Shape;
