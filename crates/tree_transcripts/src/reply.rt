/// Where there is nothing of which a line asks: no tree, no store, no such region.
pub const NONE: &str = "none";

/// Where the program knows no such line.
pub const UNKNOWN: &str = "no such line";

/// Lets a thing go. What holds much costs the prover little here, where it isn't known what it holds.
pub fn release<T: Drop>(_thing: T) {
    // It is dropped here, and by no other step.
}
