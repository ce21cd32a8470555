use ub_table::Key;

/// Where the first region of all begins.
pub const ORIGIN: Key = Key { z: 0, number: 0 };

/// A region: its place in the order of addresses, the span of addresses that its rows can have, and its page.
#[derive(Clone, Copy, PartialEq, Eq, Debug)]
pub struct Region {
    /// The region's first key: no row of it is before.
    pub first: Key,
    /// The first key of the next region, if there is one: each row of this one is before it.
    pub next: Option<Key>,
    /// The first address of the span: that of the first key.
    pub from: u128,
    /// The last address of the span. The next region's span can begin with the same address.
    pub to: u128,
    /// The region's page: at least 1.
    pub page: u32,
}
