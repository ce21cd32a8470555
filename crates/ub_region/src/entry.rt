use ub_table::Key;

/// Where a region begins, and the page that holds it. In an index above its lowest level: where the first of the regions
/// begins to which a page of the level below leads, and that page.
#[derive(Clone, Copy, PartialEq, Eq, Debug)]
pub struct Entry {
    /// The first key of the region: no row of it is before.
    pub first: Key,
    /// The region's page: at least 1.
    pub page: u32,
}
