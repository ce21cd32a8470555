use ub_page::Page;

/// A page of an index that is spelled, and not yet put: its number, and its bytes.
#[derive(Clone, Copy)]
pub struct Sheet {
    pub number: u32,
    pub page: Page,
}
