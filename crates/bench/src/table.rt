use ub_table::{Name, PageFault, Schema};

/// A table of so many dimensions, of so many columns, five at the most, and of so many rows on a page.
pub fn table(dims: u32, columns: usize, page_rows: u32) -> Result<Schema, PageFault> {
    let name = Name::new(b"t")?;
    let mut names = [name; 5];
    for (column, letter) in names.iter_mut().zip(b"xyzwm") {
        *column = Name::new(&[*letter]).unwrap_or(name);
    }
    Schema::new(name, &names[..columns.min(5)], dims, page_rows, 0)
}
