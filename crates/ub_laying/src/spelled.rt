// Pages in memory of which a region's isn't held: it is spelled when it is asked for.
ghost use Rattle.std.specs.Prelude.{◌≡◌, ◌<◌, ◌++◌, ◌∷◌, [], IfOk, OnOk, OnErr, Some, length, slice_get, slice_set};
ghost use Rattle.std.specs.List.{AllByRecursion};
ghost use Rattle.ub_bytes.specs.Bytes.{padded};
ghost use Rattle.ub_laying.specs.Spelled.{held_or, spelled};
ghost use Rattle.ub_store.specs.Facts.{zero_page};
ghost use Rattle.ub_table.specs.Region.{IsRegion};

use std::alloc::{AllocError, Global};
use std::marker::Model;
use ub_bytes::page::is_same;
use ub_growing::Grown;
use ub_page::{Draft, write_region};
use ub_store::{MAX_PAGES, Page, new_page};
use ub_table::Schema;

/// The pages of a table whose regions are lent, and stand from page 1 on: where a page is the one of its region, it isn't held.
#[derive(Drop)]
pub struct Spelled<'a> {
    alloc: Global,
    schema: &'a Schema,
    grown: &'a Grown,
    held: Vec<Option<Box<Page>>>,
}

impl<'a> Model for Spelled<'a> {
    ghost use Rattle.std.specs.Prelude.{◌≤◌, ℕ, List, length};
    ghost use Rattle.std.specs.List.{AllByRecursion};
    ghost use Rattle.ub_laying.specs.Spelled.{pages_from, spelled};
    ghost use Rattle.ub_table.specs.Region.{IsRegion};

    ghost Value = { List (List ℕ) };

    ghost view = { λ p. pages_from (spelled p.schema.now p.grown.now) 0 p.held.items };

    ghost invariant = { λ p. AllByRecursion (IsRegion p.schema.now) p.grown.now
        × (length p.held.items ≤ 4294967295) };
}

impl<'a> Spelled<'a> {
    /// No pages yet. They take no memory.
    pub fn over(alloc: Global, schema: &'a Schema, grown: &'a Grown) -> Spelled<'a>
        requires { AllByRecursion (IsRegion schema.now) grown.now }
        ensures { result ≡ [] }
    {
        Spelled {
            alloc,
            schema,
            grown,
            held: Vec::new(alloc),
        }
    }

    /// How many pages there are.
    pub fn len(&self) -> u32
        ensures { result ≡ length self.now }
    {
        self.held.len() as u32
    }

    /// Puts the page of this number into the one that is lent.
    pub fn put(&self, n: u32, page: &mut Page)
        requires { n < length self.now }
        ensures { slice_get self.now n ≡ Some page.new }
    {
        put_page(self.schema, self.grown, n, &self.held[n as usize], page);
    }

    /// Puts a page in the place of that of this number. Where memory is refused for it, that is as it was.
    pub fn set(&mut self, n: u32, page: &Page) -> Result<(), AllocError>
        requires { n < length self.old }
        ensures set { OnOk result (self.new ≡ slice_set self.old n page.now) }
        ensures refused { OnErr result (self.new ≡ self.old) }
    {
        self.held[n as usize] = hold(self.alloc, self.schema, self.grown, n, page)?;
        Ok(())
    }

    /// Adds a page of zeros. Where memory is refused, none is added.
    pub fn add(&mut self) -> Result<(), AllocError>
        requires { length self.old < MAX_PAGES }
        ensures added { OnOk result (self.new ≡ self.old ++ zero_page ∷ []) }
        ensures refused { OnErr result (self.new ≡ self.old) }
    {
        let page = new_page(self.alloc)?;
        self.held.push(Some(page))?;
        Ok(())
    }
}

// Spells the page of this number: the one of its region, or zeros where none stands there.
fn spell(schema: &Schema, grown: &Grown, n: usize, draft: &mut Draft)
    requires { AllByRecursion (IsRegion schema.now) grown.now }
    ensures { padded draft.new ≡ spelled schema.now grown.now n }
{
    if n == 0 || n > grown.len() {
        draft.clear();
    } else {
        write_region(schema, grown.first(n - 1), grown.rows(n - 1), draft);
    }
}

// What is held where this is the page of this number: nothing where it is as it is spelled.
fn hold(
    alloc: Global,
    schema: &Schema,
    grown: &Grown,
    n: u32,
    page: &Page,
) -> Result<Option<Box<Page>>, AllocError>
    requires { AllByRecursion (IsRegion schema.now) grown.now }
    ensures { IfOk result (λ held. held_or (spelled schema.now grown.now n) held ≡ page.now) }
{
    let mut draft = Draft::new();
    spell(schema, grown, n as usize, &mut draft);
    if is_same(draft.page(), page) {
        return Ok(None);
    }
    // By `?` the page that was refused would be handed on, and copied for it.
    let Ok(page) = Box::new(alloc, *page) else {
        return Err(AllocError);
    };
    Ok(Some(page))
}

// Puts the page of this number, of which this is held, into the one that is lent.
fn put_page(schema: &Schema, grown: &Grown, n: u32, held: &Option<Box<Page>>, page: &mut Page)
    requires { AllByRecursion (IsRegion schema.now) grown.now }
    ensures { page.new ≡ held_or (spelled schema.now grown.now n) held.now }
{
    match held {
        Some(held) => *page = **held,
        None => {
            let mut draft = Draft::new();
            spell(schema, grown, n as usize, &mut draft);
            *page = *draft.page();
        }
    }
}
