// What becomes of the rows of one region in memory: one is put in or taken out by its key, they are split, or joined with those
// of another region. They stand in columns all the while, never more of them than a page holds.
ghost use Rattle.std.specs.Prelude.{◌≡◌, ◌+◌, ◌<◌, ◌≤◌, ◌++◌, ◌/◌, ℕ, length, take, drop, slice_get, is_some, IfSome, Some, if◌then◌else◌, nat_lt, nat_le, true, false};
ghost use Rattle.std.specs.List.{insert};
ghost use Rattle.std.specs.Option.{IfNone};
ghost use Rattle.ub_table.specs.declared.schema.TheConstants.{MAX_ROWS};
ghost use Rattle.ub_region.specs.Rows as spec;
ghost use Rattle.ub_region.specs.Rows.{has_key, insert_row, remove_row, split};
ghost use Rattle.ub_table.specs.Keys.{precedes, AreKeysAscending};
ghost use Rattle.ub_table.specs.Region.{key_of, keys_of};
ghost use Rattle.ub_table.specs.declared.row.Key.{Key as KeyView};

use crate::keys::first_between;
use crate::region_page::RegionPage;
use ub_table::{Key, Row};

impl RegionPage {
    /// Takes out the row with this key, and tells whether there is one. Takes no memory.
    pub fn remove(&mut self, key: &Key) -> bool
        ensures found { result ≡ has_key self.old.dims key.now self.old.region.rows }
        ensures rows { self.new ≡ record {
          dims = self.old.dims;
          region = record {
            first = self.old.region.first;
            rows = remove_row self.old.dims key.now self.old.region.rows;
          };
        } }
    {
        let Some(index) = self.find(key) else {
            return false;
        };
        self.remove_at(index);
        true
    }

    // The index of the row with this key.
    fn find(&self, key: &Key) -> Option<usize>
        ensures found { is_some result ≡ has_key self.now.dims key.now self.now.region.rows }
        ensures index { IfSome result (λ i. (i < length self.now.region.rows)
            × (remove_row self.now.dims key.now self.now.region.rows
            ≡ take i self.now.region.rows ++ drop (i + 1) self.now.region.rows)) }
        ensures none { IfNone result (remove_row self.now.dims key.now self.now.region.rows
            ≡ self.now.region.rows) }
    {
        for i in 0..self.len() {
            if self.has_at(i, key) {
                return Some(i);
            }
        }
        None
    }

    /// The index at which a row goes in among the rows, whose keys ascend; none where one of them has its key already. It is
    /// found by halving, and no address is made.
    pub fn place_of(&self, row: &Row) -> Option<usize>
        requires { AreKeysAscending (keys_of self.now.dims self.now.region.rows) }
        ensures none { IfNone result
            (has_key self.now.dims (key_of self.now.dims row.now) self.now.region.rows ≡ true) }
        ensures place { IfSome result (λ i.
            (has_key self.now.dims (key_of self.now.dims row.now) self.now.region.rows ≡ false)
            × (i ≤ length self.now.region.rows)
            × (insert_row self.now.dims row.now self.now.region.rows
            ≡ insert self.now.region.rows i row.now)) }
    {
        let index = self.first_after(row);
        if index == 0 {
            return Some(index);
        }
        if self.is_before(index - 1, row) {
            Some(index)
        } else {
            None
        }
    }

    // The index of the first row whose key is after that of another one, and of the place behind them where there is none.
    fn first_after(&self, row: &Row) -> usize
        requires { AreKeysAscending (keys_of self.now.dims self.now.region.rows) }
        ensures within { result ≤ length self.now.region.rows }
        ensures below { (i : ℕ) (key : KeyView) → i < result
            → slice_get (keys_of self.now.dims self.now.region.rows) i ≡ Some key
            → precedes (key_of self.now.dims row.now) key ≡ false }
        ensures above { (i : ℕ) (key : KeyView) → result ≤ i
            → slice_get (keys_of self.now.dims self.now.region.rows) i ≡ Some key
            → precedes (key_of self.now.dims row.now) key ≡ true }
    {
        let mut low = 0;
        let mut high = self.len();
        while low < high {
            let middle = low + (high - low) / 2;
            if self.is_after(middle, row) {
                high = middle;
            } else {
                low = middle + 1;
            }
        }
        low
    }

    /// Whether these are fewer rows than half of what a page holds.
    pub fn are_few(&self, page_rows: u32) -> bool
        ensures { result ≡ nat_lt (length self.now.region.rows) (page_rows / 2) }
    {
        self.len() < page_rows as usize / 2
    }

    /// Puts the rows of the next region, of the same space, behind these. A page has room for them together. Takes no memory.
    pub fn append(&mut self, next: &RegionPage)
        requires space { next.now.dims ≡ self.old.dims }
        requires room { length self.old.region.rows + length next.now.region.rows ≤ MAX_ROWS }
        ensures { self.new ≡ record {
          dims = self.old.dims;
          region = record {
            first = self.old.region.first;
            rows = self.old.region.rows ++ next.now.region.rows;
          };
        } }
    {
        let len = self.len();
        self.take_over(len, next, 0, next.len());
    }

    /// Puts the rows of the next region, of the same space, behind these, if a page holds them together, and tells whether
    /// it does. Takes no memory.
    pub fn join(&mut self, next: &RegionPage, page_rows: u32) -> bool
        requires space { next.now.dims ≡ self.old.dims }
        requires few { page_rows ≤ MAX_ROWS }
        ensures fit { result
            ≡ nat_le (length self.old.region.rows + length next.now.region.rows) page_rows }
        ensures rows { self.new ≡ record {
          dims = self.old.dims;
          region = record {
            first = self.old.region.first;
            rows = if result then self.old.region.rows ++ next.now.region.rows
                else self.old.region.rows;
          };
        } }
    {
        let fit = self.len() + next.len() <= page_rows as usize;
        if fit {
            self.append(next);
        }
        fit
    }

    /// Puts a row in at an index, from 0, among as many as a page holds, two or more, and parts them: the rows of the first
    /// keys, half of a page's and one more, stay; the other ones, and the first key of their region, are put in `right`.
    /// Takes no memory.
    pub fn split_with(&mut self, index: usize, row: &Row, right: &mut RegionPage)
        requires some { 2 ≤ length self.old.region.rows }
        requires within { index ≤ length self.old.region.rows }
        ensures left { let halves = split self.old.dims (length self.old.region.rows)
            (insert self.old.region.rows index row.now) in self.new ≡ record {
              dims = self.old.dims;
              region = record { first = self.old.region.first; rows = halves.left };
            } }
        ensures right { let halves = split self.old.dims (length self.old.region.rows)
            (insert self.old.region.rows index row.now) in right.new ≡ record {
              dims = self.old.dims;
              region = record { first = halves.first; rows = halves.right };
            } }
    {
        let left = left_half(self.len());
        if index < left {
            self.split_at(left - 1, right);
            self.insert_at(index, row);
        } else {
            self.split_at(left, right);
            right.insert_at(index - left, row);
        }
        let first = first_between(&self.key(left - 1), &right.key(0));
        right.start_at(first);
    }

    // Puts the rows from an index on in `right`.
    fn split_at(&mut self, index: usize, right: &mut RegionPage)
        requires { index ≤ length self.old.region.rows }
        ensures left { self.new ≡ record {
          dims = self.old.dims;
          region = record {
            first = self.old.region.first;
            rows = take index self.old.region.rows;
          };
        } }
        ensures right { right.new ≡ record {
          dims = self.old.dims;
          region = record {
            first = self.old.region.first;
            rows = drop index self.old.region.rows;
          };
        } }
    {
        right.restart(self.shape(), self.first());
        right.take_over(0, self, index, self.len() - index);
        self.truncate(index);
    }
}

// Of a region with a row more than so many, which a page holds, how many rows are in the left half.
fn left_half(page_rows: usize) -> usize
    requires { page_rows ≤ MAX_ROWS }
    ensures { result ≡ spec.left_half page_rows }
{
    (page_rows + 2) / 2
}
