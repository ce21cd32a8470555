// A row of coordinates and measures that stand in slices.
ghost use Rattle.std.specs.Int.{w64};
ghost use Rattle.std.specs.List.{AllByRecursion};
ghost use Rattle.std.specs.Prelude.{FitsSigned, ◌≡◌, ◌≤◌, ◌-◌, ◌++◌, length, pos, replicate};
ghost use Rattle.ub_table.specs.Filling as spec;

use crate::row::Row;

/// A row of this number, with these coordinates and measures: at most four of each.
pub fn row_of(number: u32, dims: &[u32], measures: &[i64]) -> Row
    requires dims { length dims.now ≤ 4 }
    requires measures { length measures.now ≤ 4 }
    ensures row { result ≡ spec.row_of number dims.now measures.now }
    ensures words { AllByRecursion (λ x. FitsSigned w64 x) measures.now }
{
    Row {
        number,
        dims: four_dims(dims),
        measures: four_measures(measures),
    }
}

// The coordinates, and zeros after them.
fn four_dims(dims: &[u32]) -> [u32; 4]
    requires { length dims.now ≤ 4 }
    ensures { result ≡ dims.now ++ replicate (4 - length dims.now) 0 }
{
    let mut all = [0; 4];
    all[..dims.len()].copy_from_slice(dims);
    all
}

// The measures, each a number of 64 bits, and zeros after them.
fn four_measures(measures: &[i64]) -> [i64; 4]
    requires { length measures.now ≤ 4 }
    ensures all { result ≡ measures.now ++ replicate (4 - length measures.now) (pos 0) }
    ensures words { AllByRecursion (λ x. FitsSigned w64 x) measures.now }
{
    let mut all = [0; 4];
    for (i, x) in measures.iter().enumerate() {
        all[i] = *x;
    }
    all
}
