// The rows of one answer put after those of another one.
ghost use Rattle.std.specs.Prelude.{◌≡◌, IfOk, length};
ghost use Rattle.std.specs.List.{AllByRecursion};

use crate::cases::Case;
use std::alloc::{AllocError, Global};
use ub_answer::Cells;
use ub_query::Cell;

// Whether there are just these rows: a number, and NULL.
fn has(cells: &Cells, numbers: &[u8]) -> bool {
    if cells.len() != numbers.len() {
        return false;
    }
    for i in 0..numbers.len() {
        let row = [Cell::Number(i128::from(numbers[i])), Cell::Null];
        if cells.row(i) != row.as_slice() {
            return false;
        }
    }
    true
}

// Whether there are just these rows once rows of two cells are put after such ones.
fn extend(cells: &mut Cells, more: &Cells, limit: Option<u64>, numbers: &[u8]) -> bool
    requires cells { AllByRecursion (λ cells. length cells ≡ 2) cells.old }
    requires more { AllByRecursion (λ cells. length cells ≡ 2) more.now }
{
    cells.extend(more, limit).is_ok() & has(cells, numbers)
}

// Two rows of two cells each, a number and NULL, the second of which has the next number; or none where the first number is 0.
fn rows(alloc: Global, first: u8) -> Result<Cells, AllocError>
    ensures { IfOk result (AllByRecursion (λ cells. length cells ≡ 2)) }
{
    if first == 0 {
        return Ok(Cells::none(alloc));
    }
    let second = first.saturating_add(1);
    let pair = [
        Cell::Number(i128::from(first)),
        Cell::Null,
        Cell::Number(i128::from(second)),
        Cell::Null,
    ];
    Ok(Cells::new(Vec::from_slice(alloc, &pair)?, 2, 2))
}

// The number of the first row of two, or 0, that of the first row of those that are put after them, or 0, a limit, and the rows that stand
// then: as many of them as the limit says, also where it is in the rows that there were.
pub(crate) struct Limited(u8, u8, Option<u64>, &'static [u8]);

pub(crate) static LIMITED: &[Limited] = &[
    Limited(1, 3, None, &[1, 2, 3, 4]),
    Limited(1, 3, Some(5), &[1, 2, 3, 4]),
    Limited(1, 3, Some(3), &[1, 2, 3]),
    Limited(1, 3, Some(1), &[1]),
    Limited(1, 3, Some(0), &[]),
    Limited(1, 0, None, &[1, 2]),
    Limited(0, 3, Some(3), &[3, 4]),
];

impl Limited {
    // Whether these rows stand once the second ones are put after the first.
    fn stands(&self, alloc: Global, cells: &mut Cells) -> bool
        requires { AllByRecursion (λ cells. length cells ≡ 2) cells.old }
    {
        match rows(alloc, self.1) {
            Ok(more) => extend(cells, &more, self.2, self.3),
            Err(_) => false,
        }
    }
}

impl Case for Limited {
    fn holds(&self, alloc: Global) -> bool {
        match rows(alloc, self.0) {
            Ok(mut cells) => self.stands(alloc, &mut cells),
            Err(_) => false,
        }
    }
}
