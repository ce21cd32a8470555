// How far a check has come.
ghost use Rattle.std.specs.Prelude.{◌≡◌, ◌↔◌, ℕ, [], min, IfOk, IsTrue};
ghost use Rattle.ub_check.specs.inner.Checking.{HasTaken};

use crate::numbers::Numbers;
use std::alloc::{AllocError, Global};
use ub_page::RegionPage;
use ub_zaddr::Shape;

/// What a check keeps as it goes.
#[derive(Drop)]
pub struct Walk {
    /// How many regions are counted that it hasn't met.
    pub left: u32,
    /// How many rows it met; u64::MAX where there are more.
    pub rows: u64,
    /// Their numbers.
    pub numbers: Numbers,
    /// The region that was read last.
    pub region: RegionPage,
}

/// A walk that hasn't begun, where so many regions are counted, and the next row gets this number.
pub fn new_walk(alloc: Global, count: u32, next: u32, shape: Shape) -> Result<Walk, AllocError>
    ensures begun { IfOk result (λ walk. HasTaken count walk []) }
    ensures bound { IfOk result (λ walk. walk.numbers.bound ≡ next) }
{
    let numbers = Numbers::below(alloc, next)?;
    Ok(Walk {
        left: count,
        rows: 0,
        numbers,
        region: RegionPage::empty(shape),
    })
}

/// Whether no region is left, and so many rows were met.
pub fn has_met_all(walk: &Walk, rows: u32) -> bool
    ensures { (met : ℕ) → walk.now.rows ≡ min met 18446744073709551615
        → IsTrue result ↔ ((walk.now.left ≡ 0) × (rows ≡ met)) }
{
    walk.left == 0 && walk.rows == u64::from(rows)
}
