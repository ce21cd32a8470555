ghost use Rattle.std.specs.Prelude.{max, ◌≡◌, ℕ, ◌+◌, ◌-◌, ◌*◌, ◌/◌, ◌^◌, ◌<◌, ◌≤◌, ◌↔◌, List, length, slice_index, MatchOption};
ghost use Rattle.std.specs.Int.{bit_at};
ghost use Rattle.ub_bigmin.specs.Cells.{prefix, free_below, IsPrefixOf, IsNeed, IsFloor, nearest_with};
ghost use Rattle.ub_bigmin.specs.Extremes.{Least};
ghost use Rattle.ub_bigmin.specs.Jumps.{IsJump, IsOwnJump, AreNeeds, HasNoJump, IsLowestJump, IsNearestPoint};
ghost use Rattle.ub_bigmin.specs.Lower.{IsLower};

use crate::zbox::ZBox;
use ub_zaddr::Point;

// The bit that a cell has at its place in a jump up the curve, and in a jump down.
pub const UP: u32 = 1;

pub const DOWN: u32 = 0;

// How many places of four dimensions have to be free below a jump: of the dimension that needs the most, and the most
// that another one needs. The places of fewer dimensions stand in the same order, so four serve for all.
#[derive(Clone, Copy)]
pub struct Needs {
    pub highest: u32,
    pub dimension: usize,
    pub next: u32,
}

// A jump turns this bit of this dimension.
#[derive(Clone, Copy)]
pub struct Jump {
    pub dimension: usize,
    pub bit: u32,
}

// How many low bits two numbers must not be compared by to be equal: one more than the highest bit where they differ.
fn differing_bits(a: u32, b: u32) -> u32
    ensures agree { (f : ℕ) → (result ≤ f) ↔ (a / 2 ^ f ≡ b / 2 ^ f) }
    ensures within { result ≤ 32 }
{
    32 - (a ^ b).leading_zeros()
}

// How many low bits have to be free for a number to have the prefix of one from low to high.
fn need_of(low: u32, high: u32, x: u32) -> u32
    requires { low ≤ high }
    ensures need { IsNeed low high x result }
    ensures within { result ≤ 32 }
{
    let nearest = x.max(low).min(high);
    differing_bits(x, nearest)
}

// The lowest bit from this one on that is 1; from 32 up where there is none.
fn lowest_one(x: u32, from: u32) -> u32
    requires { from < 32 }
    ensures from { from ≤ result }
    ensures one { result < 32 → bit_at x result ≡ 1 }
    ensures lowest { (k : ℕ) → from ≤ k → bit_at x k ≡ 1 → result ≤ k }
    ensures within { result ≤ 64 }
{
    from + (x >> from).trailing_zeros()
}

// The lowest bit of a number to turn to 1 so that a jump up from it meets the range from low to high.
fn lowest_rise(low: u32, high: u32, x: u32, floor: u32) -> Option<u32>
    requires { low ≤ high }
    ensures { Least (IsOwnJump low high x floor 1) result }
{
    let from = floor.max(need_of(low, high, x).saturating_sub(1));
    let end = x.max(high);
    if differing_bits(x, end) <= from {
        return None;
    }
    Some(lowest_one(!x, from))
}

// The lowest bit of a number to turn to 0 so that a jump down from it meets the range from low to high.
fn lowest_fall(low: u32, high: u32, x: u32, floor: u32) -> Option<u32>
    requires { low ≤ high }
    ensures { Least (IsOwnJump low high x floor 0) result }
{
    let from = floor.max(need_of(low, high, x).saturating_sub(1));
    let end = x.min(low);
    if differing_bits(end, x) <= from {
        return None;
    }
    Some(lowest_one(x, from))
}

// The lowest bit of a number to turn to the bit `to`, so that a jump from there meets the range from low to high.
fn lowest_turn(low: u32, high: u32, x: u32, floor: u32, to: u32) -> Option<u32>
    requires ordered { low ≤ high }
    requires to { to < 2 }
    ensures { Least (IsOwnJump low high x floor to) result }
{
    if to == UP {
        lowest_rise(low, high, x, floor)
    } else {
        lowest_fall(low, high, x, floor)
    }
}

// What the dimensions of a point need.
pub fn find_needs(zbox: &ZBox, point: &Point, turns: &mut u64) -> Needs
    requires shape { length point.now ≡ length zbox.now.lo }
    requires room { turns.old ≤ 2 ^ 63 + 16 }
    ensures needs { AreNeeds zbox.now point.now (length point.now)
        result.highest result.dimension result.next }
    ensures turns { turns.new ≡ turns.old + length point.now }
{
    let _shape = zbox.shape();
    let lo = zbox.lo().values();
    let hi = zbox.hi().values();
    let at = point.values();
    let mut needs = Needs {
        highest: 0,
        dimension: 0,
        next: 0,
    };
    for j in 0..at.len() {
        *turns += 1;
        let bits = need_of(lo[j], hi[j], at[j]);
        needs = with_need(needs, j, (4 * bits).saturating_sub(j as u32));
    }
    needs
}

// The needs with that of one more dimension.
fn with_need(needs: Needs, dimension: usize, places: u32) -> Needs
    ensures more { needs.highest < places
        → (result.highest ≡ places) × (result.dimension ≡ dimension)
        × (result.next ≡ needs.highest) }
    ensures fewer { places ≤ needs.highest → (result.highest ≡ needs.highest)
        × (result.dimension ≡ needs.dimension) × (result.next ≡ max needs.next places) }
{
    if needs.highest < places {
        Needs {
            highest: places,
            dimension,
            next: needs.highest,
        }
    } else {
        Needs {
            highest: needs.highest,
            dimension: needs.dimension,
            next: needs.next.max(places),
        }
    }
}

// From which bit of this dimension up the other dimensions have the free bits that they need.
fn floor_of(needs: Needs, dimension: usize) -> u32
    requires dimension { dimension < 4 }
    requires within { needs.highest ≤ 128 }
    requires ordered { needs.next ≤ needs.highest }
    ensures own { needs.dimension ≡ dimension → result ≡ (needs.next + dimension) / 4 }
    ensures other { (needs.dimension ≡ dimension → ⊥) → result ≡ (needs.highest + dimension) / 4 }
{
    let places = if needs.dimension == dimension {
        needs.next
    } else {
        needs.highest
    };
    (places + dimension as u32) / 4
}

// The jump at the lowest place, among the bits that turn to `to`.
pub fn lowest_jump(
    zbox: &ZBox,
    point: &Point,
    needs: Needs,
    to: u32,
    turns: &mut u64,
) -> Option<Jump>
    requires shape { length point.now ≡ length zbox.now.lo }
    requires needs { AreNeeds zbox.now point.now (length point.now) needs.highest needs.dimension
        needs.next }
    requires to { to < 2 }
    requires room { turns.old ≤ 2 ^ 63 + 16 }
    ensures jump { MatchOption result (HasNoJump zbox.now point.now to (length point.now))
        (λ j. IsLowestJump zbox.now point.now to (length point.now) j.dimension j.bit) }
    ensures turns { turns.new ≡ turns.old + length point.now }
{
    let _shape = zbox.shape();
    let lo = zbox.lo().values();
    let hi = zbox.hi().values();
    let at = point.values();
    let mut best: Option<Jump> = None;
    for i in 0..at.len() {
        *turns += 1;
        let floor = floor_of(needs, i);
        best = lower_jump(best, i, lowest_turn(lo[i], hi[i], at[i], floor, to));
    }
    best
}

// The lower of the jumps of the dimensions before this one and of this one; of two at one bit this one is lower.
fn lower_jump(best: Option<Jump>, dimension: usize, found: Option<u32>) -> Option<Jump>
    ensures { IsLower best dimension found result }
{
    match (best, found) {
        (_, None) => best,
        (Some(old), Some(bit)) if old.bit < bit => best,
        (_, Some(bit)) => Some(Jump { dimension, bit }),
    }
}

// The nearest point of the box in the cell of this jump.
pub fn landing(zbox: &ZBox, point: &Point, jump: Jump, to: u32, turns: &mut u64) -> Point
    requires shape { length point.now ≡ length zbox.now.lo }
    requires jump { IsJump zbox.now point.now to jump.dimension jump.bit }
    requires to { to < 2 }
    requires room { turns.old ≤ 2 ^ 63 + 16 }
    ensures point { IsNearestPoint zbox.now point.now jump.dimension jump.bit to result }
    ensures turns { turns.new ≡ turns.old + length point.now }
{
    let shape = zbox.shape();
    let lo = zbox.lo().values();
    let hi = zbox.hi().values();
    let at = point.values();
    let mut landed = [0u32; 4];
    for j in 0..at.len() {
        *turns += 1;
        let (prefix, free) = prefix_at(at[j], j, jump, to);
        landed[j] = nearest(lo[j], hi[j], prefix, free, to);
    }
    match Point::new(shape, &landed[..at.len()]) {
        Ok(landed) => landed,
        Err(_) => unreachable!(),
    }
}

// The prefix that the cell of a jump has in dimension j, where the point has x, and how many bits it leaves free.
fn prefix_at(x: u32, j: usize, jump: Jump, to: u32) -> (u64, u32)
    requires bit { jump.bit < 32 }
    requires to { to < 2 }
    ensures own { j ≡ jump.dimension → (result.0 ≡ prefix x jump.bit to) × (result.1 ≡ jump.bit) }
    ensures other { (j ≡ jump.dimension → ⊥)
        → (result.0 ≡ x / 2 ^ result.1) × (result.1 ≡ free_below jump.dimension jump.bit j) }
{
    let x = u64::from(x);
    if j == jump.dimension {
        ((x >> (jump.bit + 1)) * 2 + u64::from(to), jump.bit)
    } else {
        let free = if jump.dimension < j {
            jump.bit + 1
        } else {
            jump.bit
        };
        (x >> free, free)
    }
}

// The number from low to high with this prefix that is nearest in a jump to the bit `to`.
fn nearest(low: u32, high: u32, prefix: u64, free: u32, to: u32) -> u32
    requires ordered { low ≤ high }
    requires met { IsPrefixOf low high prefix free }
    requires free { free ≤ 32 }
    requires to { to < 2 }
    ensures { result ≡ nearest_with low high prefix free to }
{
    let least = prefix << free;
    if to == UP {
        low.max(least as u32)
    } else {
        let greatest = least + ((1u64 << free) - 1);
        u64::from(high).min(greatest) as u32
    }
}
