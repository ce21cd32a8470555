ghost use Rattle.std.specs.Prelude.{◌+◌, ◌*◌, ◌^◌, ◌≤◌, length};
ghost use Rattle.ub_bigmin.specs.Box.{Holds};
ghost use Rattle.ub_bigmin.specs.Extremes.{LeastFrom, GreatestUpTo};

use crate::search::find_neighbours;
use crate::words::{DOWN, UP, find_needs, landing, lowest_jump};
use crate::zbox::ZBox;
use ub_zaddr::{interleave, spread};

/// The least address of the box that is not below z, by whole words: where the box does not hold z, the answer agrees
/// with z above the lowest place where z has 0 and the box has an address with 1 and z's bits above, and it is the least
/// of those (BIGMIN: Tropf and Herzog 1981). `None` exactly where there is none. `turns` counts the turns of loops; no
/// loop is over bits or places.
pub fn next_by_words(zbox: &ZBox, z: u128, turns: &mut u64) -> Option<u128>
    requires room { turns.old ≤ 2 ^ 63 }
    ensures next { LeastFrom (Holds zbox.now) z result }
    ensures grows { turns.old ≤ turns.new }
    ensures bound { turns.new ≤ turns.old + 8 * length zbox.now.lo }
{
    let shape = zbox.shape();
    let Ok(point) = spread(shape, z) else {
        return None;
    };
    let _coordinates = point.values();
    let needs = find_needs(zbox, &point, turns);
    if needs.highest == 0 {
        return Some(z);
    }
    let Some(jump) = lowest_jump(zbox, &point, needs, UP, turns) else {
        return None;
    };
    let landed = landing(zbox, &point, jump, UP, turns);
    Some(interleave(shape, &landed))
}

/// The greatest address of the box that is not above z, by whole words, the mirror of `next_by_words` (LITMAX: Tropf and
/// Herzog 1981). `None` exactly where there is none. `turns` counts the turns of loops; no loop is over bits or places.
pub fn prev_by_words(zbox: &ZBox, z: u128, turns: &mut u64) -> Option<u128>
    requires room { turns.old ≤ 2 ^ 63 }
    ensures prev { GreatestUpTo (Holds zbox.now) z result }
    ensures grows { turns.old ≤ turns.new }
    ensures bound { turns.new ≤ turns.old + 8 * length zbox.now.lo }
{
    let shape = zbox.shape();
    let Ok(point) = spread(shape, z) else {
        return Some(interleave(shape, zbox.hi()));
    };
    let _coordinates = point.values();
    let needs = find_needs(zbox, &point, turns);
    if needs.highest == 0 {
        return Some(z);
    }
    let Some(jump) = lowest_jump(zbox, &point, needs, DOWN, turns) else {
        return None;
    };
    let landed = landing(zbox, &point, jump, DOWN, turns);
    Some(interleave(shape, &landed))
}

/// The least address of the box that is not below z, by one descent over all its places, a bit at a time (BIGMIN: Tropf
/// and Herzog 1981). `None` exactly where there is none.
pub fn next_by_bits(zbox: &ZBox, z: u128) -> Option<u128>
    ensures { LeastFrom (Holds zbox.now) z result }
{
    find_neighbours(zbox, z).above
}

/// The greatest address of the box that is not above z, by one descent over all its places, a bit at a time (LITMAX:
/// Tropf and Herzog 1981). `None` exactly where there is none.
pub fn prev_by_bits(zbox: &ZBox, z: u128) -> Option<u128>
    ensures { GreatestUpTo (Holds zbox.now) z result }
{
    find_neighbours(zbox, z).below
}
