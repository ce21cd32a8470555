// The addresses of boxes that are nearest to one, beside those that are found by counting, and as sums that another search made.
use crate::cases::between;
use ub_zaddr::{Shape, interleave_places};

// The least address from z on and the greatest up to z that lie between two corners below 8, by counting: by looking at
// each of 64.
fn counted(low: [u32; 2], high: [u32; 2], z: u128) -> (Option<u128>, Option<u128>) {
    let mut next = None;
    let mut prev = None;
    for n in 0..64u32 {
        let at = u128::from(n);
        // The bits of an address are the coordinates', taken in turn.
        let x = ((n >> 1) & 1) + 2 * ((n >> 3) & 1) + 4 * ((n >> 5) & 1);
        let y = (n & 1) + 2 * ((n >> 2) & 1) + 4 * ((n >> 4) & 1);
        if low[0] <= x && x <= high[0] && low[1] <= y && y <= high[1] {
            if at <= z {
                prev = Some(at);
            }
            if z <= at && next.is_none() {
                next = Some(at);
            }
        }
    }
    (next, prev)
}

// Whether the nearest addresses of one box are those found by counting, from each address up to 64.
fn is_as_counted(low: [u32; 2], high: [u32; 2]) -> bool {
    let Some(zbox) = between(&low, &high) else {
        return low[0] > high[0] || low[1] > high[1];
    };
    for n in 0..65u32 {
        let z = u128::from(n);
        let (next, prev) = counted(low, high, z);
        if zbox.next_in_box(z) != next || zbox.prev_in_box(z) != prev {
            return false;
        }
    }
    true
}

// The coordinates at which carries and borrows happen.
static EDGES: [u32; 4] = [0, 1, 2147483648, 4294967295];

// Edges as coordinates, chosen by two bits each.
fn edges(choice: u32) -> [u32; 4] {
    let mut values = [0u32; 4];
    for i in 0..4u32 {
        values[i as usize] = EDGES[((choice >> (2 * i)) & 3) as usize];
    }
    values
}

// The nearest addresses of the box with these corners from the address of a point, as one number.
fn edge_sum(shape: Shape, low: u32, high: u32, from: u32, sum: u128) -> Option<u128> {
    let dims = shape.dims() as usize;
    let zbox = between(&edges(low)[..dims], &edges(high)[..dims])?;
    let z = interleave_places(shape, &edges(from));
    let next = sum.rotate_left(1) ^ zbox.next_in_box(z).unwrap_or(u128::MAX);
    Some(next.rotate_left(1) ^ zbox.prev_in_box(z).unwrap_or(u128::MAX))
}

// A checksum of the nearest addresses of all boxes with edges as corners, from the addresses of such points.
fn edge_checksum(dims: u32, choices: u32) -> Option<u128> {
    let shape = Shape::new(dims).ok()?;
    let mut sum = 0u128;
    for low in 0..choices {
        for high in 0..choices {
            let from = low.wrapping_mul(7).wrapping_add(high) & 255;
            sum = edge_sum(shape, low, high, from, sum).unwrap_or(sum);
        }
    }
    Some(sum)
}

// The sums are those of a search that halves the cells of the curve (bench/checksum.py has its like).
#[test]
fn nearest_addresses_are_those_found_otherwise(rt: HostRuntime) {
    for corner in 0..4096u32 {
        let low = [corner & 7, (corner >> 3) & 7];
        let high = [(corner >> 6) & 7, (corner >> 9) & 7];
        assert!(rt; is_as_counted(low, high), "counted: corners {corner}");
    }
    let cube = edge_checksum(3, 64);
    assert!(rt;
        cube == Some(158063738300030818516008930306565074344),
        "three dimensions"
    );
    let four = edge_checksum(4, 256);
    assert!(rt;
        four == Some(188845783252535545128684400960967465514),
        "four dimensions"
    );
}
