// Document 01's hypot, of normal values that are not far apart.
ghost use Rattle.std.specs.Prelude.{◌+◌, ◌-◌, ◌*◌, ◌/◌, ◌^◌, ◌<◌, ◌≤◌, from_bits};
ghost use Rattle.std.specs.Float.{binary64};
ghost use Rattle.exact_roots.specs.Hypot.{hypot_of};
ghost use Rattle.near_roots.specs.Guesses.{OnlyRight};

use crate::{floats, nearest};
use limbs::wide;
use rounding::packing;

// The upper digits of m^2 + n^2 / 4^d: three more would be too many.
fn upper_sum(m: u64, n: u64, d: u64) -> u64
    requires { (2 ^ 52 ≤ m) × (m < 2 ^ 53) × (n < 2 ^ 53) × (d < 64) }
    ensures { (2 ^ 60 ≤ result) × (result < 2 ^ 63)
        × (result * 2 ^ 48 ≤ m * 4 * (m * 4) + n * 4 * (n * 4) / 2 ^ (d * 2))
        × (m * 4 * (m * 4) + n * 4 * (n * 4) / 2 ^ (d * 2) < (result + 3) * 2 ^ 48) }
{
    let x = m * 2048;
    let y = n * 2048 >> d;
    (wide::product(x, x).hi >> 2) + (wide::product(y, y).hi >> 2)
}

// From two normal patterns that are not far apart, the larger first. The length's exponent is the larger's, or one more, and then below an
// infinity's.
fn near_length(a: u64, b: u64) -> Option<f64>
    requires { (27 ≤ a / 2 ^ 52) × (a / 2 ^ 52 < 2046) × (b / 2 ^ 52 ≤ a / 2 ^ 52) × (a / 2 ^ 52 - b / 2 ^ 52 < 27) }
    ensures { b ≤ a → OnlyRight (hypot_of binary64 (from_bits binary64 a) (from_bits binary64 b)) result }
{
    let p = packing::fields(a);
    let q = packing::fields(b);
    let h = upper_sum(p.m, q.m, p.k - q.k);
    let g = floats::of_whole(h);
    if g.is_nan() {
        return None;
    }
    let u = g.to_bits() % 0x10_0000_0000_0000 * 2048 + 0x8000_0000_0000_0000;
    let low = 1 - (h >> 62);
    if nearest::is_nearest(h, u, low) {
        return Some(f64::from_bits((p.k - 52 - low) * 0x10_0000_0000_0000 + (u >> 11)));
    }
    None
}

// A guess at the length, from two patterns without a sign, the larger first. The difference of the exponents wraps where the second is larger, and is
// then not small.
pub fn guessed(a: u64, b: u64) -> Option<f64>
    ensures { b ≤ a → OnlyRight (hypot_of binary64 (from_bits binary64 a) (from_bits binary64 b)) result }
{
    let k = a >> 52;
    if k >= 27 && k < 2046 && k.wrapping_sub(b >> 52) < 27 {
        near_length(a, b)
    } else {
        None
    }
}
