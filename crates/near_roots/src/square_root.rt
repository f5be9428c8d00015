// Document 01's square root, of normal values above zero.
ghost use Rattle.std.specs.Prelude.{◌≡◌, ◌^◌, ◌<◌, ◌≤◌, true, from_bits};
ghost use Rattle.std.specs.Float.{binary64};
ghost use Rattle.exact_roots.specs.Root.{sqrt_of};
ghost use Rattle.near_roots.specs.Guesses.{OnlyRight};

use crate::{floats, nearest};
use rounding::packing;

// Whether g is seen to be the root of the normal value that has the pattern b: it has half of the exponent, and its digits are the nearest. The number's
// own lie one higher where its exponent is even.
fn is_root(b: u64, g: f64) -> bool
    requires { (2 ^ 52 ≤ b) × (b < 0x7ff0_0000_0000_0000) }
    ensures { result ≡ true → g ≡ sqrt_of binary64 (from_bits binary64 b) }
{
    if g.is_nan() {
        return false;
    }
    let c = g.to_bits();
    let k = b >> 52;
    if c >> 52 != (k + 1023) / 2 {
        return false;
    }
    let p = packing::fields(b);
    let r = packing::fields(c);
    nearest::is_nearest(p.m * 2048 >> k % 2, r.m * 2048, 0)
}

// A guess at the root of x. Subnormal values, which have fewer digits than are tested, are left out.
pub fn guessed(x: f64) -> Option<f64>
    ensures { OnlyRight (sqrt_of binary64 x) result }
{
    if x >= 2.2250738585072014e-308 {
        let b = x.to_bits();
        if b < 0x7ff0_0000_0000_0000 {
            let g = floats::of_pattern(b);
            if is_root(b, g) {
                return Some(g);
            }
        }
    }
    None
}
