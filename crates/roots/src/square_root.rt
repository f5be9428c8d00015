// Document 01's square root.
ghost use Rattle.std.specs.Prelude.{◌≡◌, ◌<◌};
ghost use Rattle.std.specs.Float.{binary64};
ghost use Rattle.std.specs.Float.Ieee.{of_bits};
ghost use Rattle.roots.specs.Root.{sqrt_of, Rooted};

use crate::floor_root;
use rounding::packing;

// The root of a finite value above zero, from its pattern, in whole numbers. One digit more where that makes the exponent even: half of it is the
// root's.
fn positive_root(b: u64) -> f64
    requires { (0 < b) × (b < 0x7ff0_0000_0000_0000) }
    ensures { result ≡ sqrt_of binary64 (of_bits binary64 b) }
{
    let p = packing::unpacked(b);
    let k = p.k + 1;
    packing::rounded(
        false,
        floor_root::root((p.m << k % 2) * 256, 0, 0),
        k / 2 + 1807,
    )
}

// "Plus and minus zero and plus infinity give themselves; other negatives and NaN give NaN; else the nearest." A guess that is right is the answer;
// else the root is worked out.
pub fn sqrt(x: f64) -> f64
    ensures { Rooted binary64 x result }
{
    if let Some(r) = near_roots::square_root::guessed(x) {
        return r;
    }
    if x > 0.0 {
        let b = x.to_bits();
        if b < 0x7ff0_0000_0000_0000 {
            return positive_root(b);
        }
        return x;
    }
    if x < 0.0 {
        return f64::NAN;
    }
    x
}
