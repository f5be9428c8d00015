// 01: "Fused multiply-add of x, y, z: nearest to xy + z, one rounding; IEEE 754 for zeros and infinities." In whole numbers, whatever the operands.
ghost use Rattle.std.specs.Prelude.{◌≡◌, false, ◌||◌, from_bits, is_nan};
ghost use Rattle.std.specs.Float.{binary64};
ghost use Rattle.whole_fma.specs.MultiplyAdd.{fma_of};
ghost use Rattle.operands.specs.SignAndSize.{is_special};

use crate::window::{aligned, joined, narrow};
use limbs::wide::product;
use operands::patterns::{all_normal, special, split};
use rounding::packing::rounded;

fn some_nan(x: f64, y: f64, z: f64) -> bool
    ensures { result ≡ (is_nan x || (is_nan y || is_nan z)) }
{
    x.is_nan() || y.is_nan() || z.is_nan()
}

// Patterns of finite values, none of them a zero. A value is m * 2^k / 2^1127, so that in steps of 2^-2400, which `rounded` takes, the product is
// m * m' * 2^20 * 2^(k + k' + 126) and the addend m * 2^73 * 2^(k + 1200): the leading digit of each first factor is at bit 124 or 125 of two limbs.
fn finite(a: u64, b: u64, c: u64) -> f64
    requires { (is_special (from_bits binary64 a) ≡ false) × (is_special (from_bits binary64 b) ≡ false) × (is_special (from_bits binary64 c) ≡ false) }
    ensures { result ≡ fma_of binary64 (from_bits binary64 a) (from_bits binary64 b) (from_bits binary64 c) }
{
    let of = split(a, b, c);
    let xy = product(of.x.m * 1024, of.y.m * 1024);
    let pair = aligned(xy, of.x.k + of.y.k + 126, of.z.m * 512, of.z.k + 1200);
    let s = (a >= 0x8000_0000_0000_0000) != (b >= 0x8000_0000_0000_0000);
    let total = joined(s, pair.a, c >= 0x8000_0000_0000_0000, pair.b);
    let r = narrow(total.n, pair.k);
    rounded(total.neg, r.m, r.k)
}

// The plain expression rounds twice, which does no harm where one operand is a NaN, or one factor an infinity or a zero. Otherwise a zero that is added
// leaves the rounded product, and an infinity stays what it is, even where the rounded product would be an infinity too.
pub fn in_whole_numbers(x: f64, y: f64, z: f64) -> f64
    ensures { result ≡ fma_of binary64 x y z }
{
    if some_nan(x, y, z) {
        return x * y + z;
    }
    let a = x.to_bits();
    let b = y.to_bits();
    let c = z.to_bits();
    if !all_normal(a, b, c) {
        if special(a) || special(b) {
            return x * y + z;
        }
        if special(c) {
            return if z == 0.0 { x * y } else { z };
        }
    }
    finite(a, b, c)
}
