// Two numbers, each times a power of two, lined up in one window of two limbs, joined by their signs, and narrowed to one limb.
ghost use Rattle.std.specs.Prelude.{◌≡◌, ◌+◌, ◌-◌, ◌*◌, ◌^◌, ◌<◌};
ghost use Rattle.whole_fma.specs.MultiplyAdd.{exact_size, exact_sign};
ghost use Rattle.whole_fma.specs.TwoLimbs.{whole, cut, spare};

use crate::difference::{less, minus};
use crate::sticky::cut_wide;
use limbs::wide::{Wide, plus};
use rounding::packing::Parts;

// Two numbers, each times 2^k.
#[derive(Clone, Copy)]
pub(crate) struct Pair {
    pub a: Wide,
    pub b: Wide,
    pub k: u64,
}

// A number with a sign.
#[derive(Clone, Copy)]
pub(crate) struct Total {
    pub neg: bool,
    pub n: Wide,
}

// v * 2^i and h * 2^64 * 2^j, both with the larger of the two exponents: the number that has the smaller one is cut.
pub(crate) fn aligned(v: Wide, i: u64, h: u64, j: u64) -> Pair
    ensures { (whole result.a ≡ cut (whole v) (j - i)) × (whole result.b ≡ cut (h * 2 ^ 64) (i - j)) × (result.k ≡ i + (j - i)) }
{
    if j <= i {
        return Pair {
            a: v,
            b: cut_wide(Wide { hi: h, lo: 0 }, i - j),
            k: i,
        };
    }
    Pair {
        a: cut_wide(v, j - i),
        b: Wide { hi: h, lo: 0 },
        k: j,
    }
}

// ±a ± b, exactly. IEEE 754: a difference that is exactly zero is +0.
pub(crate) fn joined(s: bool, a: Wide, t: bool, b: Wide) -> Total
    requires { (a.hi < 2 ^ 63) × (b.hi < 2 ^ 63) }
    ensures { (result.neg ≡ exact_sign s (whole a) t (whole b)) × (whole result.n ≡ exact_size s (whole a) t (whole b)) }
{
    if s == t {
        return Total {
            neg: s,
            n: plus(a, b),
        };
    }
    if less(a, b) {
        return Total {
            neg: !s,
            n: minus(b, a),
        };
    }
    let d = minus(a, b);
    if d.hi == 0 && d.lo == 0 {
        return Total { neg: false, n: d };
    }
    Total { neg: s, n: d }
}

// n * 2^k, cut to one limb that keeps more digits than a double has.
pub(crate) fn narrow(n: Wide, k: u64) -> Parts
    requires { k < 2 ^ 32 }
    ensures { (result.m ≡ cut (whole n) (spare n.hi)) × (result.k ≡ k + spare n.hi) }
{
    if n.hi >= 0x40_0000_0000_0000 {
        return Parts {
            m: cut_wide(n, 64).lo,
            k: k + 64,
        };
    }
    let sh = 64 - n.hi.leading_zeros() as u64;
    Parts {
        m: cut_wide(n, sh).lo,
        k: k + sh,
    }
}
