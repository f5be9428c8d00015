// Document 01's hypot.
ghost use Rattle.std.specs.Prelude.{◌≡◌, ◌+◌, ◌-◌, ◌*◌, ◌/◌, ◌%◌, ◌^◌, ◌<◌, ◌≤◌};
ghost use Rattle.std.specs.Float.{binary64};
ghost use Rattle.std.specs.Float.Ieee.{of_bits};
ghost use Rattle.rounding.specs.Packing.{significand, exponent};
ghost use Rattle.exact_roots.specs.CutRoot.{stick_more};
ghost use Rattle.roots.specs.Hypot.{hypot_of, Spanned};

use crate::floor_root;
use limbs::wide;
use limbs::wide::Wide;
use near_roots::length;
use patterns::pattern;
use rounding::packing;
use rounding::packing::Parts;

// A number shifted down, and the digits that it lost.
#[derive(Clone, Copy)]
struct Shifted {
    whole: Wide,
    rest: u64,
}

// w without its s lowest digits. The upper word's go up by 64 - s, in two steps, since a shift by 64 has no meaning.
fn cut(w: Wide, s: u64) -> Shifted
    requires { s < 64 }
    ensures { (result.whole.hi * 2 ^ 64 + result.whole.lo ≡ (w.hi * 2 ^ 64 + w.lo) / 2 ^ s) × (result.rest ≡ w.lo % 2 ^ s) }
{
    let lo = w.lo >> s;
    Shifted {
        whole: Wide {
            hi: w.hi >> s,
            lo: lo | w.hi << 1 << (63 - s),
        },
        rest: w.lo - (lo << s),
    }
}

// The root of x^2 + y^2 / 2^s, as `root` gives it.
fn sum_root(x: u64, y: u64, s: u64) -> u64
    requires { (2 ^ 54 ≤ x) × (x < 2 ^ 55) × (y < 2 ^ 55) × (s < 54) }
    ensures { result ≡ stick_more (x * x + y * y / 2 ^ s) (y * y % 2 ^ s) }
{
    let c = cut(wide::product(y, y), s);
    let t = wide::plus(wide::product(x, x), c.whole);
    floor_root::root(
        (t.hi << 16) + (t.lo >> 48),
        t.lo % 0x1_0000_0000_0000,
        c.rest,
    )
}

// The parts of two magnitudes.
#[derive(Clone, Copy)]
struct Pair {
    p: Parts,
    q: Parts,
}

// From the larger pattern and the smaller. Most often the smaller is a normal value's, and then no other test is made.
fn split(a: u64, b: u64) -> Pair
    requires { b ≤ a }
    ensures { (result.p.m ≡ significand a) × (result.p.k ≡ exponent a) × (result.q.m ≡ significand b) × (result.q.k ≡ exponent b) }
{
    if b < 0x10_0000_0000_0000 {
        return Pair {
            p: packing::unpacked(a),
            q: packing::unpacked(b),
        };
    }
    Pair {
        p: packing::fields(a),
        q: packing::fields(b),
    }
}

// From two finite patterns without a sign, the larger first. Where the smaller begins 27 digits lower, it adds less than half of the
// larger's last digit.
fn finite_length(a: u64, b: u64) -> f64
    requires { (b ≤ a) × (a < 0x7ff0_0000_0000_0000) }
    ensures { result ≡ hypot_of binary64 (of_bits binary64 a) (of_bits binary64 b) }
{
    if a == 0 {
        return 0.0;
    }
    let both = split(a, b);
    let d = both.p.k - both.q.k;
    if d > 26 {
        return f64::from_bits(a);
    }
    packing::rounded(
        false,
        sum_root(both.p.m * 4, both.q.m * 4, d * 2),
        both.p.k + 1270,
    )
}

// From two patterns without a sign, the larger first: a NaN's is above an infinity's.
fn ordered(a: u64, b: u64) -> f64
    requires { (b ≤ a) × (a < 0x8000_0000_0000_0000) }
    ensures { result ≡ hypot_of binary64 (of_bits binary64 a) (of_bits binary64 b) }
{
    if a < 0x7ff0_0000_0000_0000 {
        return finite_length(a, b);
    }
    if a == 0x7ff0_0000_0000_0000 || b == 0x7ff0_0000_0000_0000 {
        return f64::INFINITY;
    }
    f64::NAN
}

// From two patterns without a sign, the larger first. A guess that is right is the answer; else the length is worked out. A long function that is called
// from two places is not built into either: what has no finite length need not make room for it.
fn tried_length(a: u64, b: u64) -> f64
    requires { (b ≤ a) × (a < 0x8000_0000_0000_0000) }
    ensures { result ≡ hypot_of binary64 (of_bits binary64 a) (of_bits binary64 b) }
{
    if let Some(r) = length::guessed(a, b) {
        return r;
    }
    if a < 0x7ff0_0000_0000_0000 {
        return finite_length(a, b);
    }
    ordered(a, b)
}

// From any two doubles, a NaN too.
fn any_length(x: f64, y: f64) -> f64
    ensures { result ≡ hypot_of binary64 x y }
{
    let a = pattern::pattern_of(x) % 0x8000_0000_0000_0000;
    let b = pattern::pattern_of(y) % 0x8000_0000_0000_0000;
    ordered(a.max(b), a.min(b))
}

// "An infinite part gives plus infinity; else a NaN part gives NaN; else nearest to the root of x² + y²." Most often there is no NaN, and then no
// pattern has to be chosen for one.
pub fn hypot(x: f64, y: f64) -> f64
    ensures { Spanned binary64 x y result }
{
    if x.is_nan() || y.is_nan() {
        return any_length(x, y);
    }
    let a = x.to_bits() % 0x8000_0000_0000_0000;
    let b = y.to_bits() % 0x8000_0000_0000_0000;
    tried_length(a.max(b), a.min(b))
}
