// A double from a significand and an exponent, and back. No other place makes a double of a significand.
ghost use Rattle.std.specs.Prelude.{◌≡◌, ◌+◌, ◌*◌, ◌/◌, ◌%◌, ◌^◌, ◌<◌, ◌≤◌, cond};
ghost use Rattle.std.specs.Float.{binary64};
ghost use Rattle.std.specs.Float.Ieee.{round, of_bits};
ghost use Rattle.std.specs.Float.Ieee.Nearest.{closest};
ghost use Rattle.rounding.specs.Packing.{deep, significand, exponent};

// A magnitude m * 2^k / 2^1127.
#[derive(Clone, Copy)]
pub struct Parts {
    pub m: u64,
    pub k: u64,
}

// The parts of a normal magnitude's pattern.
pub fn fields(b: u64) -> Parts
    ensures { (result.m ≡ b % 2 ^ 52 + 2 ^ 52) × (result.k ≡ b / 2 ^ 52 + 52) }
{
    Parts {
        m: b % 0x10_0000_0000_0000 + 0x10_0000_0000_0000,
        k: (b >> 52) + 52,
    }
}

// The parts of any magnitude's pattern.
pub fn unpacked(b: u64) -> Parts
    ensures { (result.m ≡ significand b) × (result.k ≡ exponent b) }
{
    if b < 0x10_0000_0000_0000 {
        let lift = b.leading_zeros() as u64 - 11;
        return Parts {
            m: b << lift,
            k: 53 - lift,
        };
    }
    fields(b)
}

// w / 2^sh, to the nearest whole number, ties to even: up where the rest is above half a step, and at half a step from an odd quotient.
fn near(w: u64, sh: u64) -> u64
    requires { 0 < sh }
    ensures { result ≡ closest w (2 ^ sh) }
{
    if sh > 64 {
        return 0;
    }
    if sh == 64 {
        return if w > 0x8000_0000_0000_0000 { 1 } else { 0 };
    }
    let q = w >> sh;
    let r = w - (q << sh);
    if r + q % 2 > 1u64 << (sh - 1) {
        return q + 1;
    }
    q
}

// A sign and a magnitude's pattern, which is at most an infinity's.
fn signed(neg: bool, b: u64) -> f64
    requires { b ≤ 0x7ff0_0000_0000_0000 }
    ensures { result ≡ of_bits binary64 (cond neg 0x8000_0000_0000_0000 0 + b) }
{
    if neg {
        return f64::from_bits(0x8000_0000_0000_0000 + b);
    }
    f64::from_bits(b)
}

// m * 2^k / 2^2400, rounded to the nearest double, ties to even. The digits are lined up at bit 63 and cut to 53; the carry of a cut that
// rounds up runs into the exponent's field, and from the largest double into the infinity's, by itself.
pub fn rounded(neg: bool, m: u64, k: u64) -> f64
    ensures { result ≡ round binary64 neg (m * 2 ^ k) (2 ^ deep) }
{
    if m == 0 {
        return signed(neg, 0);
    }
    let lz = m.leading_zeros() as u64;
    let w = m << lz;
    let base = 1315 + lz;
    if base <= k {
        let d = k - base;
        if d > 2045 {
            return signed(neg, 0x7ff0_0000_0000_0000);
        }
        return signed(neg, d * 0x10_0000_0000_0000 + near(w, 11));
    }
    signed(neg, near(w, base - k + 11))
}
