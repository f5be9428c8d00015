// The whole part of a root, twice, and one more where the root is not whole: all that rounding has to know of it.
ghost use Rattle.std.specs.Prelude.{◌≡◌, ◌+◌, ◌*◌, ◌/◌, ◌^◌, ◌<◌, ◌≤◌};
ghost use Rattle.exact_roots.specs.CutRoot.{stick_more};

// Near the root of d. In each octave, which the leading zero count tells, a straight line is never more than 1 in 100 away from it. Only a range is
// promised.
fn line(d: u64) -> u64
    requires { d < 2 ^ 31 }
    ensures { (2 ^ 13 ≤ result) × (result < 65000) × (d < result * 65000) }
{
    match d.leading_zeros() {
        35 => 0x25fb + (d * 0x1_aa48 >> 32),
        34 => 0x35b7 + (d * 0x1_2d6d >> 32),
        _ => 0x4bf6 + (d * 0xd524 >> 32),
    }
}

// Near the root of n: a round of Heron from the line, on the upper digits of n alone, which takes a shorter division. Any number of this range will do.
fn guess(n: u64) -> u64
    requires { n < 2 ^ 63 }
    ensures { (n < result * 2 ^ 32) × (result < 2 ^ 32) }
{
    let d = n >> 32;
    let g = line(d);
    (g + d / g) * 0x8000
}

// A round of Heron: the mean of s and n / s.
fn closer(n: u64, s: u64) -> u64
    requires { (n < 2 ^ 63) × (0 < s) × (s < 2 ^ 32) }
    ensures { result ≡ (s + n / s) / 2 }
{
    (s + n / s) / 2
}

// The whole part of n's root, by Heron's rounds. From the first on they give no less than the root, and fall until they reach it: most often at once.
fn heron(n: u64) -> u64
    requires { n < 2 ^ 63 }
    ensures { (result * result ≤ n) × (n < (result + 1) * (result + 1)) }
{
    let mut s = closer(n, guess(n));
    while n < s * s {
        s = closer(n, s);
    }
    s
}

// The root of (s^2 + t) * 2^48 + l, from the root s of its upper part and what that leaves, t: 24 digits more, by one division.
// z is not 0 where more was cut off below l.
fn longer(s: u64, t: u64, l: u64, z: u64) -> u64
    requires { (2 ^ 30 ≤ s) × (s < 2 ^ 32) × (t ≤ 2 * s) × (l < 2 ^ 48) × (z < 2 ^ 62) }
    ensures { result ≡ stick_more ((s * s + t) * 2 ^ 48 + l) z }
{
    let t = t * 0x100_0000 + l / 0x100_0000;
    let q = t / (2 * s);
    let u = t % (2 * s);
    let r = s * 0x100_0000 + q;
    // The number and a are r^2 and b.
    let a = q * q;
    let b = u * 0x100_0000 + l % 0x100_0000;
    if b < a {
        return 2 * r - 1;
    }
    if a < b + z {
        return 2 * r + 1;
    }
    2 * r
}

// The root of n * 2^48 + l. z is not 0 where more was cut off below l.
pub(crate) fn root(n: u64, l: u64, z: u64) -> u64
    requires { (2 ^ 60 ≤ n) × (n < 2 ^ 63) × (l < 2 ^ 48) × (z < 2 ^ 62) }
    ensures { result ≡ stick_more (n * 2 ^ 48 + l) z }
{
    let s = heron(n);
    longer(s, n - s * s, l, z)
}
