// Guesses, in floats: numbers near a root, of which nothing is promised.
ghost use Rattle.std.specs.Prelude.{◌<◌};

// From x and its pattern b: half of the exponent, and two rounds of Heron.
fn rough(x: f64, b: u64) -> f64
    requires { b < 0x7ff0_0000_0000_0000 }
{
    let y0 = f64::from_bits((b >> 1) + 0x1ff7_6f4b_0000_0000);
    let y1 = y0 + x / y0;
    0.25 * y1 + x / y1
}

// From a root's upper digits s, whose square is d too large: to the second order.
fn nearer(s: f64, d: f64) -> f64 {
    let i = 0.5 / s;
    let c = d * i;
    s - (c + c * c * i)
}

// Near the root of h / 2^32. A large number added and taken off again leaves s so short that its square is exact.
pub(crate) fn of_whole(h: u64) -> f64 {
    let f = (h >> 32) as f64;
    let s = rough(f, f.to_bits()) + 3298534883328.0 - 3298534883328.0;
    nearer(s, s * s - f - (h % 0x1_0000_0000) as f64 / 4294967296.0)
}

// Near the root of the value that has the pattern b. Here a multiple of y is added and taken off.
pub(crate) fn of_pattern(b: u64) -> f64
    requires { b < 0x7ff0_0000_0000_0000 }
{
    let x = f64::from_bits(b);
    let y = rough(x, b);
    let t = y * 134217728.0;
    let s = y + t - t;
    nearer(s, s * s - x)
}
