// How large one double is: whether it is finite, its absolute value and its whole part.
ghost use Rattle.std.specs.Prelude.{◌≡◌};
ghost use Rattle.std.specs.Float.Ieee.Scale.{finite};
ghost use Rattle.number.specs.Leaves.{absolute, whole_part};

// Neither an infinity nor a NaN.
pub fn finite(x: f64) -> bool
    ensures { result ≡ finite x }
{
    x - x == 0.0
}

// Either zero leaves plus zero when it is taken from plus zero, and NaN leaves NaN.
pub fn absolute(x: f64) -> f64
    ensures { result ≡ absolute x }
{
    let turned = 0.0 - x;
    if x > turned { x } else { turned }
}

// Rust's `floor() as usize`.
pub fn whole_part(x: f64) -> u64
    ensures { result ≡ whole_part x }
{
    std::num::saturating_f64_to_u64(x)
}
