// The lesser and the greater of two doubles: a NaN yields the other operand, and minus zero counts
// below plus zero.
ghost use Rattle.std.specs.Prelude.{◌≡◌, not, cond, T};
ghost use Rattle.std.specs.Float.Ieee.{is_nan};
ghost use Rattle.number.specs.Leaves.{negative, minimum, maximum};

fn negative(x: f64) -> bool
    requires { T (not (is_nan x)) }
    ensures { result ≡ negative x }
{
    x.to_bits() >= 0x8000_0000_0000_0000
}

// What a NaN yields: of a NaN and another operand the other one.
fn other(x: f64, y: f64) -> f64
    ensures { result ≡ cond (is_nan x) y x }
{
    if x.is_nan() { y } else { x }
}

// Equal doubles differ at most in a zero's sign.
pub fn minimum(x: f64, y: f64) -> f64
    ensures { result ≡ minimum x y }
{
    if x < y {
        return x;
    }
    if y < x {
        return y;
    }
    if x == y {
        return if negative(x) { x } else { y };
    }
    other(x, y)
}

pub fn maximum(x: f64, y: f64) -> f64
    ensures { result ≡ maximum x y }
{
    if x > y {
        return x;
    }
    if y > x {
        return y;
    }
    if x == y {
        return if negative(y) { x } else { y };
    }
    other(x, y)
}
