// The next double down.
ghost use Rattle.std.specs.Prelude.{◌≡◌};
ghost use Rattle.std.specs.Float.{binary64};
ghost use Rattle.number.specs.Leaves.{next_down};

// Patterns sort as the sizes do: one less above zero, one more below. Minus infinity and NaN stay.
pub fn next_down(x: f64) -> f64
    ensures { result ≡ next_down binary64 x }
{
    if x > 0.0 {
        return f64::from_bits(x.to_bits() - 1);
    }
    if x == 0.0 {
        return f64::from_bits(0x8000_0000_0000_0001);
    }
    if x > f64::NEG_INFINITY {
        return f64::from_bits(x.to_bits() + 1);
    }
    x
}
