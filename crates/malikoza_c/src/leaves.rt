// The number leaves on patterns. They refuse nothing.
ghost use Rattle.std.specs.Prelude.{◌≡◌};
ghost use Rattle.std.specs.Float.{binary64};
ghost use Rattle.std.specs.Float.Ieee.{of_bits, to_bits};
ghost use Rattle.number.specs.Leaves.{next_down, minimum, maximum, absolute, whole_part};
ghost use Rattle.roots.specs.Root.{sqrt_of, Rooted};
ghost use Rattle.roots.specs.Hypot.{hypot_of, Spanned};
ghost use Rattle.fused.specs.Fused.{fma_of, Fused};

use malikoza::leaves;

#[unsafe(no_mangle)]
pub extern "C" fn malikoza_sqrt(x: u64) -> u64
    ensures { (result ≡ to_bits binary64 (sqrt_of binary64 (of_bits binary64 x))) × Rooted binary64 (of_bits binary64 x) (of_bits binary64 result) }
{
    leaves::malikoza_sqrt(x)
}

#[unsafe(no_mangle)]
pub extern "C" fn malikoza_fma(x: u64, y: u64, z: u64) -> u64
    ensures { (result ≡ to_bits binary64 (fma_of binary64 (of_bits binary64 x) (of_bits binary64 y) (of_bits binary64 z)))
        × Fused binary64 (of_bits binary64 x) (of_bits binary64 y) (of_bits binary64 z) (of_bits binary64 result) }
{
    leaves::malikoza_fma(x, y, z)
}

#[unsafe(no_mangle)]
pub extern "C" fn malikoza_hypot(x: u64, y: u64) -> u64
    ensures { (result ≡ to_bits binary64 (hypot_of binary64 (of_bits binary64 x) (of_bits binary64 y)))
        × Spanned binary64 (of_bits binary64 x) (of_bits binary64 y) (of_bits binary64 result) }
{
    leaves::malikoza_hypot(x, y)
}

#[unsafe(no_mangle)]
pub extern "C" fn malikoza_next_down(x: u64) -> u64
    ensures { result ≡ to_bits binary64 (next_down binary64 (of_bits binary64 x)) }
{
    leaves::malikoza_next_down(x)
}

#[unsafe(no_mangle)]
pub extern "C" fn malikoza_minimum(x: u64, y: u64) -> u64
    ensures { result ≡ to_bits binary64 (minimum (of_bits binary64 x) (of_bits binary64 y)) }
{
    leaves::malikoza_minimum(x, y)
}

#[unsafe(no_mangle)]
pub extern "C" fn malikoza_maximum(x: u64, y: u64) -> u64
    ensures { result ≡ to_bits binary64 (maximum (of_bits binary64 x) (of_bits binary64 y)) }
{
    leaves::malikoza_maximum(x, y)
}

#[unsafe(no_mangle)]
pub extern "C" fn malikoza_absolute(x: u64) -> u64
    ensures { result ≡ to_bits binary64 (absolute (of_bits binary64 x)) }
{
    leaves::malikoza_absolute(x)
}

// The number itself, and no pattern.
#[unsafe(no_mangle)]
pub extern "C" fn malikoza_whole_part(x: u64) -> u64
    ensures { result ≡ whole_part (of_bits binary64 x) }
{
    leaves::malikoza_whole_part(x)
}
