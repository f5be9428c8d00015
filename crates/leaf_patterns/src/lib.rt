// The number leaves on patterns. They refuse nothing. Of the root, fused multiply-add and hypot the contract gives the pattern, and says that what it reads
// as is nearest to the exact value, and that no other value is.
#![tactic(auto)]

ghost use Rattle.std.specs.Prelude.{◌≡◌};
ghost use Rattle.std.specs.Float.{binary64};
ghost use Rattle.std.specs.Float.Ieee.{of_bits, to_bits};
ghost use Rattle.number.specs.Leaves.{next_down, minimum, maximum, absolute, whole_part};
ghost use Rattle.roots.specs.Root.{sqrt_of, Rooted};
ghost use Rattle.roots.specs.Hypot.{hypot_of, Spanned};
ghost use Rattle.fused.specs.Fused.{fma_of, Fused};

use fused::multiply_add;
use number::{size, step};
use patterns::pattern::{double_of, pattern_of};
use picks::pick;
use roots::{hypot, square_root};

pub fn sqrt(x: u64) -> u64
    ensures { (result ≡ to_bits binary64 (sqrt_of binary64 (of_bits binary64 x))) × Rooted binary64 (of_bits binary64 x) (of_bits binary64 result) }
{
    pattern_of(square_root::sqrt(double_of(x)))
}

pub fn fma(x: u64, y: u64, z: u64) -> u64
    ensures { (result ≡ to_bits binary64 (fma_of binary64 (of_bits binary64 x) (of_bits binary64 y) (of_bits binary64 z)))
        × Fused binary64 (of_bits binary64 x) (of_bits binary64 y) (of_bits binary64 z) (of_bits binary64 result) }
{
    pattern_of(multiply_add::fma(double_of(x), double_of(y), double_of(z)))
}

pub fn hypot(x: u64, y: u64) -> u64
    ensures { (result ≡ to_bits binary64 (hypot_of binary64 (of_bits binary64 x) (of_bits binary64 y)))
        × Spanned binary64 (of_bits binary64 x) (of_bits binary64 y) (of_bits binary64 result) }
{
    pattern_of(hypot::hypot(double_of(x), double_of(y)))
}

pub fn next_down(x: u64) -> u64
    ensures { result ≡ to_bits binary64 (next_down binary64 (of_bits binary64 x)) }
{
    pattern_of(step::next_down(double_of(x)))
}

pub fn minimum(x: u64, y: u64) -> u64
    ensures { result ≡ to_bits binary64 (minimum (of_bits binary64 x) (of_bits binary64 y)) }
{
    pattern_of(pick::minimum(double_of(x), double_of(y)))
}

pub fn maximum(x: u64, y: u64) -> u64
    ensures { result ≡ to_bits binary64 (maximum (of_bits binary64 x) (of_bits binary64 y)) }
{
    pattern_of(pick::maximum(double_of(x), double_of(y)))
}

pub fn absolute(x: u64) -> u64
    ensures { result ≡ to_bits binary64 (absolute (of_bits binary64 x)) }
{
    pattern_of(size::absolute(double_of(x)))
}

// The number itself, and no pattern.
pub fn whole_part(x: u64) -> u64
    ensures { result ≡ whole_part (of_bits binary64 x) }
{
    size::whole_part(double_of(x))
}
