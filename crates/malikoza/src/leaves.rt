// The number leaves on patterns. They refuse nothing. Of the root, fused multiply-add and hypot the contract gives the pattern, and says that what it reads
// as is nearest to the exact value, and that no other value is.
ghost use Rattle.std.specs.Prelude.{◌≡◌};
ghost use Rattle.std.specs.Float.{binary64};
ghost use Rattle.std.specs.Float.Ieee.{of_bits, to_bits};
ghost use Rattle.number.specs.Leaves.{next_down, minimum, maximum, absolute, whole_part};
ghost use Rattle.roots.specs.Root.{sqrt_of, Rooted};
ghost use Rattle.roots.specs.Hypot.{hypot_of, Spanned};
ghost use Rattle.fused.specs.Fused.{fma_of, Fused};

pub fn malikoza_sqrt(x: u64) -> u64
    ensures { (result ≡ to_bits binary64 (sqrt_of binary64 (of_bits binary64 x))) × Rooted binary64 (of_bits binary64 x) (of_bits binary64 result) }
{
    leaf_patterns::sqrt(x)
}

pub fn malikoza_fma(x: u64, y: u64, z: u64) -> u64
    ensures { (result ≡ to_bits binary64 (fma_of binary64 (of_bits binary64 x) (of_bits binary64 y) (of_bits binary64 z)))
        × Fused binary64 (of_bits binary64 x) (of_bits binary64 y) (of_bits binary64 z) (of_bits binary64 result) }
{
    leaf_patterns::fma(x, y, z)
}

pub fn malikoza_hypot(x: u64, y: u64) -> u64
    ensures { (result ≡ to_bits binary64 (hypot_of binary64 (of_bits binary64 x) (of_bits binary64 y)))
        × Spanned binary64 (of_bits binary64 x) (of_bits binary64 y) (of_bits binary64 result) }
{
    leaf_patterns::hypot(x, y)
}

pub fn malikoza_next_down(x: u64) -> u64
    ensures { result ≡ to_bits binary64 (next_down binary64 (of_bits binary64 x)) }
{
    leaf_patterns::next_down(x)
}

pub fn malikoza_minimum(x: u64, y: u64) -> u64
    ensures { result ≡ to_bits binary64 (minimum (of_bits binary64 x) (of_bits binary64 y)) }
{
    leaf_patterns::minimum(x, y)
}

pub fn malikoza_maximum(x: u64, y: u64) -> u64
    ensures { result ≡ to_bits binary64 (maximum (of_bits binary64 x) (of_bits binary64 y)) }
{
    leaf_patterns::maximum(x, y)
}

pub fn malikoza_absolute(x: u64) -> u64
    ensures { result ≡ to_bits binary64 (absolute (of_bits binary64 x)) }
{
    leaf_patterns::absolute(x)
}

// The number itself, and no pattern.
pub fn malikoza_whole_part(x: u64) -> u64
    ensures { result ≡ whole_part (of_bits binary64 x) }
{
    leaf_patterns::whole_part(x)
}
