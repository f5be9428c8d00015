// A number of 128 bits as two words, hi * 2^64 + lo.
ghost use Rattle.std.specs.Prelude.{◌≡◌, ◌+◌, ◌*◌, ◌/◌, ◌%◌, ◌^◌};

#[derive(Clone, Copy)]
pub struct Wide {
    pub hi: u64,
    pub lo: u64,
}

// The exact product of two words, from their 32-bit halves. Each sum of the high word takes one carry at a time, so that it fits in a word; the
// sums of the low word wrap. Compilers know both patterns: on a machine that multiplies words the whole is one instruction.
pub fn product(a: u64, b: u64) -> Wide
    ensures { (result.hi ≡ a * b / 2 ^ 64) × (result.lo ≡ a * b % 2 ^ 64) }
{
    let a1 = a >> 32;
    let a0 = a % 0x1_0000_0000;
    let b1 = b >> 32;
    let b0 = b % 0x1_0000_0000;
    let low = a0 * b0;
    let left = a1 * b0;
    let right = a0 * b1;
    let one = left + (low >> 32);
    let two = right + one % 0x1_0000_0000;
    let middle = left.wrapping_add(right);
    Wide {
        hi: a1 * b1 + (one >> 32) + (two >> 32),
        lo: (middle << 32).wrapping_add(low),
    }
}

// The sum, without what passes 2^128.
pub fn plus(a: Wide, b: Wide) -> Wide
    ensures { (result.hi ≡ (a.hi + b.hi + (a.lo + b.lo) / 2 ^ 64) % 2 ^ 64) × (result.lo ≡ (a.lo + b.lo) % 2 ^ 64) }
{
    let lo = a.lo.wrapping_add(b.lo);
    let hi = a.hi.wrapping_add(b.hi);
    if lo < a.lo {
        return Wide {
            hi: hi.wrapping_add(1),
            lo,
        };
    }
    Wide { hi, lo }
}
