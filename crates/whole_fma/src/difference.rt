// Order and difference of two numbers of two limbs, by what the low limb borrows from the high one.
ghost use Rattle.std.specs.Prelude.{◌≡◌, ◌+◌, ◌^◌, ◌<◌, ◌≤◌, nat_lt};
ghost use Rattle.whole_fma.specs.TwoLimbs.{whole, borrowed};

use limbs::wide::Wide;

// What a - b borrows, where a and b are low limbs.
fn borrow(a: u64, b: u64) -> u64
    ensures { result ≡ borrowed a b }
{
    u64::from(a < b)
}

pub(crate) fn less(a: Wide, b: Wide) -> bool
    requires { b.hi < 2 ^ 63 }
    ensures { result ≡ nat_lt (whole a) (whole b) }
{
    let w = borrow(a.lo, b.lo);
    a.hi < b.hi + w
}

pub(crate) fn minus(a: Wide, b: Wide) -> Wide
    requires { (b.hi < 2 ^ 63) × (whole b ≤ whole a) }
    ensures { whole result + whole b ≡ whole a }
{
    let w = borrow(a.lo, b.lo);
    Wide {
        hi: a.hi - (b.hi + w),
        lo: a.lo.wrapping_sub(b.lo),
    }
}
