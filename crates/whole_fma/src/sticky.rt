// Cuts of one limb and of two. The lowest digit that stays is set where the cut lost something, so that rounding still sees that there was more.
ghost use Rattle.std.specs.Prelude.{◌≡◌};
ghost use Rattle.whole_fma.specs.TwoLimbs.{whole, cut};

use limbs::wide::Wide;

// w / 2^sh, cut to a whole number.
fn cut_word(w: u64, sh: u64) -> u64
    ensures { result ≡ cut w sh }
{
    if sh > 63 {
        return if w == 0 { 0 } else { 1 };
    }
    let q = w >> sh;
    if q << sh == w {
        return q;
    }
    q - q % 2 + 1
}

// n / 2^sh, cut to a whole number. From 64 on the low limb is lost, and leaves its sticky digit in the high one.
pub(crate) fn cut_wide(n: Wide, sh: u64) -> Wide
    ensures { whole result ≡ cut (whole n) sh }
{
    if sh < 64 {
        let w = cut_word(n.lo, sh);
        return Wide {
            hi: n.hi >> sh,
            lo: ((n.hi << 1) << (63 - sh)) + w,
        };
    }
    let mut w = n.hi;
    if n.lo != 0 {
        w = n.hi - n.hi % 2 + 1;
    }
    Wide {
        hi: 0,
        lo: cut_word(w, sh - 64),
    }
}
