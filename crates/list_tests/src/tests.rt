// The tests of one list of doubles. None ends its loop early: what does not branch is done for several entries at once. A list whose entries are all finite is
// then read without a look for NaN.
ghost use Rattle.std.specs.Prelude.{◌≡◌, ◌-◌, ◌/◌, ◌<◌, ◌≤◌, true, false, Bool, cond, length, MatchOption};
ghost use Rattle.std.specs.Float.{binary64};
ghost use Rattle.std.specs.Float.Ieee.{Float, lt, of_bits};
ghost use Rattle.std.specs.Float.Ieee.Scale.{finite};
ghost use Rattle.loops.specs.Upto.{at};
ghost use Rattle.loops.specs.Entries.{every_entry, every_pair};
ghost use Rattle.byte_lists.specs.Bytes.{doubles_of};
ghost use Rattle.list_tests.specs.Tests.{not_below_zero, not_both_zero};

use byte_lists::doubles;

// 1 for an exponent that is all ones, an infinity's or a NaN's, and else 0: it carries into the sign's place.
fn endless(pattern: u64) -> u64
    ensures { (result ≡ cond (finite (of_bits binary64 pattern)) 0 1) × (result ≤ 1) }
{
    (pattern % 0x8000_0000_0000_0000 + 0x10_0000_0000_0000) / 0x8000_0000_0000_0000
}

pub fn all_finite(b: &[u8]) -> bool
    ensures { result ≡ every_entry finite (doubles_of b.now) }
{
    let mut count = 0;
    for k in 0..b.len() / 8 {
        count += endless(doubles::pattern_at(b, k));
    }
    count == 0
}

// A list whose entries are all finite.
#[derive(Clone, Copy)]
pub struct Finite<'a> {
    pub bytes: &'a [u8],
    pub ghost every_finite: { every_entry finite (doubles_of bytes.now) ≡ true },
}

impl<'a> Finite<'a> {
    pub fn of(bytes: &'a [u8]) -> Option<Finite<'a>>
        ensures { MatchOption result (every_entry finite (doubles_of bytes.now) ≡ false) (λ f. f.bytes.now ≡ bytes.now) }
    {
        if all_finite(bytes) {
            Some(Finite { bytes })
        } else {
            None
        }
    }

    pub fn len(self) -> usize
        ensures { result ≡ length (doubles_of self.entry.bytes.now) }
    {
        self.bytes.len() / 8
    }

    // NaN where there is none.
    pub fn get(self, k: usize) -> f64
        ensures { result ≡ at (doubles_of self.entry.bytes.now) k }
    {
        if k < self.bytes.len() / 8 {
            f64::from_bits(doubles::pattern_at(self.bytes, k))
        } else {
            f64::NAN
        }
    }

    pub fn none_below_zero(self) -> bool
        ensures { result ≡ every_entry not_below_zero (doubles_of self.entry.bytes.now) }
    {
        let mut all = true;
        for k in 0..self.len() {
            all &= !(self.get(k) < 0.0);
        }
        all
    }

    // What `test` asks of each entry with the next.
    fn every_pair<F: Fn(f64, f64) -> bool>(self, test: F) -> bool
        requires { F.IsAlwaysCallable test }
        ensures { (p : Float → Float → Bool) → ((x y : Float) (r : Bool) → F.post test x y r → r ≡ p x y)
            → result ≡ every_pair p (doubles_of self.entry.bytes.now) }
    {
        let mut all = true;
        for k in 1..self.len() {
            all &= test(self.get(k - 1), self.get(k));
        }
        all
    }

    pub fn rises(self) -> bool
        ensures { result ≡ every_pair lt (doubles_of self.entry.bytes.now) }
    {
        self.every_pair(|x, y| x < y)
    }

    pub fn never_still(self) -> bool
        ensures { result ≡ every_pair not_both_zero (doubles_of self.entry.bytes.now) }
    {
        self.every_pair(|x, y| !(x == 0.0 && y == 0.0))
    }
}
