// Whether a call leaves behind what it must: its number and the lent numbers; and what the whole output is compared with.
ghost use Rattle.std.specs.Prelude.{◌≡◌, length};
ghost use Rattle.loops.specs.Upto.{filled};
ghost use Rattle.calls.specs.Marks.{mark_at};

use crate::calling::{Told, call, leaf};
use crate::entry::Entry;
use byte_lists::doubles::pattern_at;

// What the output holds before a call: something else at each place, so that bytes moved within it are seen as well.
#[tactic(auto, using(loops::proofs::Filling::fill_none, loops::proofs::Filling::fill_turn), unfolding(crate::specs::Marks::mark_at))]
pub fn mark(out: &mut [u8])
    ensures { out.new ≡ filled mark_at (length out.old) out.old }
{
    for i in 0..out.len() {
        out[i] = ((i as u64).wrapping_mul(0x9e37_79b9) / 128 % 256) as u8;
    }
}

// Five numbers: what the call must return, and the lent numbers after it.
fn told(expected: &[u8]) -> Told {
    Told {
        number: pattern_at(expected, 0),
        first: pattern_at(expected, 1),
        second: pattern_at(expected, 2),
        third: pattern_at(expected, 3),
        fourth: pattern_at(expected, 4),
    }
}

// A number that is no entry's is taken for the last one's. Of a leaf the first number alone, its answer, is expected.
// What the call leaves in the output is the caller's to compare.
pub fn agrees(case: &[u8], expected: &[u8], out: &mut [u8]) -> bool {
    mark(out);
    let entry = Entry::try_from(pattern_at(case, 1)).unwrap_or(Entry::CutFileSection);
    match leaf(entry, case) {
        Some(answer) => answer == pattern_at(expected, 0),
        None => call(entry, case, out) == told(expected),
    }
}
