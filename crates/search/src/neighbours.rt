// The projected upper end and up to four next-down doubles. What follows them is told, and not called: the middle.
ghost use Rattle.std.specs.Prelude.{◌≡◌, ◌≤◌};
ghost use Rattle.search.specs.Search.{try_neighbours};
ghost use Rattle.tables.specs.ByBlocks.{certificate_by};
ghost use Rattle.search.specs.OnTable.{tried_before};

use crate::answer::Certified;
use limits::projection::Span;
use number::step;
use tables::trial::Trial;

// A candidate that passes, or the number of those tried before the middle.
#[derive(Clone, Copy)]
pub enum Near {
    Found(Certified),
    ToMiddle(u64),
}

// The cap was tried before.
pub(crate) fn try_neighbours(t: Trial, s: Span) -> Near
    ensures { (result ≡ try_neighbours (certificate_by t.entry) s) × (tried_before result ≤ 6) }
{
    let mut x = s.high;
    for tried in 1..6 {
        if x < s.low {
            return Near::ToMiddle(tried);
        }
        if let Some(f) = t.certify(x) {
            return Near::Found(Certified::with(x, f, tried + 1));
        }
        x = step::next_down(x);
    }
    Near::ToMiddle(6)
}
