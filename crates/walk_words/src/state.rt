// A walk's state as eight words: the patterns of feas_tol, a_cmp_abs_tol and a_cmp_rel_tol, of the last committed speed, of the last station's lower, upper and
// cap; then the count of stations. Any eight words are a state.
ghost use Rattle.std.specs.Prelude.{◌≡◌};
ghost use Rattle.std.specs.Float.{binary64};
ghost use Rattle.std.specs.Float.Ieee.{of_bits};
ghost use Rattle.requests.specs.FromPatterns.{station_of, tolerances_of};
ghost use Rattle.walk.specs.Walking.{started};
ghost use Rattle.walk_words.specs.Words.{walk_of, words_of};

use patterns::pattern::{double_of, pattern_of};
use requests::from_patterns::{station_of, tolerances_of};
use walk::state::{Walk, start};

pub fn walk_of(words: [u64; 8]) -> Walk
    ensures { result ≡ walk_of words }
{
    Walk {
        tolerances: tolerances_of(words[0], words[1], words[2]),
        speed: double_of(words[3]),
        station: station_of(words[4], words[5], words[6]),
        count: words[7],
    }
}

pub fn words_of(w: Walk) -> [u64; 8]
    ensures { result ≡ words_of w }
{
    let t = w.tolerances;
    let s = w.station;
    [
        pattern_of(t.feas),
        pattern_of(t.abs),
        pattern_of(t.rel),
        pattern_of(w.speed),
        pattern_of(s.interval.lower),
        pattern_of(s.interval.upper),
        pattern_of(s.cap),
        w.count,
    ]
}

// Those of a walk's start.
pub fn start_words(
    feas: u64,
    abs: u64,
    rel: u64,
    speed: u64,
    lower: u64,
    upper: u64,
    cap: u64,
) -> [u64; 8]
    ensures { result ≡ words_of (started (tolerances_of feas abs rel) (of_bits binary64 speed) (station_of lower upper cap)) }
{
    let tolerances = tolerances_of(feas, abs, rel);
    let station = station_of(lower, upper, cap);
    words_of(start(tolerances, double_of(speed), station))
}
