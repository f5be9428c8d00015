// A step on a byte list of rows, and what it leaves of the words.
ghost use Rattle.std.specs.Prelude.{◌≡◌};
ghost use Rattle.refusals.specs.Refusal.{numbered_by};
ghost use Rattle.requests.specs.FromPatterns.{station_of};
ghost use Rattle.walk.specs.Walking.{numbered_step};
ghost use Rattle.walk_words.specs.Words.{walk_of, stepped_bytes, words_after};

use crate::state::{walk_of, words_of};
use limits::request::Station;
use refusals::refusal::Refusal;
use refusals::refusing::Refusing;
use requests::from_patterns::station_of;
use search::answer::Certified;
use walk::state::Walk;
use walk::step::Stepped;

pub fn step_bytes(w: Walk, station: Station, rows: &[u8]) -> Stepped
    ensures { numbered_step result ≡ stepped_bytes w station rows.now }
{
    if rows.len() % 8 == 0 {
        return w.step(station, rows);
    }
    Stepped {
        walk: w,
        answer: Err(Refusal::NotEights),
    }
}

// From eight words to the station of three patterns.
pub fn step_words(words: [u64; 8], lower: u64, upper: u64, cap: u64, rows: &[u8]) -> Stepped
    ensures { numbered_step result ≡ stepped_bytes (walk_of words) (station_of lower upper cap) rows.now }
{
    step_bytes(walk_of(words), station_of(lower, upper, cap), rows)
}

// A refused step writes nothing, whatever refuses it.
pub fn leave<E: Refusing>(walk: Walk, answer: Result<Certified, E>, words: &mut [u64; 8])
    ensures { words.new ≡ words_after (numbered_by E.value answer) walk words.old }
{
    if answer.is_ok() {
        *words = words_of(walk);
    }
}
