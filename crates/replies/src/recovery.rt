// Recovery on a byte list of rows, and its answer told to lent numbers.
ghost use Rattle.std.specs.Prelude.{◌≡◌};
ghost use Rattle.refusals.specs.Refusal.{numbered, numbered_by};
ghost use Rattle.replies.specs.AnswerTold.{recovered_bytes, Told};

use limits::request::Request;
use patterns::pattern::pattern_of;
use refusals::refusal::Refusal;
use refusals::refusing::Refusing;
use search::answer::Certified;
use topp2_ra::recovery::recover_forward_intersection;

#[tactic(auto, unfolding(crate::specs::AnswerTold::recovered_bytes))]
pub fn recover_bytes(q: Request, rows: &[u8]) -> Result<Certified, Refusal>
    ensures { numbered result ≡ recovered_bytes q rows.now }
{
    Refusal::NotEights.unless(rows.len() % 8 == 0)?;
    recover_forward_intersection(q, rows)
}

// The number of an answer, which may be any; its values go to the lent numbers.
pub fn tell<E: Refusing>(
    a: Result<Certified, E>,
    speed: &mut u64,
    worst_normalized: &mut u64,
    worst_raw: &mut u64,
    tried: &mut u64,
) -> u64
    ensures { Told (numbered_by E.value a) result
        speed.old speed.new
        worst_normalized.old worst_normalized.new
        worst_raw.old worst_raw.new
        tried.old tried.new }
{
    match a {
        Ok(c) => {
            *speed = pattern_of(c.speed);
            *worst_normalized = pattern_of(c.worst_normalized);
            *worst_raw = pattern_of(c.worst_raw);
            *tried = c.tried;
            0
        }
        Err(refusal) => refusal.value(),
    }
}
