// What t to s answers, told to lent numbers.
ghost use Rattle.refusals.specs.Refusal.{numbered_by};
ghost use Rattle.replies.specs.CountsTold.{Counted};

use following::pass::Counts;
use refusals::refusing::Refusing;

// The number of an answer, which may be any; its counts go to the lent numbers.
pub fn tell<E: Refusing>(
    a: Result<Counts, E>,
    before: &mut u64,
    inside: &mut u64,
    past: &mut u64,
    written: &mut u64,
) -> u64
    ensures { Counted (numbered_by E.value a) result
        before.old before.new
        inside.old inside.new
        past.old past.new
        written.old written.new }
{
    match a {
        Ok(c) => {
            *before = c.before as u64;
            *inside = c.inside as u64;
            *past = c.past as u64;
            *written = c.written as u64;
            0
        }
        Err(refusal) => refusal.value(),
    }
}
