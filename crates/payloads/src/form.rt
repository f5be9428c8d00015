// What a kind's payload is made of. That a kind is read at all is said here and nowhere else.
ghost use Rattle.std.specs.Prelude.{◌≡◌};
ghost use Rattle.refusals.specs.Refusal.{numbered};
ghost use Rattle.payloads.specs.Payload.{form_of};

use refusals::most;
use refusals::refusal::Refusal;

// A count, at most so many, and that many patterns; or an even grid.
#[derive(Clone, Copy)]
pub enum Form {
    Listed(u64),
    Grid,
}

// "1 stations, 2 squared speeds, 3 times, 4 even grid, .. 5 samples."
#[tactic(auto, unfolding(crate::specs::Payload::form_of))]
pub fn form_of(kind: u64) -> Result<Form, Refusal>
    ensures { numbered result ≡ form_of kind }
{
    match kind {
        1..=3 => Ok(Form::Listed(most::STATIONS as u64)),
        4 => Ok(Form::Grid),
        5 => Ok(Form::Listed(most::SAMPLES as u64)),
        _ => Err(Refusal::KindUnknown),
    }
}
