// A payload's first fault.
ghost use Rattle.std.specs.Prelude.{◌≡◌, ◌*◌, eqb, get_or};
ghost use Rattle.refusals.specs.Refusal.{number_in, number_by, numbered_by};
ghost use Rattle.payloads.specs.Payload.{count_number, grid_number, payload_number};

use crate::form::Form;
use groups::{Fault, Number};
use refusals::refusal::Refusal;
use refusals::refusing::Refusing;

fn are_eights(bytes: u64, count: u64) -> bool
    ensures { result ≡ eqb bytes (8 * count) }
{
    bytes % 8 == 0 && bytes / 8 == count
}

#[tactic(auto, unfolding(crate::specs::Payload::count_number))]
fn count_number(limit: u64, end: usize, found: Result<Number, Fault>) -> Result<(), Refusal>
    ensures { number_in result ≡ count_number limit end found }
{
    match found {
        Ok(Number { value, next }) => {
            Refusal::PayloadForm.unless(value <= limit)?;
            Refusal::PayloadForm.unless(are_eights(end.saturating_sub(next) as u64, value))
        }
        Err(Fault::Cut) => Err(Refusal::PayloadForm),
        Err(Fault::Faulty) => Err(Refusal::FileNumber),
    }
}

// 0 where there is none.
fn byte(file: &[u8], at: usize) -> u8
    ensures { result ≡ get_or file.now at 0 }
{
    file.get(at).copied().unwrap_or(0)
}

#[tactic(auto, unfolding(crate::specs::Payload::grid_number))]
fn grid_number(file: &[u8], start: usize, end: usize) -> Result<(), Refusal>
    ensures { number_in result ≡ grid_number file.now start end }
{
    Refusal::PayloadForm.unless(end.saturating_sub(start) == 17)?;
    Refusal::PayloadForm.unless(byte(file, start + 16) <= 1)
}

// Of the payload from one place of a file to another. The refusal of what is no kind may be any.
#[tactic(auto, unfolding(crate::specs::Payload::payload_number))]
pub fn payload_number<E: Refusing>(
    file: &[u8],
    form: Result<Form, E>,
    start: usize,
    end: usize,
) -> Result<(), E>
    ensures { number_by E.value result ≡ payload_number file.now (numbered_by E.value form) start end }
{
    let judged = match form? {
        Form::Listed(limit) => count_number(limit, end, groups::read(file, start, end)),
        Form::Grid => grid_number(file, start, end),
    };
    match judged {
        Ok(()) => Ok(()),
        Err(refusal) => Err(E::of(refusal)),
    }
}
