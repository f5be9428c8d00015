// Refusals in order, for those who hold them in place of going on with `?`.
ghost use Rattle.std.specs.Prelude.{◌≡◌};
ghost use Rattle.refusals.specs.Refusals.{unless, ◌or◌};
ghost use Rattle.refusals.specs.Refusal.{number_by};

use crate::refusing::Refusing;

// A refusal: none where the test passes.
pub fn unless<E: Refusing>(ok: bool, refusal: E) -> Result<(), E>
    ensures { number_by E.value result ≡ unless ok (E.value refusal) }
{
    if ok { Ok(()) } else { Err(refusal) }
}

// The first of two refusals. The number 0 is none.
pub fn or<E: Refusing>(first: Result<(), E>, later: Result<(), E>) -> Result<(), E>
    ensures { number_by E.value result ≡ number_by E.value first or number_by E.value later }
{
    match first {
        Ok(()) => later,
        Err(refusal) => {
            if refusal.value() == 0 {
                later
            } else {
                Err(refusal)
            }
        }
    }
}
