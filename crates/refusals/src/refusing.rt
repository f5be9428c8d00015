// What a refusal is handed on as: its name, or a number, which may be any.
ghost use Rattle.std.specs.Prelude.{◌≡◌, ℕ};
ghost use Rattle.refusals.specs.Refusal.{number_of};

use crate::refusal::Refusal;

pub trait Refusing: Copy {
    ghost value: { Self → ℕ };

    fn value(self) -> u64
        ensures { result ≡ value self };

    fn of(refusal: Refusal) -> Self
        ensures { value result ≡ number_of refusal };
}

impl Refusing for Refusal {
    ghost value = { number_of };

    fn value(self) -> u64 {
        self.number()
    }

    fn of(refusal: Refusal) -> Refusal {
        refusal
    }
}

impl Refusing for u64 {
    ghost value = { λ n. n };

    fn value(self) -> u64 {
        self
    }

    fn of(refusal: Refusal) -> u64 {
        refusal.number()
    }
}
