// t to s: what both modes refuse.
ghost use Rattle.std.specs.Prelude.{◌≡◌};
ghost use Rattle.refusals.specs.Refusal.{number_in};
ghost use Rattle.byte_lists.specs.Bytes.{doubles_of};
ghost use Rattle.sampling.specs.Samples.{timed_no};

use following::pass::Timed;
use list_tests::tests::Finite;
use profile::checks;
use refusals::refusal::Refusal;

// What both modes refuse: 11 to 15, 17, 18, 20 to 22.
#[tactic(auto, using(byte_lists::proofs::Fronts::length_doubles, crate::proofs::Samplings::timed_last))]
pub fn check(p: Timed<'_>) -> Result<(), Refusal>
    ensures { number_in result ≡ timed_no (doubles_of p.entry.s.now) (doubles_of p.entry.a.now) (doubles_of p.entry.t.now) }
{
    checks::check_topp2_timed(p.s, p.a, true)?;
    Refusal::TimeCount.unless(p.t.len() / 8 == p.s.len() / 8)?;
    let times = Finite::of(p.t).ok_or(Refusal::TimeNotFinite)?;
    Refusal::TimesNotIncreasing.unless(times.rises())
}
