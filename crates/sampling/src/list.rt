// t to s for a sample list, the Rust's NonUniformTimeGrid.
ghost use Rattle.std.specs.Prelude.{◌≡◌, ◌&&◌, ◌%◌, eqb};
ghost use Rattle.refusals.specs.Refusal.{number_in, numbered};
ghost use Rattle.byte_lists.specs.Bytes.{doubles_of};
ghost use Rattle.sampling.specs.List.{samples_no, ByteListed};

use crate::samples;
use byte_lists::doubles;
use following::pass;
use following::pass::{Counts, Timed};
use following::times::Listed;
use list_tests::tests::Finite;
use refusals::most;
use refusals::refusal::Refusal;

// 25, 28, 26, 27, 29: the list is not walked before its length is known to be in the limits.
#[tactic(auto, using(byte_lists::proofs::Fronts::length_doubles), unfolding(crate::specs::List::samples_no))]
fn check_samples(x: &[u8], room: usize) -> Result<(), Refusal>
    ensures { number_in result ≡ samples_no (doubles_of x.now) room }
{
    let n = x.len() / 8;
    Refusal::NoSamples.unless(0 < n)?;
    Refusal::TooManySamples.unless(n <= most::SAMPLES)?;
    let samples = Finite::of(x).ok_or(Refusal::SampleNotFinite)?;
    Refusal::SamplesNotIncreasing.unless(samples.rises())?;
    Refusal::OutputTooShort.unless(n <= room)
}

// 10 comes before all others.
fn all_in_eights(s: usize, a: usize, t: usize, x: usize, out: usize) -> bool
    ensures { result ≡ (eqb (s % 8) 0 && (eqb (a % 8) 0 && eqb (out % 8) 0)) && (eqb (t % 8) 0 && (eqb (x % 8) 0 && eqb (out % 8) 0)) }
{
    doubles::in_eights(s, a, out) && doubles::in_eights(t, x, out)
}

// The station at each sample, or NaN: 10, 11 to 15, 17, 18, 20 to 22, then the list's.
#[tactic(auto, unfolding(crate::specs::List::list_no))]
pub fn t_to_s_topp2_list(
    s: &[u8],
    a: &[u8],
    t: &[u8],
    x: &[u8],
    out: &mut [u8],
) -> Result<Counts, Refusal>
    ensures { ByteListed s.now a.now t.now x.now out.old (numbered result) out.new }
{
    Refusal::NotEights.unless(all_in_eights(s.len(), a.len(), t.len(), x.len(), out.len()))?;
    let p = Timed { s, a, t };
    samples::check(p)?;
    check_samples(x, out.len() / 8)?;
    Ok(pass::t_to_s_topp2_core(p, Listed(x), x.len() / 8, out).counts)
}
