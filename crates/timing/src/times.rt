// s to t: the time at each station, added up from the left.
ghost use Rattle.std.specs.Prelude.{◌≡◌, ◌+◌, ◌*◌, ◌-◌, ◌/◌, ◌<◌, ◌≤◌, length};
ghost use Rattle.refusals.specs.Most.{most_stations};
ghost use Rattle.refusals.specs.Refusal.{number_in};
ghost use Rattle.loops.specs.Upto.{filled, at};
ghost use Rattle.byte_lists.specs.Bytes.{doubles_of, byte_of};
ghost use Rattle.timing.specs.Times.{leg, time_at, ByteTimes, Settled};

use byte_lists::doubles;
use number::size;
use profile::checks;
use profile::checks::Profile;
use refusals::most;
use refusals::refusal::Refusal;
use roots::square_root;

// The time from one station to the next, by the roots of their squared speeds.
fn leg(s0: f64, s1: f64, root: f64, next: f64) -> f64
    ensures { result ≡ leg s0 s1 root next }
{
    2.0 * (s1 - s0) / (root + next)
}

// Each station is read and each root worked out once: it ends one leg and begins the next. The last time is the answer.
fn fill(p: Profile<'_>, t0: f64, out: &mut [f64]) -> f64
    requires { length (doubles_of p.stations.bytes.now) ≤ length out.old }
    ensures { let s = doubles_of p.entry.stations.bytes.now in
        let a = doubles_of p.entry.speeds.bytes.now in
        (result ≡ time_at s a t0 (length s - 1)) × (out.new ≡ filled (time_at s a t0) (length s) out.old) }
{
    out[0] = t0;
    let mut t = t0;
    let mut here = p.stations.get(0);
    let mut root = square_root::sqrt(p.speeds.get(0));
    for k in 1..p.stations.len() {
        let next = square_root::sqrt(p.speeds.get(k));
        let there = p.stations.get(k);
        t = t + leg(here, there, root, next);
        here = there;
        root = next;
        out[k] = t;
    }
    t
}

// Times as bytes. A length that is told here, beside the loop, is not tested in it.
fn write(times: &[f64], out: &mut [u8])
    requires { length times.now ≤ length out.old / 8 }
    ensures { out.new ≡ filled (byte_of (at times.now)) (8 * length times.now) out.old }
{
    if times.len() <= out.len() / 8 {
        for (k, t) in times.iter().enumerate() {
            doubles::put(out, k, *t);
        }
    }
}

// The times are worked out aside: nothing is written before the last is known to be finite. No time after one that is not finite is.
fn settle(p: Profile<'_>, t0: f64, aside: &mut [f64], out: &mut [u8]) -> Result<(), Refusal>
    requires aside { length (doubles_of p.stations.bytes.now) ≤ length aside.old }
    requires room { length (doubles_of p.stations.bytes.now) ≤ length out.old / 8 }
    ensures { Settled p.entry.stations.bytes.now p.entry.speeds.bytes.now t0 out.old (number_in result) out.new }
{
    let last = fill(p, t0, aside);
    Refusal::ComputedTimeNotFinite.unless(size::finite(last))?;
    write(&aside[..p.stations.len()], out);
    Ok(())
}

// An array is cleared before it is used: few stations take a small one.
fn settle_in<const N: usize>(p: Profile<'_>, t0: f64, out: &mut [u8]) -> Result<(), Refusal>
    requires size { N ≤ most_stations }
    requires few { length (doubles_of p.stations.bytes.now) ≤ N }
    requires room { length (doubles_of p.stations.bytes.now) ≤ length out.old / 8 }
    ensures { Settled p.entry.stations.bytes.now p.entry.speeds.bytes.now t0 out.old (number_in result) out.new }
{
    let mut aside = [0.0; N];
    settle(p, t0, &mut aside, out)
}

// The time at each station, t0 at the first: 10 to 18, 29, 19.
#[tactic(auto, using(crate::proofs::Timing::start_last), unfolding(crate::specs::Times::times_no))]
pub fn s_to_t_topp2(s: &[u8], a: &[u8], t0: f64, out: &mut [u8]) -> Result<(), Refusal>
    ensures { ByteTimes s.now a.now t0 out.old (number_in result) out.new }
{
    Refusal::NotEights.unless(doubles::in_eights(s.len(), a.len(), out.len()))?;
    let p = checks::check_topp2_timed(s, a, size::finite(t0))?;
    Refusal::OutputTooShort.unless(p.stations.len() <= out.len() / 8)?;
    if p.stations.len() <= 256 {
        settle_in::<256>(p, t0, out)
    } else {
        settle_in::<{ most::STATIONS }>(p, t0, out)
    }
}
