// The middle, and what follows it: halvings between the passing middle and the rejected upper end.
ghost use Rattle.std.specs.Prelude.{◌≡◌, true, ◌<◌, ◌≤◌};
ghost use Rattle.refusals.specs.Refusal.{numbered};
ghost use Rattle.tables.specs.ByBlocks.{certificate_by, passes_by};
ghost use Rattle.search.specs.Search.{middle, after_middle, try_middle};
ghost use Rattle.search.specs.OnTable.{meet, moved, halved_sides, ends_on, halved_all};

use crate::answer::Certified;
use limits::projection::Span;
use refusals::refusal::Refusal;
use tables::trial::Trial;

// The ends of the halving, one that passes and one that is rejected, without figures: those of the last passing end alone are asked for.
#[derive(Clone, Copy)]
pub(crate) struct Sides {
    pub passing: f64,
    pub rejected: f64,
    pub tried: u64,
}

// 0.5·x + 0.5·y: half a sum could overflow.
fn middle(x: f64, y: f64) -> f64
    ensures { result ≡ middle x y }
{
    0.5 * x + 0.5 * y
}

fn at_an_end(s: Sides) -> bool
    ensures { result ≡ meet s }
{
    let m = middle(s.passing, s.rejected);
    m == s.passing || m == s.rejected
}

fn replace(s: Sides, m: f64, passes: bool) -> Sides
    requires { s.tried < 1000 }
    ensures { result ≡ moved s m passes }
{
    let tried = s.tried + 1;
    if passes {
        Sides {
            passing: m,
            rejected: s.rejected,
            tried,
        }
    } else {
        Sides {
            passing: s.passing,
            rejected: m,
            tried,
        }
    }
}

fn halve(t: Trial, s: Sides) -> Sides
    requires { s.tried < 1000 }
    ensures { result ≡ halved_sides (passes_by t.entry) s }
{
    let m = middle(s.passing, s.rejected);
    replace(s, m, t.passes(m))
}

fn halve_all(t: Trial, start: Sides) -> Sides
    requires { (start.tried < 900) × (passes_by t start.passing ≡ true) }
    ensures { (ends_on (certificate_by t.entry) result ≡ halved_all (certificate_by t.entry) start) × (passes_by t.entry result.passing ≡ true) }
{
    let mut s = start;
    for _ in 0..64u64 {
        if at_an_end(s) {
            return s;
        }
        s = halve(t, s);
    }
    s
}

// What follows a middle that passes. The passing end is the speed.
fn after_middle(t: Trial, start: Sides) -> Result<Certified, Refusal>
    requires { (start.tried < 900) × (passes_by t start.passing ≡ true) }
    ensures { numbered result ≡ after_middle (certificate_by t.entry) (ends_on (certificate_by t.entry) start) }
{
    let s = halve_all(t, start);
    match t.certify(s.passing) {
        Some(f) => Ok(Certified::with(s.passing, f, s.tried)),
        // Never: the passing end passes.
        None => Err(Refusal::MiddleFails),
    }
}

pub(crate) fn try_middle(t: Trial, s: Span, tried: u64) -> Result<Certified, Refusal>
    requires { tried ≤ 6 }
    ensures { numbered result ≡ try_middle (certificate_by t.entry) s tried }
{
    let m = middle(s.low, s.high);
    Refusal::MiddleFails.unless(t.passes(m))?;
    let start = Sides {
        passing: m,
        rejected: s.high,
        tried: tried + 1,
    };
    after_middle(t, start)
}
