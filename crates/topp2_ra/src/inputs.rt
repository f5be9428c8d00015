// Refusals 1 to 4: the length of the list, and what the record itself must keep.
ghost use Rattle.std.specs.Prelude.{◌≡◌, ◌&&◌};
ghost use Rattle.refusals.specs.Refusal.{number_in};
ghost use Rattle.byte_lists.specs.Bytes.{doubles_of};
ghost use Rattle.topp2_ra.specs.Recovery.{tolerance, tolerances_good, none_nan, inputs_good, inside_previous, previous_good, current_good, request_no};

use crate::tolerant::approx_order;
use limits::bounds;
use limits::request::{Request, Tolerances};
use number::size;
use refusals::refusal::Refusal;
use rows::whole;

#[tactic(auto, unfolding(crate::specs::Recovery::tolerance))]
fn is_tolerance(t: f64) -> bool
    ensures { result ≡ tolerance t }
{
    size::finite(t) && !(t < 0.0)
}

#[tactic(auto, unfolding(crate::specs::Recovery::none_nan))]
fn none_nan(a: f64, b: f64, c: f64, d: f64) -> bool
    ensures { result ≡ none_nan a b c d }
{
    !a.is_nan() && !b.is_nan() && !c.is_nan() && !d.is_nan()
}

#[tactic(auto, unfolding(crate::specs::Recovery::tolerances_good))]
fn tolerances_good(t: Tolerances) -> bool
    ensures { result ≡ tolerances_good t }
{
    is_tolerance(t.feas) && is_tolerance(t.abs) && is_tolerance(t.rel)
}

// 2
#[tactic(auto, unfolding(crate::specs::Recovery::inputs_good))]
fn inputs_good(q: Request) -> bool
    ensures { result ≡ inputs_good q }
{
    let previous = q.prev.interval;
    let current = q.curr.interval;
    tolerances_good(q.tolerances)
        && size::finite(q.a_prev)
        && size::finite(previous.lower)
        && size::finite(previous.upper)
        && none_nan(current.lower, current.upper, q.prev.cap, q.curr.cap)
}

#[tactic(auto, unfolding(crate::specs::Recovery::inside_previous))]
fn inside_previous(q: Request, low: f64, high: f64) -> bool
    ensures { result ≡ inside_previous q low high }
{
    let abs = q.tolerances.abs;
    let rel = q.tolerances.rel;
    approx_order(q.a_prev, low, abs, rel).is_ge() && approx_order(q.a_prev, high, abs, rel).is_le()
}

// 3
#[tactic(auto, unfolding(crate::specs::Recovery::previous_good))]
fn previous_good(q: Request) -> bool
    ensures { result ≡ previous_good q }
{
    let low = bounds::lower_end(q.prev);
    let high = bounds::upper_end(q.prev);
    size::finite(low) && size::finite(high) && inside_previous(q, low, high)
}

// 4
#[tactic(auto, unfolding(crate::specs::Recovery::current_good))]
fn current_good(q: Request) -> bool
    ensures { result ≡ current_good q }
{
    let low = bounds::lower(q);
    let high = bounds::upper(q);
    size::finite(low) && size::finite(high) && !(high < low)
}

pub(crate) fn refusal(q: Request, rows: &[u8]) -> Result<(), Refusal>
    ensures { number_in result ≡ request_no q (doubles_of rows.now) }
{
    Refusal::RowsLength.unless(whole::whole_rows(rows.len() / 8))?;
    Refusal::RequestNumber.unless(inputs_good(q))?;
    Refusal::PreviousStation.unless(previous_good(q))?;
    Refusal::CurrentBounds.unless(current_good(q))
}
