// The bounds of a station.
ghost use Rattle.std.specs.Prelude.{◌≡◌};
ghost use Rattle.limits.specs.Bounds.{lower_end, upper_end, lower, upper, span_of};

use crate::projection::Span;
use crate::request::{Request, Station};
use picks::pick;

pub fn lower_end(b: Station) -> f64
    ensures { result ≡ lower_end b }
{
    pick::maximum(b.interval.lower, 0.0)
}

pub fn upper_end(b: Station) -> f64
    ensures { result ≡ upper_end b }
{
    pick::minimum(b.interval.upper, b.cap)
}

pub fn lower(q: Request) -> f64
    ensures { result ≡ lower q }
{
    lower_end(q.curr)
}

// The cap.
pub fn upper(q: Request) -> f64
    ensures { result ≡ upper q }
{
    upper_end(q.curr)
}

// Both, before any row cuts them down.
pub fn span(q: Request) -> Span
    ensures { result ≡ span_of q }
{
    Span {
        low: lower(q),
        high: upper(q),
    }
}
