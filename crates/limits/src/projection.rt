// The projection, of one row: it cuts the speeds down to those at most, or at least, r/c.
ghost use Rattle.std.specs.Prelude.{◌≡◌};
ghost use Rattle.limits.specs.Projection.{cut_by, flat_by, reach_of};

use picks::pick;
use rows::block::Block;

// The projected ends.
#[derive(Clone, Copy)]
pub struct Span {
    pub low: f64,
    pub high: f64,
}

// r of a row.
pub fn reach(tol: f64, b: Block) -> f64
    ensures { result ≡ reach_of tol b }
{
    let inv = 1.0 / b.norm;
    b.bound + pick::minimum(tol, b.tol * inv) - b.shift
}

pub fn cut(s: Span, c: f64, r: f64) -> Span
    ensures { result ≡ cut_by s c r }
{
    if 0.0 < c {
        return Span {
            low: s.low,
            high: pick::minimum(s.high, r / c),
        };
    }
    if c < 0.0 {
        return Span {
            low: pick::maximum(s.low, r / c),
            high: s.high,
        };
    }
    s
}

// c zero, and r below zero.
#[tactic(auto, unfolding(crate::specs::Projection::flat_by))]
pub fn is_flat(c: f64, r: f64) -> bool
    ensures { result ≡ flat_by c r }
{
    !(0.0 < c) && !(c < 0.0) && r < 0.0
}
