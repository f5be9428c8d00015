// A row as it is read: refused with 5 or 6, silent, or what it says. Each norm is worked out here and nowhere else.
ghost use Rattle.std.specs.Prelude.{◌≡◌, ◌&&◌};
ghost use Rattle.std.specs.Float.Ieee.Scale.{finite};
ghost use Rattle.number.specs.Leaves.{absolute, maximum};
ghost use Rattle.number.specs.Doubles.{one};
ghost use Rattle.refusals.specs.Refusal.{numbered};
ghost use Rattle.rows.specs.Rows.{row};
ghost use Rattle.rows.specs.Reading.{reading_of};

use crate::block::Block;
use number::size;
use refusals::refusal::Refusal;
use roots::hypot;

// What is finite leaves a zero when it is taken from itself, all else a NaN, which equals nothing.
fn both_finite(x: f64, y: f64) -> bool
    ensures { result ≡ finite x && finite y }
{
    x - x == y - y
}

// The greater of the size and 1: a NaN is not above 1.
fn scale(r: f64) -> f64
    ensures { result ≡ maximum (absolute r) one }
{
    let size = size::absolute(r);
    if 1.0 < size { size } else { 1.0 }
}

// Refused, silent, or a block. A norm that is finite has finite parts.
pub fn read(tol: f64, a: f64, c: f64, p: f64, r: f64) -> Result<Option<Block>, Refusal>
    ensures { numbered result ≡ reading_of tol a (row c p r) }
{
    let norm = hypot::hypot(c, p);
    Refusal::RowNumber.unless(both_finite(r, norm))?;
    if norm == 0.0 {
        Refusal::RowImpossible.unless(!(r < 0.0))?;
        return Ok(None);
    }
    let inv = 1.0 / norm;
    let raw_tol = tol * scale(r);
    Refusal::RowNumber.unless(both_finite(inv, raw_tol))?;
    Ok(Some(Block {
        incline: c * inv,
        shift: (p * inv) * a,
        bound: r * inv,
        curr: c,
        prev: p * a,
        rhs: r,
        norm,
        tol: raw_tol,
    }))
}
