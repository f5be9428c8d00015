// What a row says of a speed, read off its block.
ghost use Rattle.std.specs.Prelude.{◌≡◌};
ghost use Rattle.rows.specs.Judging.{within, three_within, judged};

use crate::block::Block;

// The three residuals of a row that admits the speed.
#[derive(Clone, Copy)]
pub struct Residuals {
    pub normalized: f64,
    pub raw_normalized: f64,
    pub raw: f64,
}

// At most the tolerance, and finite: as the tolerance is, a residual only has to be above minus infinity.
fn within(y: f64, tol: f64) -> bool
    ensures { result ≡ within y tol }
{
    f64::NEG_INFINITY < y && y <= tol
}

// Three residuals against what they may be at most: none is left out, whichever fits first.
fn all_within(tol: f64, raw_tol: f64, r: Residuals) -> bool
    ensures { result ≡ three_within tol raw_tol r.normalized r.raw_normalized r.raw }
{
    within(r.normalized, tol) && within(r.raw_normalized, tol) && r.raw <= raw_tol
}

pub fn judge(tol: f64, x: f64, b: Block) -> Option<Residuals>
    ensures { result ≡ judged tol x b }
{
    let raw = b.curr * x + b.prev - b.rhs;
    let residuals = Residuals {
        normalized: b.incline * x + b.shift - b.bound,
        raw_normalized: raw / b.norm,
        raw,
    };
    if all_within(tol, b.tol, residuals) {
        Some(residuals)
    } else {
        None
    }
}
