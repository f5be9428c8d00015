// The certificate: a plain function of record, rows and x, where the Rust has a closure.
ghost use Rattle.std.specs.Prelude.{◌≡◌};
ghost use Rattle.number.specs.Doubles.{zero};
ghost use Rattle.refusals.specs.Refusal.{numbered};
ghost use Rattle.rows.specs.Rows.{rows_of, fold};
ghost use Rattle.byte_lists.specs.Bytes.{doubles_of};
ghost use Rattle.certificates.specs.Certificate.{figures, certificate};
ghost use Rattle.certificates.specs.RowByRow.{inside, worse, worsened, counted_reading, counted_row};

use byte_lists::doubles::double_at;
use limits::bounds;
use limits::projection::Span;
use limits::request::Request;
use number::size;
use refusals::refusal::Refusal;
use rows::block::Block;
use rows::judging::Residuals;
use rows::{judging, reading};

// The worst figures over the rows, where the speed passes.
#[derive(Clone, Copy)]
pub struct Figures {
    pub worst_normalized: f64,
    pub worst_raw: f64,
}

impl Figures {
    // 01: "The worst figures start at +0".
    pub fn start() -> Figures
        ensures { result ≡ figures zero zero }
    {
        Figures {
            worst_normalized: 0.0,
            worst_raw: 0.0,
        }
    }

    // One row more, which admits the speed.
    pub fn with(self, r: Residuals) -> Figures
        ensures { result ≡ worsened self r }
    {
        Figures {
            worst_normalized: worse(worse(self.worst_normalized, r.normalized), r.raw_normalized),
            worst_raw: worse(self.worst_raw, r.raw),
        }
    }
}

// 01: "lower ≤ x ≤ upper", by plain comparison.
pub fn is_inside(s: Span, x: f64) -> bool
    ensures { result ≡ inside s x }
{
    size::finite(x) && s.low <= x && x <= s.high
}

// The maximum, as what starts at +0 and only grows is no NaN and no minus zero.
#[tactic(auto, unfolding(crate::specs::RowByRow::worse))]
fn worse(worst: f64, x: f64) -> f64
    ensures { result ≡ worse worst x }
{
    if worst < x { x } else { worst }
}

// One row more: one that is refused admits no speed, a silent one every speed.
fn count_row(tol: f64, x: f64, worst: Figures, r: Result<Option<Block>, Refusal>) -> Option<Figures>
    ensures { result ≡ counted_reading tol x (Some worst) (numbered r) }
{
    match r.ok()? {
        None => Some(worst),
        Some(b) => Some(worst.with(judging::judge(tol, x, b)?)),
    }
}

// The rows alone: the first that does not admit the speed ends it.
fn certify_rows(tol: f64, a: f64, rows: &[u8], x: f64) -> Option<Figures>
    ensures { result ≡ fold (counted_row tol a x) (Some (figures zero zero)) (rows_of (doubles_of rows.now)) }
{
    let mut worst = Figures::start();
    for k in 0..rows.len() / 24 {
        let i = 3 * k;
        let r = reading::read(
            tol,
            a,
            double_at(rows, i),
            double_at(rows, i + 1),
            double_at(rows, i + 2),
        );
        worst = count_row(tol, x, worst, r)?;
    }
    Some(worst)
}

pub fn certify(q: Request, rows: &[u8], x: f64) -> Option<Figures>
    ensures { result ≡ certificate q (rows_of (doubles_of rows.now)) x }
{
    if is_inside(bounds::span(q), x) {
        certify_rows(q.tolerances.feas, q.a_prev, rows, x)
    } else {
        None
    }
}
