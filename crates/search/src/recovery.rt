// The cap, and the search after a cap that failed.
ghost use Rattle.std.specs.Prelude.{◌≡◌, ◌≤◌};
ghost use Rattle.refusals.specs.Most.{most_rows};
ghost use Rattle.refusals.specs.Refusal.{numbered};
ghost use Rattle.byte_lists.specs.Bytes.{doubles_of};
ghost use Rattle.tables.specs.ByBlocks.{certificate_by};
ghost use Rattle.search.specs.Search.{in_order, after_neighbours, searched};
ghost use Rattle.search.specs.Cap.{with_rows};
ghost use Rattle.search.specs.OnTable.{tried_before, after_gathered, with_table, by_table};

use crate::answer::Certified;
use crate::neighbours::Near;
use crate::{halving, neighbours};
use certificates::certificate;
use limits::bounds;
use limits::projection::Span;
use limits::request::Request;
use number::size;
use refusals::refusal::Refusal;
use rows::block::Block;
use tables::filling;
use tables::projection::Gathered;
use tables::trial::Trial;

fn in_order(s: Span) -> bool
    ensures { result ≡ in_order s }
{
    size::finite(s.low) && size::finite(s.high) && !(s.high < s.low)
}

fn after_neighbours(t: Trial, s: Span, near: Near) -> Result<Certified, Refusal>
    requires { tried_before near ≤ 6 }
    ensures { numbered result ≡ after_neighbours (certificate_by t.entry) s near }
{
    match near {
        Near::Found(c) => Ok(c),
        // What is called from one place is built into its caller, and the halvings then run short of registers: hence two calls.
        Near::ToMiddle(tried) => {
            if tried == 6 {
                return halving::try_middle(t, s, 6);
            }
            halving::try_middle(t, s, tried)
        }
    }
}

fn search(t: Trial, s: Span) -> Result<Certified, Refusal>
    ensures { numbered result ≡ searched (certificate_by t.entry) s }
{
    Refusal::ProjectionEmpty.unless(in_order(s))?;
    after_neighbours(t, s, neighbours::try_neighbours(t, s))
}

// Refusals 7 and 8 of rows come before the search.
fn after_gathered(t: Trial, g: Gathered) -> Result<Certified, Refusal>
    ensures { numbered result ≡ after_gathered t.entry.tol t.entry.bounds t.entry.table.now g }
{
    Refusal::ProjectionNotFinite.unless(!g.unreachable)?;
    Refusal::ProjectionEmpty.unless(!g.flat)?;
    search(t, g.span)
}

fn with_table(t: Trial) -> Result<Certified, Refusal>
    ensures { numbered result ≡ with_table t.entry.tol t.entry.bounds t.entry.table.now }
{
    after_gathered(t, t.gather())
}

// A place of the table that no row has filled.
const CLEAR: Block = Block {
    incline: 0.0,
    shift: 0.0,
    bound: 0.0,
    curr: 0.0,
    prev: 0.0,
    rhs: 0.0,
    norm: 0.0,
    tol: 0.0,
};

// By a table of N blocks: refusals 5 and 6, then what the table answers.
fn by_blocks<const N: usize>(q: Request, rows: &[u8]) -> Result<Certified, Refusal>
    requires { N ≤ most_rows }
    ensures { numbered result ≡ by_table q (doubles_of rows.now) N }
{
    let tol = q.tolerances.feas;
    let mut table = [CLEAR; N];
    let n = filling::fill(tol, q.a_prev, rows, &mut table)?;
    with_table(Trial {
        tol,
        bounds: bounds::span(q),
        table: &table[..n],
    })
}

// A table of the size that is needed, so that a short list does not pay for a long one.
fn by_table(q: Request, rows: &[u8]) -> Result<Certified, Refusal>
    ensures { numbered result ≡ by_table q (doubles_of rows.now) 256 }
{
    if rows.len() <= 768 {
        by_blocks::<32>(q, rows)
    } else {
        by_blocks::<256>(q, rows)
    }
}

// The cap, and the table where it fails.
fn by_cap(q: Request, rows: &[u8]) -> Result<Certified, Refusal>
    ensures { numbered result ≡ with_rows q (doubles_of rows.now) }
{
    let cap = bounds::upper(q);
    match certificate::certify(q, rows, cap) {
        Some(f) => Ok(Certified::with(cap, f, 1)),
        None => by_table(q, rows),
    }
}

// The cap first: where it passes, no row is refused, and no table is made. A cap outside the bounds fails
// without its rows. What is called from one place is built
// into its caller, whose frame would hold the table for a passing cap too: hence the table is asked in two.
pub fn recover(q: Request, rows: &[u8]) -> Result<Certified, Refusal>
    ensures { numbered result ≡ with_rows q (doubles_of rows.now) }
{
    let bounds = bounds::span(q);
    if certificate::is_inside(bounds, bounds.high) {
        return by_cap(q, rows);
    }
    by_table(q, rows)
}
