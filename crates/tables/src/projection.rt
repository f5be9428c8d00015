// The projection over the table, and refusals 7 and 8 of rows, in one pass: each class is looked for over the
// whole table, so that row order cannot choose the number.
ghost use Rattle.std.specs.Prelude.{◌≡◌};
ghost use Rattle.tables.specs.ByBlocks.{gathered_block, gathered};

use crate::trial::Trial;
use limits::projection;
use limits::projection::Span;
use number::size;
use rows::block::Block;

// Whether some row has an r that is not finite, whether some row is flat, and the speeds that the rows leave.
#[derive(Clone, Copy)]
pub struct Gathered {
    pub unreachable: bool,
    pub flat: bool,
    pub span: Span,
}

// One row more.
fn gather_block(tol: f64, g: Gathered, b: Block) -> Gathered
    ensures { result ≡ gathered_block tol g b }
{
    let r = projection::reach(tol, b);
    let unreachable = !size::finite(r);
    let flat = projection::is_flat(b.incline, r);
    Gathered {
        unreachable: g.unreachable || unreachable,
        flat: g.flat || flat,
        span: projection::cut(g.span, b.incline, r),
    }
}

impl<'a> Trial<'a> {
    pub fn gather(self) -> Gathered
        ensures { result ≡ gathered self.entry.tol self.entry.bounds self.entry.table.now }
    {
        let mut g = Gathered {
            unreachable: false,
            flat: false,
            span: self.bounds,
        };
        for b in self.table {
            g = gather_block(self.tol, g, *b);
        }
        g
    }
}
