// The certificate, read off the table.
ghost use Rattle.std.specs.Prelude.{◌≡◌};
ghost use Rattle.number.specs.Doubles.{zero};
ghost use Rattle.rows.specs.Rows.{fold};
ghost use Rattle.certificates.specs.Certificate.{figures};
ghost use Rattle.tables.specs.ByBlocks.{counted_block, certificate_by};

use crate::trial::Trial;
use certificates::certificate;
use certificates::certificate::Figures;
use rows::block::Block;
use rows::judging;

// The rows alone: the first that does not admit the speed ends it.
fn certify_rows(tol: f64, table: &[Block], x: f64) -> Option<Figures>
    ensures { result ≡ fold (counted_block tol x) (Some (figures zero zero)) table.now }
{
    let mut worst = Figures::start();
    for b in table {
        worst = worst.with(judging::judge(tol, x, *b)?);
    }
    Some(worst)
}

impl<'a> Trial<'a> {
    pub fn certify(self, x: f64) -> Option<Figures>
        ensures { result ≡ certificate_by self.entry x }
    {
        if certificate::is_inside(self.bounds, x) {
            certify_rows(self.tol, self.table, x)
        } else {
            None
        }
    }
}
