// The verdict of the certificate without its figures, read off the table: the halvings ask for no more until their end.
ghost use Rattle.std.specs.Prelude.{◌≡◌};
ghost use Rattle.rows.specs.Rows.{all};
ghost use Rattle.tables.specs.ByBlocks.{fits_block, passes_by};

use crate::trial::Trial;
use certificates::certificate;
use rows::block::Block;
use rows::judging;

fn all_fit(tol: f64, table: &[Block], x: f64) -> bool
    ensures { result ≡ all (fits_block tol x) table.now }
{
    for b in table {
        if judging::judge(tol, x, *b).is_none() {
            return false;
        }
    }
    true
}

impl<'a> Trial<'a> {
    pub fn passes(self, x: f64) -> bool
        ensures { result ≡ passes_by self.entry x }
    {
        certificate::is_inside(self.bounds, x) && all_fit(self.tol, self.table, x)
    }
}
