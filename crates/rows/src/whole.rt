// Refusal 1: how many doubles make a list of rows.
ghost use Rattle.std.specs.Prelude.{◌≡◌, ◌&&◌, ◌*◌, ◌%◌, eqb, leb};
ghost use Rattle.refusals.specs.Most.{most_rows};

use refusals::most;

pub fn whole_rows(n: usize) -> bool
    ensures { result ≡ eqb (n % 3) 0 && leb n (3 * most_rows) }
{
    n % 3 == 0 && n <= 3 * most::ROWS
}
