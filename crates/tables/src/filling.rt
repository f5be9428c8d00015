// One pass over the rows before the first candidate: refusals 5 and 6, and the table.
ghost use Rattle.std.specs.Prelude.{◌≡◌, ◌+◌, ◌/◌, ◌≤◌, ◌<◌, ◌++◌, length, take};
ghost use Rattle.std.specs.Option.{option_to_list};
ghost use Rattle.refusals.specs.Refusal.{number_of, number_in, numbered};
ghost use Rattle.rows.specs.Rows.{rows_of, fold};
ghost use Rattle.byte_lists.specs.Bytes.{doubles_of};
ghost use Rattle.tables.specs.Findings.{count_of, found_in, sooner, found_row, start, found};

use byte_lists::doubles::double_at;
use refusals::refusal::Refusal;
use rows::block::Block;
use rows::reading;

// Of two rows that are refused the smaller number, whichever is first: 5 comes before 6.
fn sooner(met: Result<(), Refusal>, e: Refusal) -> Refusal
    ensures { number_of result ≡ sooner (number_in met) (number_of e) }
{
    match met {
        Ok(()) => e,
        Err(d) if d.number() <= e.number() => d,
        Err(_) => e,
    }
}

// What a row says, entered behind n blocks: nothing where it is silent.
fn enter(table: &mut [Block], n: usize, said: Option<Block>) -> usize
    requires { n < length table.old }
    ensures { (take result table.new ≡ take n table.old ++ option_to_list said) × (result ≤ n + 1) }
{
    match said {
        None => n,
        Some(b) => {
            table[n] = b;
            n + 1
        }
    }
}

fn fill_rows(tol: f64, a: f64, rows: &[u8], table: &mut [Block]) -> Result<usize, Refusal>
    requires { length rows.now / 24 ≤ length table.old }
    ensures { (found_in table.new (numbered result) ≡ fold (found_row tol a) start (rows_of (doubles_of rows.now)))
        × (count_of (numbered result) ≤ length rows.now / 24) }
{
    let mut met = Ok(());
    let mut n = 0;
    for k in 0..rows.len() / 24 {
        let i = 3 * k;
        let r = reading::read(
            tol,
            a,
            double_at(rows, i),
            double_at(rows, i + 1),
            double_at(rows, i + 2),
        );
        match r {
            Ok(said) => n = enter(table, n, said),
            Err(e) => met = Err(sooner(met, e)),
        }
    }
    met?;
    Ok(n)
}

// How many blocks the rows make. A table with no room for a block for each row fits no rows.
pub fn fill(tol: f64, a: f64, rows: &[u8], table: &mut [Block]) -> Result<usize, Refusal>
    ensures { (found_in table.new (numbered result) ≡ found tol a (doubles_of rows.now) (length table.old)) × (count_of (numbered result) ≤ length table.old) }
{
    Refusal::RowNumber.unless(rows.len() / 24 <= table.len())?;
    fill_rows(tol, a, rows, table)
}
