// t to s on an even grid, the Rust's UniformTimeGrid.
ghost use Rattle.std.specs.Prelude.{◌≡◌, ◌&&◌, ◌/◌, ◌%◌, ◌<◌, ◌≤◌, eqb, length, IfOk};
ghost use Rattle.refusals.specs.Most.{most_samples};
ghost use Rattle.refusals.specs.Refusal.{number_in, numbered};
ghost use Rattle.byte_lists.specs.Bytes.{doubles_of};
ghost use Rattle.strap_end.specs.Final.{final_added};
ghost use Rattle.gridding.specs.Grid.{last_of, grid_size, even_no, grid_no, ByteGridded};
ghost use Rattle.gridding.specs.Ending.{entry_more, Ended};

use byte_lists::doubles;
use following::pass;
use following::pass::{Counts, Passage, Timed};
use following::times::Even;
use number::size;
use refusals::most;
use refusals::refusal::Refusal;
use sampling::samples;
use strap_end::final_added;

fn last(x: &[u8]) -> f64
    requires { 0 < length x.now / 8 }
    ensures { result ≡ last_of (doubles_of x.now) }
{
    doubles::double_at(x, x.len() / 8 - 1)
}

fn size(t: &[u8], g: Even) -> u64
    requires { 0 < length t.now / 8 }
    ensures { result ≡ grid_size (doubles_of t.now) g.t0 g.dt }
{
    size::whole_part((last(t) - g.t0) / g.dt)
}

// The size of the grid: 16, 23, 24, 28. Plus infinity has a whole part over every limit.
#[tactic(auto, unfolding(crate::specs::Grid::even_no))]
fn check_even(t: &[u8], g: Even) -> Result<usize, Refusal>
    requires { 0 < length t.now / 8 }
    ensures refused { number_in result ≡ even_no (doubles_of t.now) g.t0 g.dt }
    ensures held { IfOk result (λ n. n ≡ grid_size (doubles_of t.now) g.t0 g.dt) }
{
    Refusal::StartNotFinite.unless(size::finite(g.t0))?;
    Refusal::StepNotFinite.unless(size::finite(g.dt))?;
    Refusal::StepNotPositive.unless(!(g.dt <= 0.0))?;
    let n = size(t, g);
    Refusal::TooManySamples.unless(n <= most::SAMPLES as u64)?;
    Ok(n as usize)
}

// The size of the grid: 11 to 15, 17, 18, 20 to 22, then the grid's. One entry more is needed where the final is asked for, added or not.
#[tactic(auto, unfolding(crate::specs::Grid::grid_no))]
fn check(p: Timed<'_>, g: Even, end: bool, room: usize) -> Result<usize, Refusal>
    ensures refused { number_in result ≡ grid_no (doubles_of p.entry.s.now) (doubles_of p.entry.a.now) (doubles_of p.entry.t.now) g.t0 g.dt end room }
    ensures held { IfOk result (λ n. n ≡ grid_size (doubles_of p.entry.t.now) g.t0 g.dt) }
{
    samples::check(p)?;
    let n = check_even(p.t, g)?;
    Refusal::OutputTooShort.unless(n + usize::from(end) <= room)?;
    Ok(n)
}

fn entry_more(c: Counts) -> Counts
    requires { c.written ≤ most_samples }
    ensures { result ≡ entry_more c }
{
    Counts {
        written: c.written + 1,
        ..c
    }
}

// The last station after the first n entries, where it is asked for and due: an entry, but no time.
fn finish(p: Timed<'_>, t0: f64, n: usize, end: bool, found: Passage, out: &mut [u8]) -> Counts
    requires { (0 < length p.s.now / 8) × (0 < length p.t.now / 8) × (found.counts.written ≤ most_samples) }
    ensures { Ended (final_added end t0 (last_of (doubles_of p.entry.t.now)) found.last (last_of (doubles_of p.entry.s.now)))
        n (last_of (doubles_of p.entry.s.now)) found.counts out.old result out.new }
{
    let station = last(p.s);
    if final_added(end, t0, last(p.t), found.last, station) {
        doubles::put(out, n, station);
        return entry_more(found.counts);
    }
    found.counts
}

// 10 comes before all others.
fn four_in_eights(s: usize, a: usize, t: usize, out: usize) -> bool
    ensures { result ≡ (eqb (s % 8) 0 && (eqb (a % 8) 0 && eqb (out % 8) 0)) && eqb (t % 8) 0 }
{
    doubles::in_eights(s, a, out) && t % 8 == 0
}

// The station at each time of the grid, or NaN; `end` asks for the final.
pub fn t_to_s_topp2_grid(
    s: &[u8],
    a: &[u8],
    t: &[u8],
    t0: f64,
    dt: f64,
    end: bool,
    out: &mut [u8],
) -> Result<Counts, Refusal>
    ensures { ByteGridded s.now a.now t.now t0 dt end out.old (numbered result) out.new }
{
    Refusal::NotEights.unless(four_in_eights(s.len(), a.len(), t.len(), out.len()))?;
    let p = Timed { s, a, t };
    let g = Even { t0, dt };
    let n = check(p, g, end, out.len() / 8)?;
    let found = pass::t_to_s_topp2_core(p, g, n, out);
    Ok(finish(p, t0, n, end, found, out))
}
