// The forward walk, whose state the caller holds as eight words.
ghost use Rattle.std.specs.Float.{binary64};
ghost use Rattle.std.specs.Float.Ieee.{of_bits};
ghost use Rattle.requests.specs.FromPatterns.{station_of, tolerances_of};
ghost use Rattle.malikoza.specs.Steps.{Starting, Stepping};

use replies::recovery::tell;
use walk_words::state::start_words;
use walk_words::step::{leave, step_words};

// Writes the eight words, and refuses nothing.
pub fn malikoza_walk_start(
    feas_tol: u64,
    a_cmp_abs_tol: u64,
    a_cmp_rel_tol: u64,
    start_speed: u64,
    lower: u64,
    upper: u64,
    cap: u64,
    walk: &mut [u64; 8],
)
    ensures { Starting
        (tolerances_of feas_tol a_cmp_abs_tol a_cmp_rel_tol)
        (of_bits binary64 start_speed)
        (station_of lower upper cap)
        walk.new }
{
    *walk = start_words(
        feas_tol,
        a_cmp_abs_tol,
        a_cmp_rel_tol,
        start_speed,
        lower,
        upper,
        cap,
    );
}

// Returns 0, writes the four lent numbers and moves the walk on; or returns the refusal number and writes nothing.
pub fn malikoza_walk_step(
    walk: &mut [u64; 8],
    lower: u64,
    upper: u64,
    cap: u64,
    rows: &[u8],
    speed: &mut u64,
    worst_normalized: &mut u64,
    worst_raw: &mut u64,
    tried: &mut u64,
) -> u64
    ensures { Stepping
        walk.old walk.new
        (station_of lower upper cap)
        rows.now result
        speed.old speed.new
        worst_normalized.old worst_normalized.new
        worst_raw.old worst_raw.new
        tried.old tried.new }
{
    let stepped = step_words(*walk, lower, upper, cap, rows);
    let answer = stepped.answer;
    leave(stepped.walk, answer, walk);
    tell(answer, speed, worst_normalized, worst_raw, tried)
}
