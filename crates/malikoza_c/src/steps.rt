// The forward walk, whose state the caller holds as eight words.
ghost use Rattle.std.specs.Float.{binary64};
ghost use Rattle.std.specs.Float.Ieee.{of_bits};
ghost use Rattle.requests.specs.FromPatterns.{station_of, tolerances_of};
ghost use Rattle.malikoza.specs.Steps.{Starting, Stepping};

use malikoza::steps;

// Writes the eight words, and refuses nothing.
#[unsafe(no_mangle)]
pub extern "C" fn malikoza_walk_start(
    feas_tol: u64,
    a_cmp_abs_tol: u64,
    a_cmp_rel_tol: u64,
    start_speed: u64,
    lower: u64,
    upper: u64,
    cap: u64,
    walk: &mut [u64; 8],
)
    ensures { Starting
        (tolerances_of feas_tol a_cmp_abs_tol a_cmp_rel_tol)
        (of_bits binary64 start_speed)
        (station_of lower upper cap)
        walk.new }
{
    steps::malikoza_walk_start(
        feas_tol,
        a_cmp_abs_tol,
        a_cmp_rel_tol,
        start_speed,
        lower,
        upper,
        cap,
        walk,
    );
}

// Returns 0, writes the four lent numbers and moves the walk on; or returns the refusal number and writes nothing.
#[unsafe(no_mangle)]
pub extern "C" fn malikoza_walk_step(
    walk: &mut [u64; 8],
    lower: u64,
    upper: u64,
    cap: u64,
    rows: &[u8],
    speed: &mut u64,
    worst_normalized: &mut u64,
    worst_raw: &mut u64,
    tried: &mut u64,
) -> u64
    ensures { Stepping
        walk.old walk.new
        (station_of lower upper cap)
        rows.now result
        speed.old speed.new
        worst_normalized.old worst_normalized.new
        worst_raw.old worst_raw.new
        tried.old tried.new }
{
    steps::malikoza_walk_step(
        walk,
        lower,
        upper,
        cap,
        rows,
        speed,
        worst_normalized,
        worst_raw,
        tried,
    )
}
