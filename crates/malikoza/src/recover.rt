// Recovery.
ghost use Rattle.requests.specs.FromPatterns.{station_of, tolerances_of, request_of};
ghost use Rattle.malikoza.specs.Recover.{Recovering};

use replies::recovery::{recover_bytes, tell};
use requests::from_patterns::request_from;

// Returns 0 and writes the four lent numbers, or returns the refusal number and writes nothing.
pub fn malikoza_recover(
    a_prev: u64,
    prev_lower: u64,
    prev_upper: u64,
    prev_cap: u64,
    curr_lower: u64,
    curr_upper: u64,
    curr_cap: u64,
    feas_tol: u64,
    a_cmp_abs_tol: u64,
    a_cmp_rel_tol: u64,
    rows: &[u8],
    speed: &mut u64,
    worst_normalized: &mut u64,
    worst_raw: &mut u64,
    tried: &mut u64,
) -> u64
    ensures { Recovering
        (request_of a_prev
        (station_of prev_lower prev_upper prev_cap)
        (station_of curr_lower curr_upper curr_cap)
        (tolerances_of feas_tol a_cmp_abs_tol a_cmp_rel_tol))
        rows.now result
        speed.old speed.new
        worst_normalized.old worst_normalized.new
        worst_raw.old worst_raw.new
        tried.old tried.new }
{
    let q = request_from(
        a_prev,
        prev_lower,
        prev_upper,
        prev_cap,
        curr_lower,
        curr_upper,
        curr_cap,
        feas_tol,
        a_cmp_abs_tol,
        a_cmp_rel_tol,
    );
    tell(
        recover_bytes(q, rows),
        speed,
        worst_normalized,
        worst_raw,
        tried,
    )
}
