// A request from patterns.
ghost use Rattle.std.specs.Prelude.{◌≡◌};
ghost use Rattle.requests.specs.FromPatterns.{station_of, tolerances_of, request_of};

use limits::request::{Interval, Request, Station, Tolerances};
use patterns::pattern::double_of;

pub fn station_of(lower: u64, upper: u64, cap: u64) -> Station
    ensures { result ≡ station_of lower upper cap }
{
    let interval = Interval {
        lower: double_of(lower),
        upper: double_of(upper),
    };
    Station {
        interval,
        cap: double_of(cap),
    }
}

pub fn tolerances_of(feas: u64, abs: u64, rel: u64) -> Tolerances
    ensures { result ≡ tolerances_of feas abs rel }
{
    Tolerances {
        feas: double_of(feas),
        abs: double_of(abs),
        rel: double_of(rel),
    }
}

pub fn request_of(a: u64, prev: Station, curr: Station, tolerances: Tolerances) -> Request
    ensures { result ≡ request_of a prev curr tolerances }
{
    Request {
        a_prev: double_of(a),
        prev,
        curr,
        tolerances,
    }
}

// Of all ten patterns, as the entry takes them.
pub fn request_from(
    a: u64,
    prev_lower: u64,
    prev_upper: u64,
    prev_cap: u64,
    curr_lower: u64,
    curr_upper: u64,
    curr_cap: u64,
    feas: u64,
    abs: u64,
    rel: u64,
) -> Request
    ensures { result ≡ request_of a
        (station_of prev_lower prev_upper prev_cap)
        (station_of curr_lower curr_upper curr_cap)
        (tolerances_of feas abs rel) }
{
    let prev = station_of(prev_lower, prev_upper, prev_cap);
    let curr = station_of(curr_lower, curr_upper, curr_cap);
    request_of(a, prev, curr, tolerances_of(feas, abs, rel))
}
