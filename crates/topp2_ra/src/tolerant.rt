// Tolerant comparison, which the Rust calls `approx_order`. 01 gives its rule; each operation is rounded.
ghost use Rattle.std.specs.Prelude.{◌≡◌};
ghost use Rattle.topp2_ra.specs.Tolerant.{approx_order};

use number::size;
use picks::pick;
use std::cmp::Ordering;

pub(crate) fn approx_order(x: f64, y: f64, abs: f64, rel: f64) -> Ordering
    ensures { result ≡ approx_order x y abs rel }
{
    if x == y {
        return Ordering::Equal;
    }
    let larger = pick::maximum(size::absolute(x), size::absolute(y));
    if size::absolute(x - y) <= pick::maximum(abs, rel * larger) {
        return Ordering::Equal;
    }
    if x < y {
        return Ordering::Less;
    }
    Ordering::Greater
}
