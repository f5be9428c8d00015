// The test of a guess.
ghost use Rattle.std.specs.Prelude.{◌≡◌, ℕ, ◌+◌, ◌-◌, ◌*◌, ◌/◌, ◌%◌, ◌^◌, ◌<◌, ◌≤◌, true};
ghost use Rattle.exact_roots.specs.NearRoot.{Within};

use limbs::wide;

// Whether r, which is u / 2^11, is the whole number nearest to the root of each number that has the upper digits h, in steps of 2^(3 - p). The squares
// of r - 1/2 and r + 1/2 lie w and three more away from that of r, or further by less than one.
pub(crate) fn is_nearest(h: u64, u: u64, p: u64) -> bool
    requires { (2 ^ 60 ≤ h) × (2 ^ 63 ≤ u) × (u % 2 ^ 11 ≡ 0) × (p < 2) }
    ensures { result ≡ true → (n : ℕ) → h * 2 ^ 48 ≤ n → n < (h + 3) * 2 ^ 48 → Within n (u / 2 ^ 11) (2 ^ (2 - p)) }
{
    let s = u >> p;
    let w = (s >> 53 >> p) - 3;
    let q = wide::product(s, s).hi;
    q.wrapping_sub(h).wrapping_add(w) < 2 * w
}
