// 01: "Fused multiply-add of x, y, z: nearest to xy + z, one rounding; IEEE 754 for zeros and infinities."
ghost use Rattle.std.specs.Prelude.{◌≡◌, ◌&&◌, cond};
ghost use Rattle.std.specs.Float.{binary64};
ghost use Rattle.std.specs.Float.Ieee.{lt};
ghost use Rattle.fused.specs.Fused.{Fused};

use whole_fma::one_rounding::in_whole_numbers;

// Whether p is strictly between the other two, whichever of them is the lesser. Test by test: in one expression it takes six instructions more.
fn between(a: f64, p: f64, b: f64) -> bool
    ensures { result ≡ cond (lt a p) (lt p b) (lt b p && lt p a) }
{
    if a < p {
        return p < b;
    }
    if b < p {
        return p < a;
    }
    false
}

// near and far are a step or two from the rounded product, one below and one above it, so the exact product is between them. Where the sum with either is
// the same number, so is the sum with the exact product; the smaller the product beside z, the more often. Of a zero they do not tell the sign.
pub fn fma(x: f64, y: f64, z: f64) -> f64
    ensures { Fused binary64 x y z result }
{
    let p = x * y;
    let near = p * 0.9999999999999999;
    let far = p * 1.0000000000000002;
    let sum = near + z;
    if sum == far + z {
        if sum != 0.0 && between(near, p, far) {
            return sum;
        }
        // What is called from two places is not built into its caller, and the short way then is, where it is used.
        return in_whole_numbers(x, y, z);
    }
    in_whole_numbers(x, y, z)
}
