// One pair of stations: what is worked out once for it, and the station at a time within it.
ghost use Rattle.std.specs.Prelude.{◌≡◌};
ghost use Rattle.pieces.specs.Pieces.{piece_of, inverse2order, station_inside};

use fused::multiply_add;
use roots::square_root;

// s0, t0, root a0 and c1 = (a1 - a0)/(s1 - s0).
#[derive(Clone, Copy)]
pub struct Piece {
    pub station: f64,
    pub time: f64,
    pub root: f64,
    pub c1: f64,
}

pub fn piece_of(s0: f64, s1: f64, a0: f64, a1: f64, t0: f64) -> Piece
    ensures { result ≡ piece_of s0 s1 a0 a1 t0 }
{
    let c1 = (a1 - a0) / (s1 - s0);
    Piece {
        station: s0,
        time: t0,
        root: square_root::sqrt(a0),
        c1,
    }
}

// The Rust's, with the root of c0 for c0.
fn inverse_2order(root: f64, c1: f64, dt: f64) -> f64
    ensures { result ≡ inverse2order root c1 dt }
{
    dt * multiply_add::fma(c1, 0.25 * dt, root)
}

pub fn inside(p: Piece, x: f64) -> f64
    ensures { result ≡ station_inside p x }
{
    p.station + inverse_2order(p.root, p.c1, x - p.time)
}
