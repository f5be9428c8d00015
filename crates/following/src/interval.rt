// The interval of one time, and the cursor that is carried from a time to the next.
ghost use Rattle.std.specs.Prelude.{◌≡◌, ℕ, ◌+◌, ◌-◌, ◌<◌, ◌≤◌, true, length};
ghost use Rattle.std.specs.Float.Ieee.{lt};
ghost use Rattle.loops.specs.Upto.{at};
ghost use Rattle.pieces.specs.Pieces.{piece_at};
ghost use Rattle.byte_lists.specs.Bytes.{doubles_of};
ghost use Rattle.following.specs.Places.{interval_of};
ghost use Rattle.following.specs.Following.{Standing};

use crate::pass::Timed;
use byte_lists::doubles::double_at;
use pieces::pair;
use pieces::pair::Piece;

// Where a pass over the times stands: the last time, its interval, the time at that interval's end and its piece. Past the last time both are NaN's.
#[derive(Clone, Copy)]
pub(crate) struct Cursor {
    pub time: f64,
    pub interval: usize,
    pub end: f64,
    pub piece: Piece,
}

pub(crate) fn piece_at(p: Timed<'_>, k: usize) -> Piece
    requires { k ≤ length p.t.now }
    ensures { result ≡ piece_at (doubles_of p.entry.s.now) (doubles_of p.entry.a.now) (doubles_of p.entry.t.now) k }
{
    pair::piece_of(
        double_at(p.s, k),
        double_at(p.s, k + 1),
        double_at(p.a, k),
        double_at(p.a, k + 1),
        double_at(p.t, k),
    )
}

// The interval of x, looked for from one before which all end below x.
fn interval_from(t: &[u8], x: f64, from: usize) -> usize
    requires { (from ≤ length (doubles_of t.now) - 1) × ((k : ℕ) → k < from → lt (at (doubles_of t.now) (k + 1)) x ≡ true) }
    ensures { result ≡ interval_of (doubles_of t.now) x }
{
    let n = t.len() / 8;
    for k in from + 1..n {
        if !(double_at(t, k) < x) {
            return k - 1;
        }
    }
    n.saturating_sub(1)
}

// Where to look from: the interval of y where y is not above x, and else the first.
fn look_from(t: &[u8], x: f64, y: f64, from: usize) -> usize
    requires { (from ≤ length (doubles_of t.now) - 1) × ((k : ℕ) → k < from → lt (at (doubles_of t.now) (k + 1)) y ≡ true) }
    ensures { (result ≤ length (doubles_of t.now) - 1) × ((k : ℕ) → k < result → lt (at (doubles_of t.now) (k + 1)) x ≡ true) }
{
    if y <= x { from } else { 0 }
}

// The piece of interval k: the old one if the interval is the old one.
fn turned(piece: Piece, p: Timed<'_>, old: usize, k: usize) -> Piece
    requires { (k ≤ length p.t.now) × (piece ≡ piece_at (doubles_of p.s.now) (doubles_of p.a.now) (doubles_of p.t.now) old) }
    ensures { result ≡ piece_at (doubles_of p.entry.s.now) (doubles_of p.entry.a.now) (doubles_of p.entry.t.now) k }
{
    if k == old { piece } else { piece_at(p, k) }
}

// To the interval of x. A list's pass and a grid's each call it for every time that does not stay: it is built into both.
#[inline]
pub(crate) fn advance(w: Cursor, p: Timed<'_>, x: f64) -> Cursor
    requires { Standing (doubles_of p.s.now) (doubles_of p.a.now) (doubles_of p.t.now) w }
    ensures { (result.interval ≡ interval_of (doubles_of p.entry.t.now) x) × (result.time ≡ x)
        × Standing (doubles_of p.entry.s.now) (doubles_of p.entry.a.now) (doubles_of p.entry.t.now) result }
{
    let k = interval_from(p.t, x, look_from(p.t, x, w.time, w.interval));
    Cursor {
        time: x,
        interval: k,
        end: double_at(p.t, k + 1),
        piece: turned(w.piece, p, w.interval, k),
    }
}
