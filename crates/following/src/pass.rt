// t to s: the station at each time of a list or of an even grid, by one pass for both, straight into the output's bytes.
ghost use Rattle.std.specs.Prelude.{◌≡◌, ◌+◌, ◌-◌, ◌/◌, ◌^◌, ◌<◌, ◌≤◌, min, length};
ghost use Rattle.byte_lists.specs.Bytes.{doubles_of};
ghost use Rattle.following.specs.Places.{interval_of, is_before, is_inside, station_at};
ghost use Rattle.following.specs.Following.{Passed, Standing, stays, Ready, Followed, Bounded, more_inside, tallied};

use crate::interval;
use crate::interval::Cursor;
use crate::times::Times;
use byte_lists::doubles;
use byte_lists::doubles::double_at;
use pieces::pair;
use refusals::most;

// A profile and its times, as bytes.
#[derive(Clone, Copy)]
pub struct Timed<'a> {
    pub s: &'a [u8],
    pub a: &'a [u8],
    pub t: &'a [u8],
}

// The times before, inside and past, and the entries written.
#[derive(Clone, Copy)]
pub struct Counts {
    pub before: usize,
    pub inside: usize,
    pub past: usize,
    pub written: usize,
}

// What a pass finds: the counts, and the last entry, NaN where there is none.
#[derive(Clone, Copy)]
pub struct Passage {
    pub counts: Counts,
    pub last: f64,
}

fn is_before(t: &[u8], x: f64) -> bool
    ensures { result ≡ is_before (doubles_of t.now) x }
{
    x < double_at(t, 0)
}

// k is the interval of x, here and below.
fn is_inside(t: &[u8], x: f64, k: usize) -> bool
    requires { k ≡ interval_of (doubles_of t.now) x }
    ensures { result ≡ is_inside (doubles_of t.now) x }
{
    !is_before(t, x) && k + 1 < t.len() / 8
}

impl Counts {
    // One entry more, the one of time x.
    #[tactic(auto, unfolding(crate::specs::Following::tallied, crate::specs::Following::one_more, crate::specs::Places::is_past))]
    fn tally(self, t: &[u8], x: f64, k: usize) -> Counts
        requires { (k ≡ interval_of (doubles_of t.now) x) × Bounded self }
        ensures { result ≡ tallied self (doubles_of t.now) x }
    {
        let before = is_before(t, x);
        let inside = is_inside(t, x, k);
        Counts {
            before: self.before + usize::from(before),
            inside: self.inside + usize::from(inside),
            past: self.past + usize::from(!before && !inside),
            written: self.written + 1,
        }
    }

    fn more_inside(self, m: usize) -> Counts
        requires { (self.written + m ≤ 2 ^ 61) × Bounded self }
        ensures { result ≡ more_inside self m }
    {
        Counts {
            inside: self.inside + m,
            written: self.written + m,
            ..self
        }
    }
}

// The station at x, where the cursor stands at x.
fn station(p: Timed<'_>, w: Cursor, x: f64, inside: bool) -> f64
    requires { (w.interval ≡ interval_of (doubles_of p.t.now) x) × Standing (doubles_of p.s.now) (doubles_of p.a.now) (doubles_of p.t.now) w
        × (inside ≡ is_inside (doubles_of p.t.now) x) }
    ensures { result ≡ station_at (doubles_of p.entry.s.now) (doubles_of p.entry.a.now) (doubles_of p.entry.t.now) x }
{
    if inside {
        pair::inside(w.piece, x)
    } else {
        f64::NAN
    }
}

// A time that stays has the cursor's interval, and need not be looked for.
fn stays(w: Cursor, x: f64) -> bool
    ensures { result ≡ stays w x }
{
    w.time <= x && !(w.end < x)
}

// How far the times stay, and the last entry before the next.
#[derive(Clone, Copy)]
struct Stretch {
    next: usize,
    last: f64,
}

// The entries from `start` on, as long as their times stay, where the cursor's time is inside; v is the entry before them. Lengths that are told beside the
// loop are not tested in it.
fn follow<X: Times>(
    p: Timed<'_>,
    w: Cursor,
    x: X,
    start: usize,
    n: usize,
    v: f64,
    out: &mut [u8],
) -> Stretch
    requires { Ready (doubles_of p.s.now) (doubles_of p.a.now) (doubles_of p.t.now) w (X.time x) start n v out.old }
    ensures { Followed (doubles_of p.entry.s.now) (doubles_of p.entry.a.now) (doubles_of p.entry.t.now) (X.time x)
        start n result.next result.last out.old out.new }
{
    let mut last = v;
    if n <= x.reach() && n <= out.len() / 8 {
        for j in start..n {
            let y = x.time(j);
            if !stays(w, y) {
                return Stretch { next: j, last };
            }
            last = pair::inside(w.piece, y);
            doubles::put(out, j, last);
        }
        return Stretch { next: n, last };
    }
    Stretch { next: start, last }
}

// Goes through the first n times, in order.
fn go_through<X: Times>(p: Timed<'_>, x: X, n: usize, out: &mut [u8]) -> Passage
    requires { n ≤ length out.old / 8 }
    ensures { Passed (doubles_of p.entry.s.now) (doubles_of p.entry.a.now) (doubles_of p.entry.t.now) (X.time x) n out.old result out.new }
{
    let mut counts = Counts {
        before: 0,
        inside: 0,
        past: 0,
        written: 0,
    };
    let mut w = Cursor {
        time: 0.0,
        interval: 0,
        end: double_at(p.t, 1),
        piece: interval::piece_at(p, 0),
    };
    let mut last = f64::NAN;
    let mut j = 0;
    while j < n {
        let v = x.time(j);
        w = interval::advance(w, p, v);
        let inside = is_inside(p.t, v, w.interval);
        last = station(p, w, v, inside);
        doubles::put(out, j, last);
        if inside {
            let f = follow(p, w, x, j + 1, n, last, out);
            counts = counts.more_inside(f.next - j);
            last = f.last;
            j = f.next;
        } else {
            counts = counts.tally(p.t, v, w.interval);
            j += 1;
        }
    }
    Passage { counts, last }
}

// The station at each of the first n times, or NaN, as far as the output has room.
pub fn t_to_s_topp2_core<X: Times>(p: Timed<'_>, x: X, n: usize, out: &mut [u8]) -> Passage
    ensures { Passed (doubles_of p.entry.s.now) (doubles_of p.entry.a.now) (doubles_of p.entry.t.now) (X.time x)
        (min n (length out.old / 8)) out.old result out.new }
{
    let m = n.min(out.len() / 8);
    // What is called from one place is built into its caller, and the loop then runs short of registers: hence two calls.
    if m < most::SAMPLES {
        return go_through(p, x, m, out);
    }
    go_through(p, x, m, out)
}
