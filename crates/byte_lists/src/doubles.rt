// Eight bytes for each double, low byte first.
ghost use Rattle.std.specs.Prelude.{◌≡◌, ◌&&◌, ◌+◌, ◌%◌, ◌≤◌, ◌<◌, eqb, length};
ghost use Rattle.loops.specs.Upto.{at};
ghost use Rattle.byte_lists.specs.Bytes.{word_at, pattern_at, doubles_of, word_put, double_put};

use patterns::pattern::{double_of, pattern_of};

// 10 is refused where one of three lengths is not divisible by eight.
pub fn in_eights(a: usize, b: usize, c: usize) -> bool
    ensures { result ≡ eqb (a % 8) 0 && (eqb (b % 8) 0 && eqb (c % 8) 0) }
{
    a % 8 == 0 && b % 8 == 0 && c % 8 == 0
}

fn word_at(b: &[u8], i: usize) -> u64
    requires { i + 8 ≤ length b.now }
    ensures { result ≡ word_at b.now i }
{
    u64::from_le_bytes([
        b[i],
        b[i + 1],
        b[i + 2],
        b[i + 3],
        b[i + 4],
        b[i + 5],
        b[i + 6],
        b[i + 7],
    ])
}

// The pattern at place k of b, 0 where there is none.
pub fn pattern_at(b: &[u8], k: usize) -> u64
    ensures { result ≡ pattern_at b.now k }
{
    if k < b.len() / 8 {
        word_at(b, 8 * k)
    } else {
        0
    }
}

// The double at place k of b, NaN where there is none.
pub fn double_at(b: &[u8], k: usize) -> f64
    ensures { result ≡ at (doubles_of b.now) k }
{
    if k < b.len() / 8 {
        double_of(word_at(b, 8 * k))
    } else {
        f64::NAN
    }
}

fn put_word(b: &mut [u8], i: usize, w: u64)
    requires { i + 8 ≤ length b.old }
    ensures { b.new ≡ word_put b.old i w }
{
    b[i..i + 8].copy_from_slice(&w.to_le_bytes());
}

// x at place k of b, where there is one.
pub fn put(b: &mut [u8], k: usize, x: f64)
    ensures { b.new ≡ double_put b.old k x }
{
    if k < b.len() / 8 {
        put_word(b, 8 * k, pattern_of(x));
    }
}
