// Whole numbers in groups of seven bits, low group first, as cut files hold them. Document 02, request 4, decides.
#![tactic(auto)]

ghost use Rattle.std.specs.Prelude.{◌≡◌, true, ◌||◌, ◌-◌, ◌≤◌, ◌<◌, ◌^◌, ltb, leb, length};
ghost use Rattle.loops.specs.Upto.{first};
ghost use Rattle.groups.specs.Groups.{is_last, value_of, shortest, room_at, ended, read_at};

// A number, and the place after it.
#[derive(Clone, Copy)]
pub struct Number {
    pub value: u64,
    pub next: usize,
}

// Why there is none. Cut: the bytes end where a group should stand. Faulty: more than ten groups, 2^64 or more, or not the shortest form.
#[derive(Clone, Copy)]
pub enum Fault {
    Cut,
    Faulty,
}

// How many groups can stand from a place on.
fn room(bytes: &[u8], at: usize, end: usize) -> usize
    ensures { result ≡ room_at bytes.now at end }
{
    end.min(bytes.len()).saturating_sub(at).min(10)
}

// The first group that no other follows, or the room where there is none.
fn last_group(bytes: &[u8], at: usize, room: usize) -> usize
    requires { room ≤ length bytes.now - at }
    ensures { result ≡ first (is_last bytes.now at) room }
{
    for k in 0..room {
        if bytes[at + k] < 128 {
            return k;
        }
    }
    room
}

// What the first n groups stand for, the high one taken first.
fn value(bytes: &[u8], at: usize, n: usize) -> u64
    requires { (n ≤ length bytes.now - at) × (value_of bytes.now at n < 2 ^ 64) }
    ensures { result ≡ value_of bytes.now at n }
{
    let mut value: u64 = 0;
    for k in (0..n).rev() {
        value = 128 * value + (bytes[at + k] % 128) as u64;
    }
    value
}

fn is_shortest(b: u8, k: usize) -> bool
    ensures { result ≡ shortest b k }
{
    b != 0 || k == 0
}

// A number whose last group is b, group k, is below 2^64: nine groups always are, and a tenth has one bit to give.
fn is_below(b: u8, k: usize) -> bool
    ensures { result ≡ ltb k 9 || leb b 1 }
{
    k < 9 || b <= 1
}

// The number, once its last group is met.
fn end_at(bytes: &[u8], at: usize, k: usize) -> Result<Number, Fault>
    requires { (k ≤ 9) × (k < length bytes.now - at) × (is_last bytes.now at k ≡ true) }
    ensures { result ≡ ended bytes.now at k }
{
    let b = bytes[at + k];
    if is_below(b, k) && is_shortest(b, k) {
        Ok(Number {
            value: value(bytes, at, k + 1),
            next: at + k + 1,
        })
    } else {
        Err(Fault::Faulty)
    }
}

// The number that starts at a place and ends before `end`.
#[tactic(auto, unfolding(crate::specs::Groups::read_at, crate::specs::Groups::ended_by))]
pub fn read(bytes: &[u8], at: usize, end: usize) -> Result<Number, Fault>
    ensures { result ≡ read_at bytes.now at end }
{
    let room = room(bytes, at, end);
    let k = last_group(bytes, at, room);
    if k < room {
        end_at(bytes, at, k)
    } else if room < 10 {
        Err(Fault::Cut)
    } else {
        Err(Fault::Faulty)
    }
}
