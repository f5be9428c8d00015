// The usual call, which a line changes.
use crate::letters::Letter;
use crate::lists::apply;
use calls::calling::BEFORE;
use patterns::pattern::pattern_of;
use words::bytes::put;

// Document 01's: a_prev 1, previous [0, 4] cap 9, current [0, 4] cap 3, tolerances 0.
fn request(k: u64) -> f64 {
    match k {
        0 => 1.0,
        2 | 5 => 4.0,
        3 => 9.0,
        6 => 3.0,
        _ => 0.0,
    }
}

// The start of such a walk: tolerances 0, speed 1, [0, 4] cap 9.
fn walk(k: u64) -> f64 {
    match k {
        3 => 1.0,
        5 => 4.0,
        6 => 9.0,
        _ => 0.0,
    }
}

// The station that the next step comes to: [0, 4] cap 3.
fn station(k: u64) -> f64 {
    match k {
        1 => 4.0,
        2 => 3.0,
        _ => 0.0,
    }
}

// t0 0 and dt 1; rows and a file's bytes 0; s 0, 1, 2, ..; a 0, 4, 0, 4, ..; t 0, 1, 2, ..; x 0, 1/32, 2/32, ..: so b is 2, -2, 2, ..,
// and the times from 0 on are t.
fn double(list: Letter, k: u64) -> f64 {
    match list {
        Letter::Passed => if k == 1 { 1.0 } else { 0.0 },
        Letter::Request => request(k),
        Letter::Station => station(k),
        Letter::Walk => walk(k),
        Letter::Rows | Letter::File => 0.0,
        Letter::A => if k % 2 == 0 { 0.0 } else { 4.0 },
        Letter::X => 0.03125 * std::num::nearest_u64_to_f64(k),
        _ => std::num::nearest_u64_to_f64(k),
    }
}

// As they are before a call.
fn lent(k: u64) -> u64 {
    match k {
        0 => BEFORE.first,
        1 => BEFORE.second,
        2 => BEFORE.third,
        _ => BEFORE.fourth,
    }
}

fn usual(list: Letter, k: u64) -> u64 {
    match list {
        Letter::Lent => lent(k),
        Letter::Walk if k == 7 => 1,
        _ => pattern_of(double(list, k)),
    }
}

fn fill(b: &mut [u8], list: Letter) {
    for k in 0..b.len() / 8 {
        put(b, k, usual(list, k as u64));
    }
}

pub(crate) fn prepare(b: &mut [u8], list: Letter, line: &[u8]) {
    fill(b, list);
    apply(b, list, line);
}
