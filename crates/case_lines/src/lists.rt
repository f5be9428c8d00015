// Lists of numbers as bytes, and what a line of text says of them: letters, each with the numbers of its list from the first place on, or from the place
// that @ names.
use crate::letters::Letter;
use crate::numerals::number;
use byte_lists::doubles::pattern_at;
use words::bytes::put;
use words::text::{first_byte, part_of, spaces_end, word_end};

// The letter that was read last, if it is a list's, and the place of the next number.
#[derive(Clone, Copy)]
struct Spot {
    letter: Option<Letter>,
    place: u64,
}

// A file's numbers take a byte each.
fn put_byte(b: &mut [u8], k: usize, n: u64) {
    if let Some(byte) = b.get_mut(k) {
        *byte = (n % 256) as u8;
    }
}

fn lay(b: &mut [u8], list: Letter, k: usize, n: u64) {
    if list == Letter::File {
        put_byte(b, k, n);
    } else {
        put(b, k, n);
    }
}

// A number goes to the next place of the list that its letter stands for.
fn enter(b: &mut [u8], list: Letter, w: &[u8], spot: Spot) {
    if first_byte(w) <= b'9' && spot.letter == Some(list) {
        lay(b, list, spot.place as usize, number(w));
    }
}

// A letter begins its list; @ names a place of it.
fn after(w: &[u8], spot: Spot) -> Spot {
    match first_byte(w) {
        0..=b'9' => Spot {
            place: spot.place.wrapping_add(1),
            ..spot
        },
        b'@' => Spot {
            place: number(w),
            ..spot
        },
        c => Spot {
            letter: Letter::try_from(c).ok(),
            place: 0,
        },
    }
}

pub(crate) fn apply(b: &mut [u8], list: Letter, line: &[u8]) {
    let mut spot = Spot {
        letter: Some(Letter::Head),
        place: 0,
    };
    let mut i = spaces_end(line, 0);
    while i < line.len() {
        let e = word_end(line, i);
        let w = part_of(line, i, e);
        enter(b, list, w, spot);
        if line.len() <= e {
            return;
        }
        spot = after(w, spot);
        i = spaces_end(line, e + 1);
    }
}

fn bytes(doubles: u64, more: u64) -> usize {
    if doubles <= 65537 && more < 8 {
        (8 * doubles + more) as usize
    } else {
        0
    }
}

// A list's length in bytes.
pub(crate) fn bytes_of(line: &[u8], list: Letter, usual: u64) -> usize {
    let mut b = [0; 16];
    put(&mut b, 0, usual);
    apply(&mut b, list, line);
    bytes(pattern_at(&b, 0), pattern_at(&b, 1))
}
