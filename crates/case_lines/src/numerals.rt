// The numbers that words of a line stand for.
use patterns::pattern::pattern_of;
use words::text::first_byte;

// The digits read so far; after a point also the power of ten that they are to be divided by.
#[derive(Clone, Copy)]
struct Partial {
    value: u64,
    hex: bool,
    unit: Option<u64>,
}

fn digit(c: u8) -> u64 {
    match c {
        b'0'..=b'9' => (c - b'0') as u64,
        b'a'..=b'f' => (c - b'a') as u64 + 10,
        _ => 0,
    }
}

// No number of a line is so long that digits are lost.
fn shifted(value: u64, hex: bool) -> Option<u64> {
    let base = if hex { 16 } else { 10 };
    if value < 0x1000_0000_0000_0000 {
        Some(base * value)
    } else {
        None
    }
}

fn grown(n: Partial, c: u8) -> Partial {
    Partial {
        value: shifted(n.value, n.hex).unwrap_or(0).wrapping_add(digit(c)),
        unit: n.unit.and_then(|unit| shifted(unit, false)),
        ..n
    }
}

fn read(n: Partial, c: u8) -> Partial {
    match c {
        b'#' => Partial {
            value: 0,
            hex: true,
            unit: None,
        },
        b'.' => Partial {
            hex: false,
            unit: Some(1),
            ..n
        },
        _ => grown(n, c),
    }
}

fn digits(word: &[u8]) -> Partial {
    let none = Partial {
        value: 0,
        hex: false,
        unit: None,
    };
    word.iter().fold(none, |n, c| read(n, *c))
}

// Decimal digits; hexadecimal ones after a #; with a point the double's pattern, with a sign before it the negative one's.
pub(crate) fn number(word: &[u8]) -> u64 {
    let n = digits(word);
    let Some(unit) = n.unit else {
        return n.value;
    };
    let x = std::num::nearest_u64_to_f64(n.value) / std::num::nearest_u64_to_f64(unit);
    pattern_of(if first_byte(word) == b'-' { -x } else { x })
}
