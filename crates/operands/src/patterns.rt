// Three patterns taken apart: which of them have a leading digit, and their significands with that digit at bit 52.
ghost use Rattle.std.specs.Prelude.{◌≡◌, ◌&&◌, from_bits};
ghost use Rattle.std.specs.Float.{binary64};
ghost use Rattle.operands.specs.SignAndSize.{is_special, is_normal, Unpacked};

use rounding::packing::{Parts, fields, unpacked};

// The parts of the three operands.
#[derive(Clone, Copy)]
pub struct Triple {
    pub x: Parts,
    pub y: Parts,
    pub z: Parts,
}

// Whether a pattern is a zero's, an infinity's or a NaN's.
pub fn special(b: u64) -> bool
    ensures { result ≡ is_special (from_bits binary64 b) }
{
    let p = b % 0x8000_0000_0000_0000;
    p == 0 || p >= 0x7ff0_0000_0000_0000
}

// Whether a pattern is a normal value's.
fn normal(b: u64) -> bool
    ensures { result ≡ is_normal b }
{
    ((b >> 52) % 2048).wrapping_sub(1) < 2046
}

pub fn all_normal(a: u64, b: u64, c: u64) -> bool
    ensures { result ≡ (is_normal a && (is_normal b && is_normal c)) }
{
    normal(a) && normal(b) && normal(c)
}

// The parts of three patterns. Most often all are normal, and no more than that is tested. Else each is unpacked by itself, where the count of leading
// zero bits brings a subnormal's leading digit up.
pub fn split(a: u64, b: u64, c: u64) -> Triple
    ensures { Unpacked a result.x.m result.x.k × Unpacked b result.y.m result.y.k × Unpacked c result.z.m result.z.k }
{
    if all_normal(a, b, c) {
        return Triple {
            x: fields(a % 0x8000_0000_0000_0000),
            y: fields(b % 0x8000_0000_0000_0000),
            z: fields(c % 0x8000_0000_0000_0000),
        };
    }
    Triple {
        x: unpacked(a % 0x8000_0000_0000_0000),
        y: unpacked(b % 0x8000_0000_0000_0000),
        z: unpacked(c % 0x8000_0000_0000_0000),
    }
}
