// The entries, called on a case.
use crate::entry::Entry;
use crate::{files, walks};
use byte_lists::doubles::pattern_at;
use malikoza::recover::malikoza_recover;
use malikoza::{leaves, stations};

// What a call returns, and the four lent numbers after it.
#[derive(Clone, Copy, PartialEq, Eq)]
pub struct Told {
    pub number: u64,
    pub first: u64,
    pub second: u64,
    pub third: u64,
    pub fourth: u64,
}

// The lent numbers before a call; 0 is what an entry that returns nothing is taken to return.
pub const BEFORE: Told = Told {
    number: 0,
    first: 0x0123_4567_89ab_cdef,
    second: 0x1234_5678_9abc_def0,
    third: 0x2345_6789_abcd_ef01,
    fourth: 0x3456_789a_bcde_f012,
};

// The four lists of a case.
#[derive(Clone, Copy)]
struct Lists<'a> {
    s: &'a [u8],
    a: &'a [u8],
    t: &'a [u8],
    x: &'a [u8],
}

// The answer of a leaf, and None of any other entry. A leaf's operands are the numbers 2 to 4; it takes the first ones it needs.
pub(crate) fn leaf(entry: Entry, case: &[u8]) -> Option<u64> {
    let x = pattern_at(case, 2);
    let y = pattern_at(case, 3);
    let z = pattern_at(case, 4);
    match entry {
        Entry::Sqrt => Some(leaves::malikoza_sqrt(x)),
        Entry::Fma => Some(leaves::malikoza_fma(x, y, z)),
        Entry::Hypot => Some(leaves::malikoza_hypot(x, y)),
        Entry::NextDown => Some(leaves::malikoza_next_down(x)),
        Entry::Minimum => Some(leaves::malikoza_minimum(x, y)),
        Entry::Maximum => Some(leaves::malikoza_maximum(x, y)),
        Entry::Absolute => Some(leaves::malikoza_absolute(x)),
        Entry::WholePart => Some(leaves::malikoza_whole_part(x)),
        _ => None,
    }
}

fn recover(case: &[u8], rows: &[u8]) -> Told {
    let mut told = BEFORE;
    told.number = malikoza_recover(
        pattern_at(case, 2),
        pattern_at(case, 3),
        pattern_at(case, 4),
        pattern_at(case, 5),
        pattern_at(case, 6),
        pattern_at(case, 7),
        pattern_at(case, 8),
        pattern_at(case, 9),
        pattern_at(case, 10),
        pattern_at(case, 11),
        rows,
        &mut told.first,
        &mut told.second,
        &mut told.third,
        &mut told.fourth,
    );
    told
}

// For the entries that are lent no numbers.
pub(crate) fn only(number: u64) -> Told {
    Told { number, ..BEFORE }
}

fn list(lists: Lists, out: &mut [u8]) -> Told {
    let mut told = BEFORE;
    told.number = stations::malikoza_t_to_s_list(
        lists.s,
        lists.a,
        lists.t,
        lists.x,
        out,
        &mut told.first,
        &mut told.second,
        &mut told.third,
        &mut told.fourth,
    );
    told
}

fn grid(case: &[u8], lists: Lists, out: &mut [u8]) -> Told {
    let mut told = BEFORE;
    told.number = stations::malikoza_t_to_s_grid(
        lists.s,
        lists.a,
        lists.t,
        pattern_at(case, 2),
        pattern_at(case, 3),
        (pattern_at(case, 4) % 256) as u8,
        out,
        &mut told.first,
        &mut told.second,
        &mut told.third,
        &mut told.fourth,
    );
    told
}

// The four lists lie one after the other behind the case's 22 numbers; the numbers 12 to 15 are the places where they end.
fn lists_of(case: &[u8]) -> Lists<'_> {
    let fourth = case.len().min(pattern_at(case, 15) as usize);
    let third = fourth.min(pattern_at(case, 14) as usize);
    let second = third.min(pattern_at(case, 13) as usize);
    let first = second.min(pattern_at(case, 12) as usize);
    let start = first.min(176);
    Lists {
        s: &case[start..first],
        a: &case[first..second],
        t: &case[second..third],
        x: &case[third..fourth],
    }
}

// Of any entry but a leaf.
pub(crate) fn call(entry: Entry, case: &[u8], out: &mut [u8]) -> Told {
    let lists = lists_of(case);
    match entry {
        Entry::Recover => recover(case, lists.s),
        Entry::AToB => only(stations::malikoza_a_to_b(lists.s, lists.a, out)),
        Entry::SToT => only(stations::malikoza_s_to_t(lists.s, lists.a, pattern_at(case, 2), out)),
        Entry::TToSList => list(lists, out),
        Entry::TToSGrid => grid(case, lists, out),
        Entry::WalkStart => walks::start(case, out),
        Entry::WalkStep => walks::step(case, lists.s, lists.a, out),
        _ => files::section(case, lists.s),
    }
}
