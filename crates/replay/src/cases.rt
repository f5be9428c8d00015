// From case to case. A case begins with its length in bytes and its entry's number; a leaf's has 6 numbers, any other has 22, the lists and the output.
ghost use Rattle.std.specs.Prelude.{◌≤◌, ◌<◌, length, IfSome};

use crate::comparing::is_as_recorded;
use crate::telling;
use crate::telling::{NONE, Tally};
use byte_lists::doubles::pattern_at;
use calls::entry::Entry;
use std::io;

// Whether the places where lists and output end rise from the 22 numbers to the case's own end.
fn is_whole(case: &[u8]) -> bool {
    176 <= pattern_at(case, 12)
        && (12..16).all(|k| pattern_at(case, k) <= pattern_at(case, k + 1))
        && pattern_at(case, 16) == case.len() as u64
}

// No section of a cut file is recorded.
fn is_case(entry: Entry, case: &[u8]) -> bool {
    match entry {
        Entry::CutFileSection => false,
        _ if entry.is_leaf() => case.len() == 48,
        _ => is_whole(case),
    }
}

// Whether the bytes are a case, which is then counted at the place of its entry's number.
fn is_counted(case: &[u8], tallies: &mut [Tally; 15]) -> bool {
    let Ok(entry) = Entry::try_from(pattern_at(case, 1)) else {
        return false;
    };
    if !is_case(entry, case) {
        return false;
    }
    if let Some(tally) = tallies.get_mut(entry as usize) {
        *tally = tally.and(Tally {
            cases: 1,
            differ: u64::from(!is_as_recorded(entry, case)),
        });
    }
    true
}

// The length of the case that the bytes begin with.
fn taken(rest: &[u8], tallies: &mut [Tally; 15]) -> Option<usize>
    ensures { IfSome result (λ n. (0 < n) × (n ≤ length rest.now)) }
{
    let n = pattern_at(rest, 0) as usize;
    let case = rest.get(..n)?;
    if n != 0 && is_counted(case, tallies) {
        Some(n)
    } else {
        None
    }
}

// Where the cases end, or where one does not keep its form.
fn counted_up_to(file: &[u8], tallies: &mut [Tally; 15]) -> usize {
    let mut at = 16;
    while at < file.len() {
        match taken(&file[at..], tallies) {
            Some(n) => at += n,
            None => return at,
        }
    }
    at
}

// The file begins with the letters "malikoza" and the number of its cases.
pub(crate) fn replay(rt: &impl Print, file: &[u8]) -> io::Result<()> {
    let mut tallies = [NONE; 15];
    if !file.starts_with(b"malikoza") {
        return telling::malformed(rt, 0);
    }
    let at = counted_up_to(file, &mut tallies);
    if at != file.len() {
        return telling::malformed(rt, at);
    }
    if telling::total(&tallies).cases != pattern_at(file, 1) {
        return telling::malformed(rt, 8);
    }
    telling::tell(rt, &tallies)
}
