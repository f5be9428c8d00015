// Whether a call leaves behind what was recorded: its number, the lent numbers, and the whole output, so that what lies past the written front is held too.
use byte_lists::doubles::pattern_at;
use calls::comparing::agrees;
use calls::entry::Entry;

fn leaves(case: &[u8], told: &[u8], expected: &[u8], out: &mut [u8]) -> bool {
    agrees(case, told, out) && *out == *expected
}

// The expected output is as long as the one that is lent. One beyond a page differs.
fn leaves_behind(case: &[u8], told: &[u8], expected: &[u8]) -> bool {
    let mut page = [0u8; 4096];
    let n = expected.len().min(page.len());
    leaves(case, told, expected, &mut page[..n])
}

// A leaf's answer is the number 5, and its case ends there. In any other case the numbers 17 to 21 are what the call returns and the lent numbers after it.
fn told_at(entry: Entry) -> usize {
    if entry.is_leaf() { 40 } else { 136 }
}

// The expected output stands last; the numbers 15 and 16 are the places where it begins and ends.
pub(crate) fn is_as_recorded(entry: Entry, case: &[u8]) -> bool {
    let told = told_at(entry).min(case.len());
    let end = (pattern_at(case, 16) as usize).min(case.len());
    let start = (pattern_at(case, 15) as usize).min(end);
    leaves_behind(case, &case[told..], &case[start..end])
}
