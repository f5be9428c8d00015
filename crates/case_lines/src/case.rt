// One case: the usual call of an entry with the line's changes, and whether all that it returns and leaves is as the line says.
ghost use Rattle.std.specs.Prelude.{◌≡◌, length};

use crate::letters::{self, Letter};
use crate::lists::{apply, bytes_of};
use crate::usual::prepare;
use byte_lists::doubles::pattern_at;
use calls::comparing::{agrees, mark};
use calls::entry::Entry;
use words::bytes::put;
use words::text::part_of;

// Room for the longest case: 22 numbers, three lists of 4,097 doubles and one of 65,537, each with part of one more; and for any output.
fn sheet() -> [u8; 622_848]
    ensures { 622848 ≡ length result }
{
    [0; 622_848]
}

// Numbers or a list, from a place of the case on; and the place where they end.
fn lay(case: &mut [u8], from: usize, list: Letter, bytes: usize, line: &[u8]) -> usize {
    let end = from.saturating_add(bytes).min(case.len());
    if from <= end {
        prepare(&mut case[from..end], list, line);
    }
    end
}

// Behind the case's 22 numbers, of which 12 to 15 are the places where the lists end.
fn lay_lists(case: &mut [u8], entry: Option<Entry>, n: u64, line: &[u8]) {
    let mut end = 176;
    for (k, list) in letters::lists(entry, n).iter().enumerate() {
        let bytes = bytes_of(line, list.length, list.usual);
        end = lay(case, end, list.letter, bytes, line);
        put(case, 12 + k, end as u64);
    }
}

// The number that says the entry, the numbers that it is passed, from number 2 on, and the lists.
fn lay_call(case: &mut [u8], number: u64, n: u64, line: &[u8]) {
    let entry = Entry::try_from(number).ok();
    put(case, 1, number);
    lay(case, 16, letters::passed(entry), 80, line);
    lay_lists(case, entry, n, line);
}

// The numbers 17 to 21: what the call must return, and the lent numbers after it.
fn lay_told(case: &mut [u8], number: u64, line: &[u8]) {
    put(case, 17, number);
    lay(case, 144, Letter::Lent, 32, line);
}

// What is lent stays past the front; of the front the line says the entries, or some of them.
fn is_expected(out: &[u8], line: &[u8], whole: &mut [u8]) -> bool {
    mark(whole);
    let n = bytes_of(line, Letter::Front, 0)
        .min(out.len())
        .min(whole.len());
    whole[..n].copy_from_slice(&out[..n]);
    apply(whole, Letter::Entries, line);
    *out == *whole
}

fn is_left(out: &[u8], line: &[u8]) -> bool {
    let mut whole = sheet();
    let n = out.len().min(whole.len());
    is_expected(out, line, &mut whole[..n])
}

fn is_answered(case: &[u8], line: &[u8], out: &mut [u8]) -> bool {
    agrees(case, part_of(case, 136, 176), out) && is_left(out, line)
}

// As much output is lent as is usual, but where the line changes it.
fn answered(case: &[u8], line: &[u8]) -> bool {
    let mut out = sheet();
    let room = letters::room(Entry::try_from(pattern_at(case, 1)).ok());
    let n = bytes_of(line, Letter::LenOut, room).min(out.len());
    is_answered(case, line, &mut out[..n])
}

fn built(case: &mut [u8], head: &[u8], line: &[u8]) -> bool {
    lay_call(case, pattern_at(head, 0), pattern_at(head, 2), line);
    lay_told(case, pattern_at(head, 1), line);
    answered(case, line)
}

pub(crate) fn holds(line: &[u8]) -> bool {
    let mut head = [0u8; 4096];
    apply(&mut head, Letter::Head, line);
    let mut case = sheet();
    built(&mut case, &head, line)
}
