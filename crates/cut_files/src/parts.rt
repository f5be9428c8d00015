// The part of a file that holds a payload, and the doubles in it.
ghost use Rattle.std.specs.Prelude.{◌≡◌};
ghost use Rattle.cut_files.specs.File.{section_of};
ghost use Rattle.cut_files.specs.Part.{section_number, part, Located, doubles_in};

use crate::judging::section_of;

// 0, or the number of the refusal: 40 to 46.
pub fn section_number(file: &[u8], kind: u64) -> u64
    ensures { result ≡ section_number (section_of file.now kind) }
{
    match section_of(file, kind) {
        Ok(_) => 0,
        Err(refusal) => refusal.number(),
    }
}

// The payload of the section of a kind, lent on; empty where section_number is not 0.
#[tactic(auto, using(crate::proofs::Handed::placed_ordered, crate::proofs::Handed::placed_held))]
pub fn section(file: &[u8], kind: u64) -> &[u8]
    ensures { result.now ≡ part file.now (section_of file.now kind) }
{
    match section_of(file, kind) {
        Ok(section) => &file[section.start..section.end],
        Err(_) => &[],
    }
}

// Where that part is, told to lent numbers: its start within the file and its length. A refusal writes nothing.
#[tactic(auto, using(crate::proofs::Handed::placed_ordered))]
pub fn locate(file: &[u8], kind: u64, start: &mut u64, length: &mut u64) -> u64
    ensures { Located file.now kind result
        start.old start.new
        length.old length.new }
{
    match section_of(file, kind) {
        Ok(section) => {
            *start = section.start as u64;
            *length = (section.end - section.start) as u64;
            0
        }
        Err(refusal) => refusal.number(),
    }
}

// Of a list's payload what follows its count.
pub fn doubles(payload: &[u8]) -> &[u8]
    ensures { result.now ≡ doubles_in payload.now }
{
    let count = payload.len() % 8;
    &payload[count..]
}
