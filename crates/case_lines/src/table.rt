// The cases: a line for each, its name and then what src/letters.rt says. A line that does not begin with a small letter is a remark.
use crate::case::holds;
use std::io;
use words::text::{first_byte, word_end};

fn tell(rt: &impl Print, name: &[u8], same: bool) -> io::Result<()> {
    rt.write_all(name)?;
    if same {
        rt.write_all(b" same\n")
    } else {
        rt.write_all(b" differs\n")
    }
}

// How many cases the line is: 1, or none.
fn case(rt: &impl Print, line: &[u8]) -> io::Result<u64> {
    if first_byte(line) < b'a' {
        return Ok(0);
    }
    let (name, rest) = line.split_at(word_end(line, 0));
    tell(rt, name, holds(rest))?;
    Ok(1)
}

// How many there were. What stands behind the last line's end is no line.
pub(crate) fn run(rt: &impl Print, text: &[u8]) -> io::Result<u64> {
    let mut cases = 0u64;
    for piece in text.split_inclusive(|c| *c == b'\n') {
        if let Some((b'\n', line)) = piece.split_last() {
            cases = cases.wrapping_add(case(rt, line)?);
        }
    }
    Ok(cases)
}
