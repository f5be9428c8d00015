// Cases as lines of text: each is read, called and compared, and told by its name.
#![tactic(auto)]

mod case;
mod letters;
mod lists;
mod numerals;
mod table;
mod usual;

use calls::reading::fill;
use std::io;

// The lines are those of the standard input. For each case its name is written and whether the library answers what the line says; then how many there were.
pub fn run(rt: &(impl Input + Print)) -> io::Result<()> {
    let mut text = [0u8; 65_536];
    let n = fill(&mut rt.reader(), &mut text)?;
    let cases = table::run(rt, &text[..n])?;
    println!(rt; "{cases} cases")
}
