// What is counted, and what is printed.
use calls::entry::Entry;
use std::{fmt, io};

// How many cases there were, and how many of them differ.
#[derive(Clone, Copy)]
pub(crate) struct Tally {
    pub(crate) cases: u64,
    pub(crate) differ: u64,
}

pub(crate) const NONE: Tally = Tally {
    cases: 0,
    differ: 0,
};

impl Tally {
    pub(crate) fn and(self, other: Tally) -> Tally {
        Tally {
            cases: self.cases.wrapping_add(other.cases),
            differ: self.differ.wrapping_add(other.differ),
        }
    }
}

impl fmt::Display for Tally {
    fn fmt<W: fmt::Write>(&self, f: &mut fmt::Formatter<W>) -> fmt::Result {
        write!(f, "{} cases, {} differ", self.cases, self.differ)
    }
}

pub(crate) fn total(tallies: &[Tally; 15]) -> Tally {
    tallies.iter().fold(NONE, |sum, tally| sum.and(*tally))
}

// Each entry has its tally at the place of its number.
pub(crate) fn tell(rt: &impl Print, tallies: &[Tally; 15]) -> io::Result<()> {
    for (number, tally) in tallies.iter().enumerate() {
        if let Ok(entry) = Entry::try_from(number as u64) {
            println!(rt; "{entry}: {tally}")?;
        }
    }
    println!(rt; "{}", total(tallies))
}

// Where a case, or the file as a whole, does not keep its form.
pub(crate) fn malformed(rt: &impl Print, at: usize) -> io::Result<()> {
    println!(rt; "no list of cases: malformed at byte {at}")
}
