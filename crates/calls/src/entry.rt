// The library's entries, by number and by name.
ghost use Rattle.std.specs.Prelude.{◌≡◌, ◌<◌, ltb, MatchResult};
ghost use Rattle.calls.specs.Entries.{entry_number};

use std::fmt;

#[derive(Clone, Copy, Debug, PartialEq, Eq)]
pub enum Entry {
    Sqrt = 0,
    Fma = 1,
    Hypot = 2,
    NextDown = 3,
    Minimum = 4,
    Maximum = 5,
    Absolute = 6,
    WholePart = 7,
    Recover = 8,
    AToB = 9,
    SToT = 10,
    TToSList = 11,
    TToSGrid = 12,
    WalkStart = 13,
    WalkStep = 14,
    CutFileSection = 15,
}

// A number that is no entry's.
#[derive(Clone, Copy, Debug, PartialEq, Eq)]
pub struct NoEntry;

impl TryFrom<u64> for Entry {
    type Error = NoEntry;

    ghost try_from_gives = { λ number r. MatchResult r (λ entry. entry_number entry ≡ number) (λ _. 15 < number) };

    fn try_from(number: u64) -> Result<Self, NoEntry> {
        match number {
            0 => Ok(Entry::Sqrt),
            1 => Ok(Entry::Fma),
            2 => Ok(Entry::Hypot),
            3 => Ok(Entry::NextDown),
            4 => Ok(Entry::Minimum),
            5 => Ok(Entry::Maximum),
            6 => Ok(Entry::Absolute),
            7 => Ok(Entry::WholePart),
            8 => Ok(Entry::Recover),
            9 => Ok(Entry::AToB),
            10 => Ok(Entry::SToT),
            11 => Ok(Entry::TToSList),
            12 => Ok(Entry::TToSGrid),
            13 => Ok(Entry::WalkStart),
            14 => Ok(Entry::WalkStep),
            15 => Ok(Entry::CutFileSection),
            _ => Err(NoEntry),
        }
    }
}

impl Entry {
    // One number in, or two or three, and one out.
    pub fn is_leaf(self) -> bool
        ensures { result ≡ ltb (entry_number self) 8 }
    {
        (self as u64) < 8
    }
}

// As C calls it.
impl fmt::Display for Entry {
    fn fmt<W: fmt::Write>(&self, f: &mut fmt::Formatter<W>) -> fmt::Result {
        f.write_str(match self {
            Entry::Sqrt => "malikoza_sqrt",
            Entry::Fma => "malikoza_fma",
            Entry::Hypot => "malikoza_hypot",
            Entry::NextDown => "malikoza_next_down",
            Entry::Minimum => "malikoza_minimum",
            Entry::Maximum => "malikoza_maximum",
            Entry::Absolute => "malikoza_absolute",
            Entry::WholePart => "malikoza_whole_part",
            Entry::Recover => "malikoza_recover",
            Entry::AToB => "malikoza_a_to_b",
            Entry::SToT => "malikoza_s_to_t",
            Entry::TToSList => "malikoza_t_to_s_list",
            Entry::TToSGrid => "malikoza_t_to_s_grid",
            Entry::WalkStart => "malikoza_walk_start",
            Entry::WalkStep => "malikoza_walk_step",
            Entry::CutFileSection => "malikoza_cut_file_section",
        })
    }
}
