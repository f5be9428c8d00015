// The letters of a line: each begins the numbers of its list. Before the first stand the entry, what it returns, and how many doubles the lists of rows,
// stations, speeds and times have.
use calls::entry::Entry;

// Those in capitals begin a length: how many doubles, and how many bytes more.
#[derive(Clone, Copy, PartialEq, Eq)]
pub(crate) enum Letter {
    // What stands before the first letter.
    Head,
    // p: the numbers that the entry is passed; those of recovery have q, and the station that a step of a walk comes to has c.
    Passed,
    Request,
    Station,
    // w: the eight words that a step of a walk goes from. A start is passed the first seven.
    Walk,
    // r, s, a, t, x: recovery's rows; stations, squared speeds, times, samples.
    Rows,
    S,
    A,
    T,
    X,
    // f: a cut file, each number a byte of it.
    File,
    // S: of rows, stations or a file; A, T, X: of speeds, of times, of samples; O: of the output.
    LenS,
    LenA,
    LenT,
    LenX,
    LenOut,
    // What is left. n: the lent numbers; u: how many doubles are the output's front; e: its entries.
    Lent,
    Front,
    Entries,
}

// A byte that is no list's letter.
#[derive(Clone, Copy, PartialEq, Eq)]
pub(crate) struct NoLetter;

impl TryFrom<u8> for Letter {
    type Error = NoLetter;

    fn try_from(c: u8) -> Result<Self, NoLetter> {
        match c {
            b'p' => Ok(Letter::Passed),
            b'q' => Ok(Letter::Request),
            b'c' => Ok(Letter::Station),
            b'w' => Ok(Letter::Walk),
            b'r' => Ok(Letter::Rows),
            b's' => Ok(Letter::S),
            b'a' => Ok(Letter::A),
            b't' => Ok(Letter::T),
            b'x' => Ok(Letter::X),
            b'f' => Ok(Letter::File),
            b'S' => Ok(Letter::LenS),
            b'A' => Ok(Letter::LenA),
            b'T' => Ok(Letter::LenT),
            b'X' => Ok(Letter::LenX),
            b'O' => Ok(Letter::LenOut),
            b'n' => Ok(Letter::Lent),
            b'u' => Ok(Letter::Front),
            b'e' => Ok(Letter::Entries),
            _ => Err(NoLetter),
        }
    }
}

// A list of a call: its letter, that of its length, and how many doubles it has where the line does not say.
#[derive(Clone, Copy)]
pub(crate) struct List {
    pub(crate) letter: Letter,
    pub(crate) length: Letter,
    pub(crate) usual: u64,
}

pub(crate) fn passed(entry: Option<Entry>) -> Letter {
    match entry {
        Some(Entry::Recover) => Letter::Request,
        Some(Entry::WalkStart) => Letter::Walk,
        Some(Entry::WalkStep) => Letter::Station,
        _ => Letter::Passed,
    }
}

fn first_list(entry: Option<Entry>) -> Letter {
    match entry {
        Some(Entry::Recover | Entry::WalkStep) => Letter::Rows,
        Some(Entry::CutFileSection) => Letter::File,
        _ => Letter::S,
    }
}

fn second_list(entry: Option<Entry>, n: u64) -> List {
    let (letter, usual) = match entry {
        Some(Entry::WalkStep) => (Letter::Walk, 8),
        _ => (Letter::A, n),
    };
    List {
        letter,
        length: Letter::LenA,
        usual,
    }
}

// The four lists of an entry's call, where those that are alike have n doubles.
pub(crate) fn lists(entry: Option<Entry>, n: u64) -> [List; 4] {
    [
        List {
            letter: first_list(entry),
            length: Letter::LenS,
            usual: n,
        },
        second_list(entry, n),
        List {
            letter: Letter::T,
            length: Letter::LenT,
            usual: n,
        },
        List {
            letter: Letter::X,
            length: Letter::LenX,
            usual: 3,
        },
    ]
}

// How many doubles of output are lent.
pub(crate) fn room(entry: Option<Entry>) -> u64 {
    match entry {
        Some(Entry::WalkStart | Entry::WalkStep) => 8,
        _ => 4,
    }
}
