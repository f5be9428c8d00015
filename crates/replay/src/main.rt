// Calls the library's entries on recorded inputs and compares everything a call leaves behind with the recorded answers: `replay FILE`. It prints for each
// entry how many cases there were and how many differ, and last the same of all.
//
// `host/run record` makes the file: the eight letters "malikoza", the number of cases, and the cases. A number is eight bytes, low byte first.
#![tactic(auto)]

mod cases;
mod comparing;
mod telling;

ghost use Rattle.std.specs.Prelude.{◌≡◌, length};

use calls::reading::fill;
use std::fs::File;
use std::io;
use std::io::Read;
use std::rt::{Env, Files};

// A file beyond it breaks off within a case, which is told.
fn room() -> [u8; 1_638_400]
    ensures { 1638400 ≡ length result }
{
    [0; 1_638_400]
}

fn read(rt: &impl Print, from: &mut impl Read) -> io::Result<()> {
    let mut file = room();
    let n = fill(from, &mut file)?;
    cases::replay(rt, &file[..n])
}

// What failed, and why.
fn fail(to: &impl Print, path: &[u8], error: io::Error) -> io::Result<()> {
    to.write_all(path)?;
    println!(to; ": {error}")
}

// A path is text here.
fn open<R: Files>(rt: &R, path: &[u8]) -> io::Result<R::File> {
    match str::from_utf8(path) {
        Ok(text) => File::open(rt, text),
        Err(_) => Err(io::Error::from(io::ErrorKind::InvalidFilename)),
    }
}

fn main(rt: HostRuntime) -> io::Result<()> {
    let mut path = [0u8; 4096];
    let n = rt.arg(1, &mut path).unwrap_or(0);
    match open(&rt, &path[..n]) {
        Ok(mut file) => read(&rt, &mut file),
        Err(error) => fail(&rt.stderr(), &path[..n], error),
    }
}
