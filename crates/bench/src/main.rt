// Document 01's bench cases, the lines of the file stdin: for each its name and whether the library answers what the paper says; then how many there were.
#![tactic(auto)]

use std::io;

fn main(rt: HostRuntime) -> io::Result<()> {
    case_lines::run(&rt)
}
