// The special values of each leaf, each refusal of recovery and each way to its answer, a walk, refusals 10
// to 29 and every limit of stations, speeds and times:
// the cases are the lines of the file stdin.
#![tactic(auto)]

use std::io;

fn main(rt: HostRuntime) -> io::Result<()> {
    case_lines::run(&rt)
}
