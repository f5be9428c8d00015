// Cut files: each answer, each refusal and every limit, and a worked example; the cases are the lines of the file stdin.
#![tactic(auto)]

use std::io;

fn main(rt: HostRuntime) -> io::Result<()> {
    case_lines::run(&rt)
}
