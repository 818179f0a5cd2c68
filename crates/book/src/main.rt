// The program: request lines in, answers out, on the book of document 01.
#![tactic(auto)]

use std::process::ExitCode;

// The same as in the other programs: each is a crate of its own for what it is run on.
fn main(rt: HostRuntime) -> ExitCode {
    desk::status(desk::run(&rt, &rt.stdout()))
}
