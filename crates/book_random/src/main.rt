// The program on further lines. Random request lines, good and damaged.
#![tactic(auto)]

use std::process::ExitCode;

// The same as in the other programs: each is a crate of its own for what it is run on.
fn main(rt: HostRuntime) -> ExitCode {
    desk::status(desk::run(&rt, &rt.stdout()))
}
