// The program on further lines. Every refusal that a line can reach, full districts, a full history, orders of 15 lines, equal names.
#![tactic(auto)]

use std::process::ExitCode;

// The same as in the other programs: each is a crate of its own for what it is run on.
fn main(rt: HostRuntime) -> ExitCode {
    desk::status(desk::run(&rt, &rt.stdout()))
}
