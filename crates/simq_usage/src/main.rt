//! The program, stored with words that are no command.
#![tactic(auto)]

use sim_program::simulate;
use std::process::ExitCode;

fn main(rt: HostRuntime) -> ExitCode {
    simulate(&rt, rt.stdin(), rt.stdout())
}
