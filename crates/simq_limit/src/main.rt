//! The program, stored with a run that its limit stops.
#![tactic(auto)]

use sim_program::simulate;
use std::process::ExitCode;

fn main(rt: HostRuntime) -> ExitCode {
    simulate(&rt, rt.stdin(), rt.stdout())
}
