//! The program: it carries out what its words ask for, on standard input and output.
#![tactic(auto)]

use sim_program::simulate;
use std::process::ExitCode;

fn main(rt: HostRuntime) -> ExitCode {
    simulate(&rt, rt.stdin(), rt.stdout())
}
