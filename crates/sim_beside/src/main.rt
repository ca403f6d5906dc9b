//! Runs of a scenario beside other work of the same thread: both are futures, joined under one executor.
#![tactic(auto)]

ghost use Rattle.std.specs.Prelude.{All};
ghost use Rattle.sim_host.specs.Hosting.{IsHosted};

mod work;

use crate::work::Work;
use futures::executor::block_on;
use futures::future::join;
use sim_code::read;
use sim_host::{HostAll, Hosted, close_all, open_all};
use sim_scenario::Scenario;
use sim_types::{List, Summary};
use std::alloc::AllocGlobal;
use std::io::{self, ErrorKind};
use std::process::ExitCode;
use std::random::RandomSource;
use std::rt::Runtime;
use std::sync::Wait;

/// An oven that is filled and then empties, an hour each.
const OVEN: &[u8] =
    b"scenario 1\nuntil empty\nprocess oven\ntimeout 60\ntimeout 60\nend\nstart oven\n";

/// How many runs there are, and how many units each may make.
const RUNS: u32 = 3;

const LIMIT: u32 = 1000;

/// How many turns the other work takes.
const TURNS: u32 = 10;

fn main(rt: HostRuntime) -> ExitCode {
    match bake(&rt) {
        Ok(()) => ExitCode::SUCCESS,
        Err(_) => ExitCode::FAILURE,
    }
}

/// Opens the runs, makes them beside the work, spends them, and prints what they and the work come to.
fn bake<R>(rt: &R) -> io::Result<()>
where
    R: Runtime + AllocGlobal + RandomSource + Wait,
{
    let Ok(scenario) = read(rt.alloc(), OVEN) else {
        return Err(ErrorKind::InvalidData.into());
    };
    let mut runs = open_all(rt.alloc(), &scenario, RUNS, LIMIT)?;
    let told = run_beside(rt, &scenario, runs.as_mut_slice());
    close_all(runs);
    let (summaries, turns) = told?;
    for run in summaries.as_slice() {
        println!(rt; "a run processed {} events by {}", run.processed, run.time)?;
    }
    println!(rt; "the other work took {turns} turns")
}

/// Polls the runs and the work in turn, until both are ready.
fn run_beside<R: AllocGlobal + RandomSource + Wait>(
    rt: &R,
    scenario: &Scenario,
    runs: &mut [Hosted],
) -> io::Result<(List<Summary>, u32)>
    requires { All (IsHosted scenario.now) runs.old }
{
    let work = Work {
        turns: TURNS,
        left: TURNS,
    };
    let all = HostAll::new(rt.alloc(), runs, scenario)?;
    let (summaries, turns) = block_on(rt, join(all, work))?;
    Ok((summaries?, turns))
}
