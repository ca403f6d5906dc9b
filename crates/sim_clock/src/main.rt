//! A clock that is written by hand, from its setup to its printed trace.
#![tactic(auto)]

ghost use Rattle.std.specs.Prelude.{◌≡◌, [], ◌∷◌, IfOk};
ghost use Rattle.sim_types.specs.declared.setup.Until.TheVariants as until;

use sim_bodies::{Clock, Pace};
use sim_kernel::Walk;
use sim_outside::{Sink, StdSink};
use sim_plain::Plain;
use sim_types::{End, List, Setup, Start, Until};
use sim_writing::{RunFault, write_run};
use std::alloc::{AllocError, Global};
use std::io::Write;
use std::process::ExitCode;

fn main(rt: HostRuntime) -> ExitCode {
    match print_ticks(rt.alloc(), rt.stdout()) {
        Ok(_) => ExitCode::SUCCESS,
        Err(_) => ExitCode::FAILURE,
    }
}

/// Lets one clock tick every five units of time, for fifteen units of the machine, and prints the trace.
#[tactic(auto, using(sim_bodies::proofs::TestSetups::clock_start_fits))]
fn print_ticks<O: Write + Drop>(alloc: Global, output: O) -> Result<End, RunFault> {
    let code = Pace { delay: 5 };
    let setup = one_clock(alloc)?;
    let walk = Walk::<Plain<Clock>>::new(alloc, &code, &setup, 0, &[], 15)?;
    let mut out = StdSink::new(output);
    let end = write_run(&code, walk, &[], &mut out)?;
    out.flush()?;
    Ok(end)
}

/// One process of kind 0, and nothing beside it.
fn one_clock(alloc: Global) -> Result<Setup, AllocError>
    ensures { IfOk result (λ setup. setup ≡ record {
      until = until.Never;
      events = 0;
      resources = [];
      ports = [];
      starts = record { kind = 0; args = [] } ∷ [];
    }) }
{
    let mut starts = List::new(alloc);
    starts.push(Start {
        kind: 0,
        args: List::new(alloc),
    })?;
    Ok(Setup {
        until: Until::Never,
        events: 0,
        resources: List::new(alloc),
        ports: List::new(alloc),
        starts,
    })
}
