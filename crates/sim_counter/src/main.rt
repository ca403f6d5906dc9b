//! Customers at a counter with two clerks, by hand, from their setup to their printed trace.
#![tactic(auto)]

ghost use Rattle.std.specs.Prelude.{◌≡◌, [], ◌∷◌, IfOk};
ghost use Rattle.sim_counter.specs.Opening.{customer_start, six_customers};

use sim_bodies::{Counter, Customer};
use sim_kernel::Walk;
use sim_outside::{Sink, StdSink};
use sim_types::{End, List, Resource, ResourceKind, Setup, Start, Until};
use sim_writing::{RunFault, write_run};
use std::alloc::{AllocError, Global};
use std::io::Write;
use std::process::ExitCode;

fn main(rt: HostRuntime) -> ExitCode {
    match print_visits(rt.alloc(), rt.stdout()) {
        Ok(_) => ExitCode::SUCCESS,
        Err(_) => ExitCode::FAILURE,
    }
}

/// Lets six customers be served, each for ten units of time, and prints the trace to its end.
fn print_visits<O: Write + Drop>(alloc: Global, output: O) -> Result<End, RunFault> {
    let code = Counter { service: 10 };
    let setup = six_customers(alloc)?;
    let walk = Walk::<Customer>::new(alloc, &code, &setup, 0, &[], 10_000_000)?;
    let mut out = StdSink::new(output);
    let end = write_run(&code, walk, &[], &mut out)?;
    out.flush()?;
    Ok(end)
}

/// A counter with two clerks, and six customers, who come at these times.
fn six_customers(alloc: Global) -> Result<Setup, AllocError>
    ensures { IfOk result (λ setup. setup ≡ six_customers) }
{
    let mut resources = List::new(alloc);
    resources.push(Resource {
        kind: ResourceKind::Plain,
        capacity: 2,
        opening: 0,
    })?;
    let mut starts = List::new(alloc);
    starts.push(customer_start(alloc, 0, 0)?)?;
    starts.push(customer_start(alloc, 0, 1)?)?;
    starts.push(customer_start(alloc, 3, 2)?)?;
    starts.push(customer_start(alloc, 5, 3)?)?;
    starts.push(customer_start(alloc, 8, 4)?)?;
    starts.push(customer_start(alloc, 40, 5)?)?;
    Ok(Setup {
        until: Until::Never,
        events: 0,
        resources,
        ports: List::new(alloc),
        starts,
    })
}

/// The start of the customer with this number, who comes at this time.
fn customer_start(alloc: Global, arrival: i64, number: i64) -> Result<Start, AllocError>
    ensures { IfOk result (λ start. start ≡ customer_start arrival number) }
{
    Ok(Start {
        kind: 0,
        args: List::from_vec(Vec::from_slice(alloc, &[arrival, number])?),
    })
}
