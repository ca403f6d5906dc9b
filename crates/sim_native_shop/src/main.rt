//! The machine shop by hand: for each number of machines that the program's words say, what the run of such a shop comes to, as
//! `simq load` prints it.
#![tactic(auto)]

ghost use Rattle.std.specs.Prelude.{◌≡◌, ◌≤◌};

use sim_kernel::{Kernel, Rest, Unit, empty_end};
use sim_models::Model;
use sim_native::{ShopBody, ShopCode, shop_setup};
use sim_trace::{LineBuf, render_load};
use sim_types::{End, Line, Summary, Until};
use std::alloc::{AllocError, Global};
use std::io::Write;
use std::process::ExitCode;
use std::rt::Runtime;
use std::{env, io};

/// How many machines a shop may have, at most.
const MOST_MACHINES: u32 = 2_000;

/// How many units a run may make, at most.
const MOST_UNITS: u32 = 10_000_000;

/// The exit status is 0 only if all lines were written.
fn main(rt: HostRuntime) -> ExitCode {
    match print_shops(&rt) {
        Ok(()) => ExitCode::SUCCESS,
        Err(_) => ExitCode::FAILURE,
    }
}

/// Prints a line on each shop.
fn print_shops<R: Runtime + AllocGlobal>(rt: &R) -> io::Result<()> {
    let mut line = LineBuf::new();
    for word in env::args(rt)?.skip(1) {
        let size = MOST_MACHINES.min(word.as_str().parse().unwrap_or(1));
        let summary = run_shop(rt.alloc(), size)?;
        render_load(size, &summary, &mut line);
        io::writer(rt).write_all(line.bytes())?;
    }
    Ok(())
}

/// Runs the shop of so many machines, and tells what the run comes to.
fn run_shop(alloc: Global, size: u32) -> Result<Summary, AllocError>
    requires few { size ≤ 2000 }
{
    let code = ShopCode::new(size);
    let setup = shop_setup(alloc, size)?;
    let mut kernel = Kernel::<ShopBody>::new(alloc, &code, &setup, Model::Shop.seed())?;
    let mut logs = Logs { count: 0, sum: 0 };
    let made = make_units(&code, &mut kernel, &mut logs);
    let end = end_of(kernel.rest(), setup.until);
    let (time, processed) = kernel.finish();
    made?;
    Ok(Summary {
        end,
        time,
        processed,
        logs: logs.count,
        total: logs.sum,
    })
}

/// How a run ends that stands so and makes no more units.
fn end_of(rest: Rest, until: Until) -> End {
    match rest {
        Rest::Busy | Rest::Idle => End::Limit,
        Rest::Empty => empty_end(until),
        Rest::Over(why) => why,
    }
}

/// The numbers that machines logged: how many there are, and their sum.
#[derive(Drop)]
struct Logs {
    count: u64,
    sum: i128,
}

/// Makes all units of a run that was just opened, and counts what is logged.
fn make_units(
    code: &ShopCode,
    kernel: &mut Kernel<ShopBody>,
    logs: &mut Logs,
) -> Result<(), AllocError>
    requires code { code.now ≡ kernel.old.parts.code }
    requires units { kernel.old.units ≡ 0 }
{
    let mut left = MOST_UNITS;
    while left > 0 && matches!(kernel.rest(), Rest::Busy | Rest::Idle) {
        let units = kernel.units(code, left)?;
        left -= units.made;
        if let Unit::Line(Line::Log { value, .. }) = units.last {
            logs.count = logs.count.saturating_add(1);
            logs.sum = logs.sum.saturating_add(i128::from(value));
        }
    }
    Ok(())
}
