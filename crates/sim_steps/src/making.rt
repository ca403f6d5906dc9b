//! What is made where a kernel is opened.
ghost use Rattle.std.specs.Prelude.{◌≡◌, ◌<◌, ◌≤◌, ◌^◌, ◌+◌, pos, ◌≤ℤ◌, length, replicate, [], ◌∷◌, OnOk, Some};
ghost use Rattle.sim_machine.specs.Runs.{first_calendar};
ghost use Rattle.sim_happen_model.specs.HappenOf.{held};
ghost use Rattle.sim_happen_model.specs.Shows.{Shows};
ghost use Rattle.sim_steps_model.specs.Opening.{next_process, next_init, MakesProcess, CanStop, SetsStop};

use sim_happen::Happen;
use sim_types::{Callback, EventId, EventKind, Outcome, ProcId, Until};
use std::alloc::AllocError;

/// The priority of what comes first at a time (SimPy's URGENT).
const URGENT: u8 = 0;

/// Makes so many named events, each of which is held for good. So far event 0 alone is there, which is held.
pub(crate) fn make_named(happen: &mut Happen, named: u64) -> Result<(), AllocError>
    requires few { named ≤ 1024 }
    requires first { Shows happen.old (first_calendar 0) }
    requires held { held happen.old ≡ Some 1 ∷ [] }
    ensures shows { OnOk result (Shows happen.new (first_calendar named)) }
    ensures left { happen.new.left ≡ happen.old.left }
    ensures held { OnOk result (held happen.new ≡ replicate (named + 1) (Some 1)) }
{
    for made in 0..named {
        happen.reserve(1, 0)?;
        let event = happen.make(EventKind::Plain);
        happen.hold(event);
    }
    Ok(())
}

/// Makes the event of a process and its init event, which is urgent, is due now, and resumes the process. The answer is
/// the number of the process, which is that of its event, and the init event.
#[inline(always)]
pub(crate) fn make_process(happen: &mut Happen) -> (ProcId, EventId)
    requires events { 2 ≤ happen.old.spare.events }
    requires callbacks { 1 ≤ happen.old.spare.callbacks }
    requires number { length happen.old.events + 2 ≤ 2 ^ 62 }
    requires time { happen.old.time ≤ℤ pos (2 ^ 62) }
    ensures process { result.0 ≡ next_process happen.old }
    ensures init { result.1 ≡ next_init happen.old }
    ensures made { MakesProcess happen.old happen.new }
{
    let event = happen.make(EventKind::Process);
    let process = ProcId(event.0);
    let init = happen.make(EventKind::Init);
    happen.register(init, Callback::Resume(process));
    match happen.schedule(init, Outcome::Ok(0), URGENT, 0) {
        Ok(()) => {}
        Err(_) => unreachable!(),
    }
    (process, init)
}

/// Makes an urgent event that is due at this time and stops the run. So far it is time 0.
fn stop_at(happen: &mut Happen, time: i64)
    requires events { 1 ≤ happen.old.spare.events }
    requires callbacks { 1 ≤ happen.old.spare.callbacks }
    requires number { length happen.old.events < 2 ^ 62 }
    requires at_start { happen.old.time ≡ pos 0 }
    requires low { pos 0 ≤ℤ time }
    requires high { time ≤ℤ pos (2 ^ 62) }
    ensures { SetsStop (Until.At time) happen.old happen.new }
{
    let stop = happen.make(EventKind::Stop);
    happen.register(stop, Callback::Stop);
    match happen.schedule(stop, Outcome::Ok(0), URGENT, time) {
        Ok(()) => {}
        Err(_) => unreachable!(),
    }
}

/// Sets what is to stop the run. So far it is time 0.
pub(crate) fn set_stop(happen: &mut Happen, until: Until)
    requires events { 1 ≤ happen.old.spare.events }
    requires callbacks { 1 ≤ happen.old.spare.callbacks }
    requires number { length happen.old.events < 2 ^ 62 }
    requires at_start { happen.old.time ≡ pos 0 }
    requires possible { CanStop until happen.old }
    ensures { SetsStop until happen.old happen.new }
{
    match until {
        Until::Never => {}
        Until::At(time) => stop_at(happen, time),
        Until::Event(event) => happen.register(event, Callback::Stop),
    }
}
