//! What is measured at each resource over a whole run.
ghost use Rattle.std.specs.Prelude.{◌≡◌, ◌+◌, ◌≤◌, ◌≤ℤ◌, ℕ, length, map, IfOk, OnOk};
ghost use Rattle.sim_types.specs.Limits.{last_time};
ghost use Rattle.sim_types.specs.Setups.{HavePorts};
ghost use Rattle.sim_machine_law.specs.Courses.{Run};
ghost use Rattle.sim_steps_model.specs.Touching.{touched_places};
ghost use Rattle.sim_kernel.specs.Walks.{IsOver};
ghost use Rattle.sim_script_model.specs.Scenarios.{summary, watch_rows};
ghost use Rattle.sim_script_model.specs.Scripts.{Script};
ghost use Rattle.sim_script_law.specs.ScriptMembers.{script_body};
ghost use Rattle.sim_watch.specs.Watched.{row_at};
ghost use Rattle.sim_watch.specs.Following.{AreUpTo, AreWatched, CanBeMeasured, Follows, HasMoved, IsAtLast, IsAtOpening, run_from};

use crate::watched::Watched;
use sim_kernel::{Kernel, Touched, Walk};
use sim_scenario::Scenario;
use sim_script::Script;
use sim_types::{Arrival, End, List, WatchRow};
use std::alloc::{AllocError, Global};

/// What was measured at each resource over one run, and how the run ended.
#[derive(Drop)]
pub struct WatchReport {
    /// By the places of the resources.
    pub rows: List<WatchRow>,
    pub end: End,
    pub time: i64,
    /// How many events were processed.
    pub processed: u64,
}

/// Runs the scenario with the random words of the seed, at most so many units, while the journal's entries arrive, and tells
/// what was measured at each resource.
pub fn watch(
    alloc: Global,
    scenario: &Scenario,
    seed: u64,
    journal: &[Arrival],
    limit: u32,
) -> Result<WatchReport, AllocError>
    requires ports { HavePorts scenario.now.setup journal.now }
    ensures rows { IfOk result (λ report. report.rows
        ≡ watch_rows scenario.now seed journal.now limit) }
    ensures end { IfOk result (λ report. report.end
        ≡ (summary scenario.now seed journal.now limit).end) }
    ensures time { IfOk result (λ report. report.time
        ≡ (summary scenario.now seed journal.now limit).time) }
    ensures processed { IfOk result (λ report. report.processed
        ≡ (summary scenario.now seed journal.now limit).processed) }
{
    let mut walk = Walk::<Script>::new(alloc, scenario, scenario.setup(), seed, journal, limit)?;
    match rows_of(alloc, scenario, &mut walk) {
        Ok(rows) => {
            let (end, time, processed) = walk.finish();
            Ok(WatchReport {
                rows,
                end,
                time,
                processed,
            })
        }
        Err(AllocError) => {
            walk.abandon();
            Err(AllocError)
        }
    }
}

/// Makes all units of a run that was just opened, and tells what was measured at each resource.
fn rows_of(
    alloc: Global,
    scenario: &Scenario,
    walk: &mut Walk<'_, Script>,
) -> Result<List<WatchRow>, AllocError>
    requires opening { IsAtOpening scenario.now walk.old }
    ensures rows { IfOk result (λ rows. rows ≡
        watch_rows scenario.now walk.old.kernel.parts.seed walk.old.left walk.old.limit) }
    ensures last { OnOk result
        (IsAtLast (run_from scenario.now walk.old) walk.old.limit walk.new) }
{
    let mut watched = begin_all(alloc, scenario, walk)?;
    follow(scenario, walk, watched.as_mut_slice())?;
    close_all(alloc, walk.kernel().now(), watched.as_slice())
}

/// Each resource, as it is watched from the opening of the run on.
fn begin_all(
    alloc: Global,
    scenario: &Scenario,
    walk: &Walk<'_, Script>,
) -> Result<Vec<Watched>, AllocError>
    requires opening { IsAtOpening scenario.now walk.now }
    ensures follows { IfOk result (λ watched.
        Follows (run_from scenario.now walk.now) walk.now watched.items) }
{
    let kernel = walk.kernel();
    let mut watched = Vec::new(alloc);
    for res in 0..scenario.setup().resources.len() {
        watched.push(Watched::new(kernel.measure(res as u32)))?;
    }
    Ok(watched)
}

/// Makes all units of the run, and watches the resources that they touch.
fn follow(
    scenario: &Scenario,
    walk: &mut Walk<'_, Script>,
    watched: &mut [Watched],
) -> Result<(), AllocError>
    requires opening { IsAtOpening scenario.now walk.old }
    requires follows { Follows (run_from scenario.now walk.old) walk.old watched.old }
    ensures follows { OnOk result
        (Follows (run_from scenario.now walk.old) walk.new watched.new) }
    ensures over { OnOk result (IsOver script_body walk.new) }
    ensures limit { walk.new.limit ≡ walk.old.limit }
    ensures within { walk.new.kernel.units ≤ walk.new.limit }
{
    while let Some(units) = walk.units(scenario)? {
        change_touched(walk.kernel(), units.touched, watched);
    }
    Ok(())
}

/// The resources that the last units touched are measured.
fn change_touched(kernel: &Kernel<Script>, touched: Touched, watched: &mut [Watched])
    requires can { CanBeMeasured kernel.now }
    requires all { length watched.old ≡ length kernel.now.parts.setup.resources }
    requires up_to { AreUpTo kernel.now.parts.shared.happen.time watched.old }
    ensures watched { (r : Run Script) (k n : ℕ) →
        HasMoved r k n (touched_places touched kernel.now.listed) kernel.now →
        AreWatched r k watched.old → AreWatched r (k + n) watched.new }
    ensures up_to { AreUpTo kernel.now.parts.shared.happen.time watched.new }
{
    match touched {
        Touched::Nothing => {}
        Touched::One(res) => change_each(kernel, &[res], watched),
        Touched::Listed => change_each(kernel, kernel.listed(), watched),
    }
}

/// The resources in these places are measured.
fn change_each(kernel: &Kernel<Script>, places: &[u32], watched: &mut [Watched])
    requires can { CanBeMeasured kernel.now }
    requires all { length watched.old ≡ length kernel.now.parts.setup.resources }
    requires up_to { AreUpTo kernel.now.parts.shared.happen.time watched.old }
    ensures watched { (r : Run Script) (k n : ℕ) → HasMoved r k n places.now kernel.now →
        AreWatched r k watched.old → AreWatched r (k + n) watched.new }
    ensures up_to { AreUpTo kernel.now.parts.shared.happen.time watched.new }
{
    let now = kernel.now();
    for res in places {
        let place = *res as usize;
        if place < watched.len() {
            watched[place].change(now, kernel.measure(*res));
        }
    }
}

/// What is told of each resource, up to now.
fn close_all(alloc: Global, now: i64, watched: &[Watched]) -> Result<List<WatchRow>, AllocError>
    requires up_to { AreUpTo now watched.now }
    requires within { now ≤ℤ last_time }
    ensures rows { IfOk result (λ rows. rows ≡ map (row_at now) watched.now) }
{
    let mut rows = List::new(alloc);
    for one in watched {
        rows.push(one.close(now))?;
    }
    Ok(rows)
}
