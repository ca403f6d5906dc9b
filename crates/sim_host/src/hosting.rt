//! The replications of a scenario, hosted on one thread.
ghost use Rattle.std.specs.Prelude.{◌≡◌, ◌+◌, ◌%◌, ◌^◌, All, IfOk, IfSome, length};
ghost use Rattle.sim_script_model.specs.Scenarios.{replications};
ghost use Rattle.sim_engine.specs.Counting.{IsWithin};
ghost use Rattle.sim_host.specs.Hosting.{IsHosted};
ghost use Rattle.sim_host.specs.HostedTogether.{AreOpened, AreTold};

use crate::all::HostAll;
use crate::hosted::Hosted;
use futures::executor::block_on;
use sim_engine::replicate;
use sim_scenario::Scenario;
use sim_types::{List, Summary};
use std::alloc::{AllocError, AllocGlobal, Global};
use std::random::RandomSource;
use std::sync::Wait;

/// Makes so many replications of the scenario, each of so many units at most, as futures on this thread. All of them are in
/// memory at once.
pub fn host<R: Wait + RandomSource + AllocGlobal>(
    rt: &R,
    scenario: &Scenario,
    count: u32,
    limit: u32,
) -> Result<List<Summary>, AllocError>
    ensures summaries { IfOk result (λ list. list ≡ replications scenario.now limit 0 count) }
    ensures counts { IfOk result (All (IsWithin limit)) }
{
    let mut runs = open_all(rt.alloc(), scenario, count, limit)?;
    let told = wait_for_all(rt, scenario, runs.as_mut_slice());
    close_all(runs);
    match told? {
        Some(summaries) => Ok(summaries),
        None => replicate_all(rt.alloc(), scenario, count, limit),
    }
}

/// Opens so many replications, each of so many units at most. `close_all` spends them, at any moment.
pub fn open_all(
    alloc: Global,
    scenario: &Scenario,
    count: u32,
    limit: u32,
) -> Result<Vec<Hosted>, AllocError>
    ensures { IfOk result (λ runs. AreOpened scenario.now limit count runs.items) }
{
    let mut runs = Vec::with_capacity(alloc, count as usize)?;
    for index in 0..count {
        match Hosted::new(alloc, scenario, seed_of(scenario, index), limit) {
            Ok(run) => runs.push_reserved(run),
            Err(refused) => {
                close_all(runs);
                return Err(refused);
            }
        }
    }
    Ok(runs)
}

/// Polls the runs until all of them are over. None where the executor gives no answer.
fn wait_for_all<R: Wait + RandomSource + AllocGlobal>(
    rt: &R,
    scenario: &Scenario,
    runs: &mut [Hosted],
) -> Result<Option<List<Summary>>, AllocError>
    requires { All (IsHosted scenario.now) runs.old }
    ensures { IfOk result (λ told. IfSome told (AreTold scenario.now runs.old)) }
{
    let all = HostAll::new(rt.alloc(), runs, scenario)?;
    match block_on(rt, all) {
        Ok(told) => Ok(Some(told?)),
        Err(_) => Ok(None),
    }
}

/// Spends all runs, whether they are over or not.
pub fn close_all(mut runs: Vec<Hosted>) {
    while let Some(run) = runs.pop() {
        run.close();
    }
    runs.destroy_empty();
}

/// Makes so many replications, one after another.
pub(crate) fn replicate_all(
    alloc: Global,
    scenario: &Scenario,
    count: u32,
    limit: u32,
) -> Result<List<Summary>, AllocError>
    ensures summaries { IfOk result (λ list. list ≡ replications scenario.now limit 0 count) }
    ensures counts { IfOk result (All (IsWithin limit)) }
{
    let mut summaries = List::new(alloc);
    for index in 0..count {
        let seed = seed_of(scenario, index);
        let summary = replicate(alloc, scenario, seed, scenario.journal(), limit)?;
        summaries.push(summary)?;
    }
    Ok(summaries)
}

/// The seed of the replication of this index.
fn seed_of(scenario: &Scenario, index: u32) -> u64
    ensures { result ≡ (scenario.now.seed + index) % 2 ^ 64 }
{
    scenario.seed().wrapping_add(u64::from(index))
}
