//! The runs of a batch.
ghost use Rattle.std.specs.Prelude.{◌+◌, ◌%◌, ◌^◌};
ghost use Rattle.sim_outside.specs.Writes.{IsUnflushed, Writes};
ghost use Rattle.sim_script_model.specs.Scenarios.{summary, replications};
ghost use Rattle.sim_trace.specs.SummaryTexts.{batch_answer};
ghost use Rattle.sim_engine.specs.Counting.{IsWithin};
ghost use Rattle.sim_writing.specs.RunFaults.{is_write};

use sim_answer::write_summaries;
use sim_batch::{Gate, Job, batch};
use sim_engine::{EngineFault, replicate};
use sim_outside::Sink;
use sim_scenario::Scenario;
use sim_types::Summary;
use std::alloc::{AllocError, Global};
use std::thread::Threads;

/// Runs of a scenario on its own journal, each of so many units at most. The seed of each is that of the scenario and the
/// index of the run together.
#[derive(Drop)]
struct Replications<'a> {
    scenario: &'a Scenario,
    limit: u32,
}

impl<'a> Job for Replications<'a> {
    ghost answer = { λ job index. summary job.scenario.now
        ((job.scenario.now.seed + index) % 2 ^ 64) job.scenario.now.journal job.limit };

    ghost keeps = { λ job. IsWithin job.limit };

    #[tactic(auto, using(crate::proofs::Arriving::has_ports))]
    fn one(&self, alloc: Global, index: u32) -> Result<Summary, AllocError> {
        let scenario = self.scenario;
        let seed = scenario.seed().wrapping_add(u64::from(index));
        replicate(alloc, scenario, seed, scenario.journal(), self.limit)
    }
}

/// Runs the scenario so many times, each time at most so many units, and writes what each run comes to, and their sums.
pub(crate) fn write_batch<K: Sink, R: Threads + Sync, G: Gate + Sync>(
    rt: &R,
    alloc: Global,
    gate: &G,
    scenario: &Scenario,
    count: u32,
    limit: u32,
    out: &mut K,
) -> Result<(), EngineFault>
    ensures writes { Writes is_write (K.tells out.old) (K.tells out.new) result
        (batch_answer (replications scenario.now limit 0 count)) }
    ensures unflushed { IsUnflushed (K.tells out.old) (K.tells out.new) }
{
    let runs = Replications { scenario, limit };
    let summaries = batch(rt, alloc, &runs, count, gate)?;
    write_summaries(limit, summaries.as_slice(), out)
}
