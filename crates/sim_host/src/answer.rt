//! The answer to words that ask for hosted runs.
ghost use Rattle.std.specs.Prelude.{◌≡◌, IfOk, OnOk, OnErr};
ghost use Rattle.sim_language.specs.Reads.{reads};
ghost use Rattle.sim_outside.specs.Writes.{IsFlushedOnce, IsUnflushed, Writes};
ghost use Rattle.sim_script_model.specs.Scenarios.{replications};
ghost use Rattle.sim_trace.specs.SummaryTexts.{batch_answer};
ghost use Rattle.sim_writing.specs.RunFaults.{is_write};
ghost use Rattle.sim_host.specs.HostAnswers.{answer_to, status_to};

use crate::hosting::host;
use sim_answer::write_summaries;
use sim_code::{ReadError, read};
use sim_command::{HostedRuns, Status};
use sim_engine::{EngineFault, refuse};
use sim_outside::Sink;
use sim_scenario::Scenario;
use std::alloc::{AllocGlobal, Global};
use std::random::RandomSource;
use std::sync::Wait;

/// Writes the answer to the text and flushes the sink, and says how the call ends.
pub(crate) fn answer<R: Wait + RandomSource + AllocGlobal, K: Sink>(
    rt: &R,
    alloc: Global,
    runs: HostedRuns,
    text: &[u8],
    out: &mut K,
) -> Result<Status, EngineFault>
    ensures status { IfOk result (λ status. status ≡ status_to (reads text.now)) }
    ensures writes { Writes is_write (K.tells out.old) (K.tells out.new) result
        (answer_to runs (reads text.now)) }
    ensures flushed { OnOk result (IsFlushedOnce (K.tells out.old) (K.tells out.new)) }
    ensures unflushed { OnErr result (IsUnflushed (K.tells out.old) (K.tells out.new)) }
{
    let status = answer_on(rt, alloc, runs, text, out)?;
    out.flush()?;
    Ok(status)
}

/// Writes the answer to the text.
fn answer_on<R: Wait + RandomSource + AllocGlobal, K: Sink>(
    rt: &R,
    alloc: Global,
    runs: HostedRuns,
    text: &[u8],
    out: &mut K,
) -> Result<Status, EngineFault>
    ensures status { IfOk result (λ status. status ≡ status_to (reads text.now)) }
    ensures writes { Writes is_write (K.tells out.old) (K.tells out.new) result
        (answer_to runs (reads text.now)) }
    ensures unflushed { IsUnflushed (K.tells out.old) (K.tells out.new) }
{
    match read(alloc, text) {
        Ok(scenario) => {
            write_runs(rt, &scenario, runs, out)?;
            Ok(Status::Ended)
        }
        Err(ReadError::Fault(fault)) => {
            refuse(&fault, out)?;
            Ok(Status::Refused)
        }
        Err(ReadError::Memory) => Err(EngineFault::Memory),
    }
}

/// Hosts the runs, and writes what each comes to, and their sums.
fn write_runs<R: Wait + RandomSource + AllocGlobal, K: Sink>(
    rt: &R,
    scenario: &Scenario,
    runs: HostedRuns,
    out: &mut K,
) -> Result<(), EngineFault>
    ensures writes { Writes is_write (K.tells out.old) (K.tells out.new) result
        (batch_answer (replications scenario.now runs.limit 0 runs.count)) }
    ensures unflushed { IsUnflushed (K.tells out.old) (K.tells out.new) }
{
    let summaries = host(rt, scenario, runs.count, runs.limit)?;
    write_summaries(runs.limit, summaries.as_slice(), out)
}
