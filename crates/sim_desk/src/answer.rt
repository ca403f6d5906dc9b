//! The answer to a command on a text.
ghost use Rattle.std.specs.Prelude.{◌≡◌, ℕ, Ok, Some, true, IfOk, OnOk, OnErr};
ghost use Rattle.sim_command.specs.declared.commands.Command.TheVariants.{Verify};
ghost use Rattle.sim_outside.specs.Writes.{IsUnflushed, IsFlushedOnce, Writes};
ghost use Rattle.sim_command.specs.Commands.{most_units};
ghost use Rattle.sim_models.specs.Models.{scenario_of};
ghost use Rattle.sim_script_model.specs.Scenarios.{summary};
ghost use Rattle.sim_trace.specs.SummaryTexts.{load_text};
ghost use Rattle.sim_writing.specs.RunFaults.{is_write};
ghost use Rattle.sim_engine.specs.RunOfScenario.{end_of_scenario, printed_trace};
ghost use Rattle.sim_verify.specs.Givens.{GivesScenario};
ghost use Rattle.sim_verify.specs.TraceLines.{fed_lines, trace_lines};
ghost use Rattle.sim_verify.specs.Verdicts.{verdict};
ghost use Rattle.sim_verify.specs.VerdictTexts.{verdict_text};
ghost use Rattle.sim_desk.specs.Headline.{answer_of, answer_on, answer_to, said_to, status_of, status_to};

use crate::replications::write_batch;
use crate::watching::write_watch;
use sim_batch::Gate;
use sim_code::{ReadError, read};
use sim_command::{Command, Status, most_units, status_of_end};
use sim_engine::{EngineFault, refuse, replicate, run};
use sim_models::Model;
use sim_native::native_run;
use sim_outside::{Sink, write_all};
use sim_scenario::Scenario;
use sim_shop::shop_text;
use sim_trace::{LineBuf, render_load};
use sim_types::End;
use sim_verify::{Given, read_with_trace, verify, write_verdict};
use std::alloc::Global;
use std::thread::Threads;

/// Writes the answer to the command on a text and flushes the sink, and says how the call ends. For `load` the text is that of
/// the machine shop, for `native` that of the model, and none is read.
pub(crate) fn answer<K: Sink, R: Threads + Sync, G: Gate + Sync>(
    rt: &R,
    alloc: Global,
    gate: &G,
    asked: Command,
    text: &[u8],
    out: &mut K,
) -> Result<Status, EngineFault>
    ensures status { IfOk result (λ status. status ≡ status_of asked text.now) }
    ensures writes { Writes is_write (K.tells out.old) (K.tells out.new) result
        (answer_of asked text.now) }
    ensures flushed { OnOk result (IsFlushedOnce (K.tells out.old) (K.tells out.new)) }
    ensures unflushed { OnErr result (IsUnflushed (K.tells out.old) (K.tells out.new)) }
{
    let status = answer_for(rt, alloc, gate, asked, text, out)?;
    out.flush()?;
    Ok(status)
}

/// Writes the answer to the command on its text.
fn answer_for<K: Sink, R: Threads + Sync, G: Gate + Sync>(
    rt: &R,
    alloc: Global,
    gate: &G,
    asked: Command,
    text: &[u8],
    out: &mut K,
) -> Result<Status, EngineFault>
    ensures status { IfOk result (λ status. status ≡ status_of asked text.now) }
    ensures writes { Writes is_write (K.tells out.old) (K.tells out.new) result
        (answer_of asked text.now) }
    ensures unflushed { IsUnflushed (K.tells out.old) (K.tells out.new) }
{
    match asked {
        Command::Load(size) => {
            let shop = shop_text(alloc, size)?;
            answer_on(rt, alloc, gate, asked, shop.as_slice(), out)
        }
        Command::Native(model, limit) => {
            let end = write_native(alloc, model, limit, out)?;
            Ok(status_of_end(end))
        }
        Command::Check
        | Command::Run(_)
        | Command::Batch { .. }
        | Command::Watch(_)
        | Command::Verify(_) => answer_on(rt, alloc, gate, asked, text, out),
    }
}

/// Writes what a text says to the command.
fn answer_on<K: Sink, R: Threads + Sync, G: Gate + Sync>(
    rt: &R,
    alloc: Global,
    gate: &G,
    asked: Command,
    text: &[u8],
    out: &mut K,
) -> Result<Status, EngineFault>
    ensures status { IfOk result (λ status. status ≡ status_to asked (said_to asked text.now)) }
    ensures writes { Writes is_write (K.tells out.old) (K.tells out.new) result
        (answer_on asked text.now) }
    ensures unflushed { IsUnflushed (K.tells out.old) (K.tells out.new) }
{
    match read_for(alloc, asked, text) {
        Ok(given) => carry_out(rt, alloc, gate, asked, &given, out),
        Err(ReadError::Fault(fault)) => {
            refuse(&fault, out)?;
            Ok(Status::Refused)
        }
        Err(ReadError::Memory) => Err(EngineFault::Memory),
    }
}

/// Reads the text as the command wants it: for `verify` there is a trace after the scenario, and for all others none.
fn read_for(alloc: Global, asked: Command, text: &[u8]) -> Result<Given<'_>, ReadError>
    ensures gives { GivesScenario result (said_to asked text.now) }
    ensures trace { (limit : ℕ) → asked ≡ Verify limit → IfOk result (λ given.
        trace_lines (fed_lines text.now) ≡ Some (fed_lines given.trace.now)) }
{
    if let Command::Verify(_) = asked {
        return read_with_trace(alloc, text);
    }
    Ok(Given {
        scenario: read(alloc, text)?,
        trace: &[],
    })
}

/// Carries out the command on a scenario, and says how the call ends.
fn carry_out<K: Sink, R: Threads + Sync, G: Gate + Sync>(
    rt: &R,
    alloc: Global,
    gate: &G,
    asked: Command,
    given: &Given<'_>,
    out: &mut K,
) -> Result<Status, EngineFault>
    ensures status { IfOk result (λ status. status ≡ status_to asked (Ok given.now.scenario)) }
    ensures writes { Writes is_write (K.tells out.old) (K.tells out.new) result
        (answer_to asked (fed_lines given.now.trace.now) (Ok given.now.scenario)) }
    ensures unflushed { IsUnflushed (K.tells out.old) (K.tells out.new) }
{
    let scenario = &given.scenario;
    match asked {
        Command::Check => write_all(out, b"ok\n")?,
        Command::Run(limit) | Command::Native(_, limit) => {
            let end = write_run(alloc, scenario, limit, out)?;
            return Ok(status_of_end(end));
        }
        Command::Batch { count, limit } => write_batch(
            rt, alloc, gate, scenario, count, limit, out,
        )?,
        Command::Watch(limit) => write_watch(alloc, scenario, limit, out)?,
        Command::Verify(limit) => write_verified(alloc, given, limit, out)?,
        Command::Load(size) => write_load(alloc, scenario, size, out)?,
    }
    Ok(Status::Ended)
}

/// Runs the scenario with its own seed on its own journal, at most so many units, and writes the trace. The answer is how the
/// run ended.
#[tactic(auto, using(crate::proofs::Arriving::has_ports))]
fn write_run<K: Sink>(
    alloc: Global,
    scenario: &Scenario,
    limit: u32,
    out: &mut K,
) -> Result<End, EngineFault>
    ensures end { IfOk result (λ end. end ≡ end_of_scenario scenario.now limit) }
    ensures writes { Writes is_write (K.tells out.old) (K.tells out.new) result
        (printed_trace scenario.now limit) }
    ensures unflushed { IsUnflushed (K.tells out.old) (K.tells out.new) }
{
    let (seed, journal) = (scenario.seed(), scenario.journal());
    let report = run(alloc, scenario, seed, journal, limit, out)?;
    Ok(report.summary.end)
}

/// Writes whether the trace is that of the scenario, with its own seed on its own journal, at most so many units.
#[tactic(auto, using(crate::proofs::Arriving::has_ports))]
fn write_verified<K: Sink>(
    alloc: Global,
    given: &Given<'_>,
    limit: u32,
    out: &mut K,
) -> Result<(), EngineFault>
    ensures writes { Writes is_write (K.tells out.old) (K.tells out.new) result
        (verdict_text (verdict given.now.scenario given.now.scenario.seed
        given.now.scenario.journal limit (fed_lines given.now.trace.now))) }
    ensures unflushed { IsUnflushed (K.tells out.old) (K.tells out.new) }
{
    let scenario = &given.scenario;
    let (seed, journal) = (scenario.seed(), scenario.journal());
    let verdict = verify(alloc, scenario, seed, journal, limit, given.trace)?;
    write_verdict(verdict, out)?;
    Ok(())
}

/// Runs a model by its processes written by hand, with the seed of its text, at most so many units, and writes the trace. The
/// answer is how the run ended.
fn write_native<K: Sink>(
    alloc: Global,
    model: Model,
    limit: u32,
    out: &mut K,
) -> Result<End, EngineFault>
    ensures end { IfOk result (λ end. end ≡ end_of_scenario (scenario_of model) limit) }
    ensures writes { Writes is_write (K.tells out.old) (K.tells out.new) result
        (printed_trace (scenario_of model) limit) }
    ensures unflushed { IsUnflushed (K.tells out.old) (K.tells out.new) }
{
    native_run(alloc, model, model.seed(), &[], limit, out)
}

/// Writes what the run of a machine shop of this size comes to, which the scenario says.
#[tactic(auto, using(crate::proofs::Arriving::has_ports))]
fn write_load<K: Sink>(
    alloc: Global,
    scenario: &Scenario,
    size: u32,
    out: &mut K,
) -> Result<(), EngineFault>
    ensures writes { Writes is_write (K.tells out.old) (K.tells out.new) result
        (load_text size (summary scenario.now scenario.now.seed scenario.now.journal most_units)) }
    ensures unflushed { IsUnflushed (K.tells out.old) (K.tells out.new) }
{
    let (seed, journal) = (scenario.seed(), scenario.journal());
    let summary = replicate(alloc, scenario, seed, journal, most_units())?;
    let mut line = LineBuf::new();
    render_load(size, &summary, &mut line);
    write_all(out, line.bytes())?;
    Ok(())
}
