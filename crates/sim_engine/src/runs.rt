//! Whole runs, as loops over a run under way.
ghost use Rattle.std.specs.Prelude.{◌≡◌, [], IfOk, OnOk};
ghost use Rattle.sim_types.specs.declared.line.Line.TheVariants as line;
ghost use Rattle.sim_trace.specs.Texts.{line_text};
ghost use Rattle.sim_types.specs.Setups.{HavePorts};
ghost use Rattle.sim_outside.specs.Writes.{IsUnflushed, Writes};
ghost use Rattle.sim_script_model.specs.Scenarios.{summary};
ghost use Rattle.sim_engine.specs.Counting.{IsWithin};
ghost use Rattle.sim_writing.specs.RunFaults.{is_write};
ghost use Rattle.sim_engine.specs.RunOfScenario.{printed_run, units_of};
ghost use Rattle.sim_engine.specs.Rounds.{StandsInRun, next_of, text_by};
ghost use Rattle.sim_engine.specs.Sessions.{IsSettled, turn_of, report_of};

use crate::report::Report;
use crate::session::{Session, Turn};
use sim_outside::{NullSink, Sink};
use sim_scenario::Scenario;
use sim_types::{Arrival, Summary};
use sim_writing::RunFault as EngineFault;
use std::alloc::{AllocError, Global};

/// Runs the scenario with the random words of the seed, at most so many units, while the journal's entries arrive, and
/// writes the trace.
pub fn run<K: Sink>(
    alloc: Global,
    scenario: &Scenario,
    seed: u64,
    journal: &[Arrival],
    limit: u32,
    out: &mut K,
) -> Result<Report, EngineFault>
    requires ports { HavePorts scenario.now.setup journal.now }
    ensures summary { IfOk result (λ report. report.summary
        ≡ summary scenario.now seed journal.now limit) }
    ensures units { IfOk result (λ report. report.units
        ≡ units_of scenario.now seed journal.now limit) }
    ensures counts { IfOk result (λ report. IsWithin limit report.summary) }
    ensures writes { Writes is_write (K.tells out.old) (K.tells out.new) result
        (printed_run scenario.now seed journal.now limit) }
    ensures unflushed { IsUnflushed (K.tells out.old) (K.tells out.new) }
{
    let mut session = Session::new(alloc, scenario, seed, limit)?;
    let made = make_units(scenario, journal, &mut session, out);
    let report = session.close();
    made?;
    write_end(&report.summary, out)?;
    Ok(report)
}

/// What comes next in a run.
#[derive(Clone, Copy)]
pub enum Next {
    /// A turn.
    Turn,
    /// This arrival.
    Arrival(Arrival),
    /// Nothing: it has ended, or all its units are spent.
    End,
}

/// Makes all units of a run that was just opened, and writes their lines.
fn make_units<K: Sink>(
    scenario: &Scenario,
    journal: &[Arrival],
    session: &mut Session,
    out: &mut K,
) -> Result<(), EngineFault>
    requires ports { HavePorts scenario.now.setup journal.now }
    requires stands { StandsInRun scenario.now session.old.parts.seed journal.now journal.now
        session.old }
    requires units { session.old.units ≡ 0 }
    requires settled { IsSettled session.old }
    ensures summary { OnOk result ((report_of session.new).summary
        ≡ summary scenario.now session.old.parts.seed journal.now session.old.limit) }
    ensures units { OnOk result (session.new.units
        ≡ units_of scenario.now session.old.parts.seed journal.now session.old.limit) }
    ensures writes { Writes is_write (K.tells out.old) (K.tells out.new) result
        (text_by scenario.now session.old.parts.seed journal.now session.old.limit) }
    ensures limit { session.new.limit ≡ session.old.limit }
    ensures unflushed { IsUnflushed (K.tells out.old) (K.tells out.new) }
{
    let mut left = journal;
    loop {
        match next_of(session, left) {
            Next::Turn => {
                let _state = session.turn(scenario, out)?;
            }
            Next::Arrival(arrival) => {
                if session.arrive(scenario, arrival.port, arrival.value, out)? {
                    left = &left[1..];
                }
            }
            Next::End => return Ok(()),
        }
    }
}

/// What comes next in a run that stands here, where this of its journal is left. An entry arrives where nothing is being
/// done, and as many events were processed as it says or none is due.
pub fn next_of(session: &Session, left: &[Arrival]) -> Next
    ensures { result ≡ next_of (turn_of session.now) session.now.parts.processed left.now }
{
    match (session.state(), left.first()) {
        (Turn::Over(_), _) | (Turn::Empty, None) => Next::End,
        (Turn::Empty, Some(arrival)) => Next::Arrival(*arrival),
        (Turn::Idle, Some(arrival)) if arrival.after <= session.processed() => {
            Next::Arrival(*arrival)
        }
        (Turn::Idle, _) => Next::Turn,
    }
}

/// Writes the line on the end of a run that came to this.
pub fn write_end<K: Sink>(summary: &Summary, out: &mut K) -> Result<(), EngineFault>
    ensures writes { Writes is_write (K.tells out.old) (K.tells out.new) result
        (line_text [] (line.Finish summary.now.time summary.now.processed summary.now.end)) }
    ensures unflushed { IsUnflushed (K.tells out.old) (K.tells out.new) }
{
    sim_writing::write_end(summary.end, summary.time, summary.processed, out)
}

/// What the same run comes to. Nothing is written.
pub fn replicate(
    alloc: Global,
    scenario: &Scenario,
    seed: u64,
    journal: &[Arrival],
    limit: u32,
) -> Result<Summary, AllocError>
    requires ports { HavePorts scenario.now.setup journal.now }
    ensures summary { IfOk result (λ s. s ≡ summary scenario.now seed journal.now limit) }
    ensures counts { IfOk result (IsWithin limit) }
{
    match run(alloc, scenario, seed, journal, limit, &mut NullSink::new()) {
        Ok(report) => Ok(report.summary),
        Err(_) => Err(AllocError),
    }
}
