//! A run that is watched, and its lines.
ghost use Rattle.std.specs.Prelude.{◌≡◌, ◌^◌, ◌<◌, length};
ghost use Rattle.sim_outside.specs.Writes.{IsUnflushed, Writes};
ghost use Rattle.sim_script_model.specs.Scenarios.{summary, watch_rows};
ghost use Rattle.sim_trace.specs.WatchTexts.{rows_text, watch_end_text, watch_answer};
ghost use Rattle.sim_writing.specs.RunFaults.{is_write};

use sim_engine::EngineFault;
use sim_outside::{Sink, write_all};
use sim_scenario::Scenario;
use sim_trace::{LineBuf, render_row, render_watch_end};
use sim_types::WatchRow;
use sim_watch::{WatchReport, watch};
use std::alloc::Global;

/// Runs the scenario with its own seed on its own journal, at most so many units, and writes what is measured at each resource
/// over the run, and how it ended.
#[tactic(auto, using(crate::proofs::Arriving::has_ports))]
pub(crate) fn write_watch<K: Sink>(
    alloc: Global,
    scenario: &Scenario,
    limit: u32,
    out: &mut K,
) -> Result<(), EngineFault>
    ensures writes { Writes is_write (K.tells out.old) (K.tells out.new) result (watch_answer
        (watch_rows scenario.now scenario.now.seed scenario.now.journal limit)
        (summary scenario.now scenario.now.seed scenario.now.journal limit)) }
    ensures unflushed { IsUnflushed (K.tells out.old) (K.tells out.new) }
{
    let (seed, journal) = (scenario.seed(), scenario.journal());
    let report = watch(alloc, scenario, seed, journal, limit)?;
    write_rows(report.rows.as_slice(), out)?;
    write_end(&report, out)?;
    Ok(())
}

/// Writes a line on each resource.
fn write_rows<K: Sink>(rows: &[WatchRow], out: &mut K) -> Result<(), EngineFault>
    requires few { length rows.now < 2 ^ 32 }
    ensures writes { Writes is_write (K.tells out.old) (K.tells out.new) result
        (rows_text 0 rows.now) }
    ensures unflushed { IsUnflushed (K.tells out.old) (K.tells out.new) }
{
    let mut line = LineBuf::new();
    for (res, row) in rows.iter().enumerate() {
        render_row(res as u32, row, &mut line);
        write_all(out, line.bytes())?;
    }
    Ok(())
}

/// Writes the line on how the run ended.
fn write_end<K: Sink>(report: &WatchReport, out: &mut K) -> Result<(), EngineFault>
    ensures writes { Writes is_write (K.tells out.old) (K.tells out.new) result
        (watch_end_text report.now.end report.now.time report.now.processed) }
    ensures unflushed { IsUnflushed (K.tells out.old) (K.tells out.new) }
{
    let mut line = LineBuf::new();
    render_watch_end(report.end, report.time, report.processed, &mut line);
    write_all(out, line.bytes())?;
    Ok(())
}
