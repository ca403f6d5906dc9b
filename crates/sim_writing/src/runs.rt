//! Whole runs.
ghost use Rattle.std.specs.Prelude.{◌≡◌, [], OnOk};
ghost use Rattle.sim_outside.specs.Writes.{IsUnflushed, Writes};
ghost use Rattle.sim_trace.specs.Texts.{AreNamesShort, line_text, trace_text};
ghost use Rattle.sim_types.specs.declared.line.Line.TheVariants as line;
ghost use Rattle.sim_steps_model.specs.PartsOf.{IsOpenedAs, plan_of};
ghost use Rattle.sim_steps_model.specs.StandsFor.{lines_of};
ghost use Rattle.sim_kernel.specs.Walks.{IsOver};
ghost use Rattle.sim_writing.specs.RunFaults.{is_write};
ghost use Rattle.sim_writing.specs.WrittenRuns.{HasWritten, IsAtOpening, WritesRun};

use crate::fault::RunFault;
use crate::lines::write_line;
use sim_kernel::{Unit, Walk};
use sim_outside::Sink;
use sim_procs::Body;
use sim_trace::LineBuf;
use sim_types::{End, Line, Name};

/// Makes all units of a run that was just opened, writes the line of each and one on its end, and tells how it ended.
pub fn write_run<B: Body, K: Sink>(
    code: &B::Code,
    walk: Walk<'_, B>,
    ports: &[Name],
    out: &mut K,
) -> Result<End, RunFault>
    requires code { code.now ≡ walk.kernel.parts.code }
    requires opening { IsAtOpening B.body walk }
    requires names { AreNamesShort ports.now }
    ensures writes { WritesRun (plan_of B.body walk.entry.kernel.parts) (B.body.turn code.now)
        walk.entry.left walk.entry.limit ports.now (K.tells out.old) (K.tells out.new) result }
    ensures unflushed { IsUnflushed (K.tells out.old) (K.tells out.new) }
{
    let mut walk = walk;
    match write_units(code, &mut walk, ports, out) {
        Ok(()) => {
            let (end, time, processed) = walk.finish();
            write_end(end, time, processed, out)?;
            Ok(end)
        }
        Err(fault) => {
            walk.abandon();
            Err(fault)
        }
    }
}

/// Makes all units of a run that was just opened, and writes the line of each.
fn write_units<B: Body, K: Sink>(
    code: &B::Code,
    walk: &mut Walk<'_, B>,
    ports: &[Name],
    out: &mut K,
) -> Result<(), RunFault>
    requires code { code.now ≡ walk.old.kernel.parts.code }
    requires opening { IsAtOpening B.body walk.old }
    requires names { AreNamesShort ports.now }
    ensures writes { HasWritten B.body ports.now (K.tells out.old) (K.tells out.new) result
        walk.old walk.new }
    ensures over { OnOk result (IsOver B.body walk.new) }
    ensures opened { IsOpenedAs walk.old.kernel.parts walk.new.kernel.parts }
    ensures limit { walk.new.limit ≡ walk.old.limit }
    ensures unflushed { IsUnflushed (K.tells out.old) (K.tells out.new) }
{
    let mut buffer = LineBuf::new();
    while let Some(units) = walk.units(code)? {
        write_last(&units.last, ports, &mut buffer, out)?;
    }
    Ok(())
}

/// Writes the line of a unit that has one.
fn write_last<K: Sink>(
    unit: &Unit,
    ports: &[Name],
    buffer: &mut LineBuf,
    out: &mut K,
) -> Result<(), RunFault>
    requires names { AreNamesShort ports.now }
    ensures writes { Writes is_write (K.tells out.old) (K.tells out.new) result
        (trace_text ports.now (lines_of unit.now)) }
    ensures unflushed { IsUnflushed (K.tells out.old) (K.tells out.new) }
{
    match unit {
        Unit::Quiet => {}
        Unit::Line(line) => write_line(line, ports, buffer, out)?,
    }
    Ok(())
}

/// Writes the line on the end of a run that ended so.
pub fn write_end<K: Sink>(end: End, time: i64, processed: u64, out: &mut K) -> Result<(), RunFault>
    ensures writes { Writes is_write (K.tells out.old) (K.tells out.new) result
        (line_text [] (Line.Finish time processed end)) }
    ensures unflushed { IsUnflushed (K.tells out.old) (K.tells out.new) }
{
    let line = Line::Finish {
        end,
        time,
        processed,
    };
    write_line(&line, &[], &mut LineBuf::new(), out)?;
    Ok(())
}
