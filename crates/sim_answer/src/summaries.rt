//! The lines on runs of a scenario, and on all of them.
ghost use Rattle.std.specs.Prelude.{◌≡◌, ◌^◌, ◌<◌, All, length};
ghost use Rattle.sim_outside.specs.Writes.{IsUnflushed, Writes};
ghost use Rattle.sim_trace.specs.SummaryTexts.{replications_text, batch_text, all_logs, all_total, batch_answer};
ghost use Rattle.sim_engine.specs.Counting.{IsWithin};
ghost use Rattle.sim_writing.specs.RunFaults.{is_write};

use crate::sums::sums_of;
use sim_engine::EngineFault;
use sim_outside::{Sink, write_all};
use sim_trace::{LineBuf, render_batch, render_summary};
use sim_types::Summary;

/// Writes what each run comes to, by its place, and their sums. Each made so many units at most.
pub fn write_summaries<K: Sink>(
    limit: u32,
    summaries: &[Summary],
    out: &mut K,
) -> Result<(), EngineFault>
    requires few { length summaries.now < 2 ^ 32 }
    requires within { All (IsWithin limit) summaries.now }
    ensures writes { Writes is_write (K.tells out.old) (K.tells out.new) result
        (batch_answer summaries.now) }
    ensures unflushed { IsUnflushed (K.tells out.old) (K.tells out.new) }
{
    write_each(summaries, out)?;
    write_sums(limit, summaries, out)?;
    Ok(())
}

/// Writes a line on each run.
fn write_each<K: Sink>(summaries: &[Summary], out: &mut K) -> Result<(), EngineFault>
    requires few { length summaries.now < 2 ^ 32 }
    ensures writes { Writes is_write (K.tells out.old) (K.tells out.new) result
        (replications_text 0 summaries.now) }
    ensures unflushed { IsUnflushed (K.tells out.old) (K.tells out.new) }
{
    let mut line = LineBuf::new();
    for (index, summary) in summaries.iter().enumerate() {
        render_summary(index as u32, summary, &mut line);
        write_all(out, line.bytes())?;
    }
    Ok(())
}

/// Writes the line on all runs, each of which made so many units at most.
fn write_sums<K: Sink>(limit: u32, summaries: &[Summary], out: &mut K) -> Result<(), EngineFault>
    requires few { length summaries.now < 2 ^ 32 }
    requires within { All (IsWithin limit) summaries.now }
    ensures writes { Writes is_write (K.tells out.old) (K.tells out.new) result
        (batch_text (length summaries.now) (all_logs summaries.now) (all_total summaries.now)) }
    ensures unflushed { IsUnflushed (K.tells out.old) (K.tells out.new) }
{
    let sums = sums_of(limit, summaries);
    let mut line = LineBuf::new();
    render_batch(summaries.len() as u32, sums.logs, sums.total, &mut line);
    write_all(out, line.bytes())?;
    Ok(())
}
