//! The answer to a text whose posters post while it runs.
ghost use Rattle.std.specs.Prelude.{OnErr, OnOk};
ghost use Rattle.sim_language.specs.Reads.{reads};
ghost use Rattle.sim_outside.specs.Writes.{IsFlushedOnce, IsUnflushed};
ghost use Rattle.sim_live.specs.LiveAnswers.{AnswersRead};

use crate::caller::write_live;
use sim_batch::Gate;
use sim_code::{ReadError, read};
use sim_command::{Status, status_of_end};
use sim_engine::{EngineFault, refuse};
use sim_inbox::Inbox;
use sim_outside::Sink;
use std::alloc::Global;
use std::sync::Wait;
use std::thread::Threads;

/// Writes the answer to the text and flushes the sink, and says how the call ends.
pub(crate) fn answer<K: Sink, R: Threads + Wait + Sync, G: Gate + Sync, I: Inbox>(
    rt: &R,
    alloc: Global,
    gate: &G,
    inbox: &I,
    limit: u32,
    text: &[u8],
    out: &mut K,
) -> Result<Status, EngineFault>
    ensures answers { AnswersRead (reads text.now) limit
        (K.tells out.old) (K.tells out.new) result }
    ensures flushed { OnOk result (IsFlushedOnce (K.tells out.old) (K.tells out.new)) }
    ensures unflushed { OnErr result (IsUnflushed (K.tells out.old) (K.tells out.new)) }
{
    let status = answer_on(rt, alloc, gate, inbox, limit, text, out)?;
    out.flush()?;
    Ok(status)
}

/// Writes the answer to the text.
fn answer_on<K: Sink, R: Threads + Wait + Sync, G: Gate + Sync, I: Inbox>(
    rt: &R,
    alloc: Global,
    gate: &G,
    inbox: &I,
    limit: u32,
    text: &[u8],
    out: &mut K,
) -> Result<Status, EngineFault>
    ensures answers { AnswersRead (reads text.now) limit
        (K.tells out.old) (K.tells out.new) result }
    ensures unflushed { IsUnflushed (K.tells out.old) (K.tells out.new) }
{
    match read(alloc, text) {
        Ok(scenario) => {
            let end = write_live(rt, alloc, gate, inbox, &scenario, limit, out)?;
            Ok(status_of_end(end))
        }
        Err(ReadError::Fault(fault)) => {
            refuse(&fault, out)?;
            Ok(Status::Refused)
        }
        Err(ReadError::Memory) => Err(EngineFault::Memory),
    }
}
