//! The top call of a live run.
ghost use Rattle.std.specs.Prelude.{◌≡◌, None, IsTrue, IfSome};
ghost use Rattle.sim_code.specs.TakenTexts.{ReadsWhole};
ghost use Rattle.sim_command.specs.Commands.{live_limit};
ghost use Rattle.sim_command.specs.Endings.{is_whole};
ghost use Rattle.sim_answer.specs.Answers.{AnswersWhole, AnswersPrefix};
ghost use Rattle.sim_answer.specs.Ends.{EndsWell};
ghost use Rattle.sim_live.specs.LiveAnswers.{IsAnswer, MayWrite};

use crate::answer::answer;
use sim_batch::Gate;
use sim_command::{Status, Word, live_limit};
use sim_engine::EngineFault;
use sim_inbox::Inbox;
use sim_outside::{Sink, Source, TakeFault, take_all};
use sim_types::MOST_BYTES;
use std::alloc::Global;
use std::sync::Wait;
use std::thread::Threads;

/// Reads a text from the source, and lets it run while its posters post, each from a thread of its own. What they post goes
/// through the inbox that is given, and each passes the gate by its number before its first post. The trace is written while
/// it runs, and the sink is told to pass it on where nothing is due; behind it comes the journal of what was posted. The answer
/// says how the run ended. It waits for the posters: that it returns is not promised, nor which of them comes first.
#[tactic(auto, using(sim_answer::proofs::Ending::endings))]
pub fn live_desk<S: Source, K: Sink, R: Threads + Wait + Sync, G: Gate + Sync, I: Inbox>(
    rt: &R,
    alloc: Global,
    gate: &G,
    inbox: &I,
    words: &[Word],
    source: &mut S,
    out: &mut K,
) -> Status
    // However the threads run, what is printed is the trace of the machine on the journal that is printed behind it, and
    // that has each post of each poster once, in the poster's order; the status is that of this run. Throughout it no
    // capacity is exceeded, levels are openings plus puts minus gets, and no process that has ended is resumed or waits for
    // a request.
    ensures headline { IfSome (live_limit words.now) (λ limit. IsTrue (is_whole result)
        → AnswersWhole (IsAnswer limit) (S.left source.old)
        (K.tells out.old) (K.tells out.new) result) }

    // Whatever the status, what was written is a prefix of that, for a journal that has of each poster a front of its posts.
    ensures prefix { IfSome (live_limit words.now) (λ limit.
        AnswersPrefix (MayWrite limit) (S.left source.old) (K.tells out.old) (K.tells out.new)) }

    // The status tells which device failed, if one did, and whether all was written and the sink flushed. It is that of usage
    // exactly where the words ask for no live run, and then nothing is read or written.
    ensures ends { EndsWell S.faults K.tells (live_limit words.now ≡ None)
        source.old source.new out.old out.new result }

    // After a whole answer the source was read to its end, or one byte more than a text may have was taken.
    ensures read_whole { IsTrue (is_whole result)
        → ReadsWhole (S.left source.old) (S.left source.new) }
{
    let Some(limit) = live_limit(words) else {
        return Status::Usage;
    };
    let text = match take_all(alloc, source, MOST_BYTES) {
        Ok(text) => text,
        Err(TakeFault::Read) => return Status::ReadFault,
        Err(TakeFault::Memory) => return Status::Memory,
    };
    match answer(rt, alloc, gate, inbox, limit, text.as_slice(), out) {
        Ok(status) => status,
        Err(EngineFault::Write) => Status::WriteFault,
        Err(EngineFault::Memory) => Status::Memory,
    }
}
