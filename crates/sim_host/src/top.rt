//! The top call for hosted runs.
ghost use Rattle.std.specs.Prelude.{◌≡◌, None, IsTrue, IfSome};
ghost use Rattle.sim_code.specs.TakenTexts.{ReadsWhole};
ghost use Rattle.sim_command.specs.Commands.{hosted_runs};
ghost use Rattle.sim_command.specs.Endings.{is_whole};
ghost use Rattle.sim_answer.specs.Answers.{AnswersWhole, AnswersPrefix};
ghost use Rattle.sim_answer.specs.Ends.{EndsWell};
ghost use Rattle.sim_host.specs.HostAnswers.{IsAnswer, MayWrite};

use crate::answer::answer;
use sim_command::{Status, Word, hosted_runs};
use sim_engine::EngineFault;
use sim_outside::{Sink, Source, TakeFault, take_all};
use sim_types::MOST_BYTES;
use std::alloc::AllocGlobal;
use std::random::RandomSource;
use std::sync::Wait;

/// Reads a text from the source, makes runs of it as futures on this thread, each with a seed of its own, and writes what each
/// comes to and their sums. The answer says how it ended. The runs are polled by an executor that may wait: that the call
/// returns is not promised, nor in which order the runs are polled.
#[tactic(auto, using(crate::proofs::HostedAnswers::answers, sim_answer::proofs::Ending::endings))]
pub fn host_desk<R: Wait + RandomSource + AllocGlobal, S: Source, K: Sink>(
    rt: &R,
    words: &[Word],
    source: &mut S,
    out: &mut K,
) -> Status
    // What is printed is the answer to the words on the text, and the status is that of it: what so many runs of the scenario
    // come to, each with a seed of its own, and their sums. Throughout each run no capacity is exceeded, levels are openings
    // plus puts minus gets, and no process that has ended is resumed or waits for a request.
    ensures headline { IfSome (hosted_runs words.now) (λ runs. IsTrue (is_whole result)
        → AnswersWhole (IsAnswer runs) (S.left source.old)
        (K.tells out.old) (K.tells out.new) result) }

    // Whatever the status, what was written is a prefix of that.
    ensures prefix { IfSome (hosted_runs words.now) (λ runs.
        AnswersPrefix (MayWrite runs) (S.left source.old) (K.tells out.old) (K.tells out.new)) }

    // The status tells which device failed, if one did, and whether all was written and the sink flushed. It is that of usage
    // exactly where the words ask for no hosted runs, and then nothing is read or written.
    ensures ends { EndsWell S.faults K.tells (hosted_runs words.now ≡ None)
        source.old source.new out.old out.new result }

    // After a whole answer the source was read to its end, or one byte more than a text may have was taken.
    ensures read_whole { IsTrue (is_whole result)
        → ReadsWhole (S.left source.old) (S.left source.new) }
{
    let Some(runs) = hosted_runs(words) else {
        return Status::Usage;
    };
    let alloc = rt.alloc();
    let text = match take_all(alloc, source, MOST_BYTES) {
        Ok(text) => text,
        Err(TakeFault::Read) => return Status::ReadFault,
        Err(TakeFault::Memory) => return Status::Memory,
    };
    match answer(rt, alloc, runs, text.as_slice(), out) {
        Ok(status) => status,
        Err(EngineFault::Write) => Status::WriteFault,
        Err(EngineFault::Memory) => Status::Memory,
    }
}
