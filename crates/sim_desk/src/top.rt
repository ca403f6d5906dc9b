//! The top call.
ghost use Rattle.std.specs.Prelude.{◌≡◌, ◌≢◌, ℕ, None, Some, true, false, IsTrue, IfSome};
ghost use Rattle.sim_models.specs.declared.texts.Model.{Model};
ghost use Rattle.sim_code.specs.TakenTexts.{ReadsWhole};
ghost use Rattle.sim_command.specs.declared.commands.Command.TheVariants.{Load, Native};
ghost use Rattle.sim_command.specs.Commands.{command, is_on_text};
ghost use Rattle.sim_command.specs.Endings.{is_whole};
ghost use Rattle.sim_answer.specs.Answers.{AnswersWhole, AnswersPrefix};
ghost use Rattle.sim_answer.specs.Ends.{EndsWell};
ghost use Rattle.sim_desk.specs.Answers.{IsAnswer, MayWrite};

use crate::answer::answer;
use sim_batch::Gate;
use sim_command::{Command, Status, Word, command};
use sim_engine::EngineFault;
use sim_outside::{Sink, Source, TakeFault, take_all};
use sim_types::{List, MOST_BYTES};
use std::alloc::Global;
use std::thread::Threads;

/// Carries out the command that the words say: reads from the source, if the command is on a text, and writes to the sink.
/// The answer says how it ended. Each line is written as it is made: `Gathering` makes few writes of many lines. The first
/// argument lends threads to the runs of a batch; each of these passes the gate once, by its index.
#[tactic(auto, using(crate::proofs::Telling::answers, sim_answer::proofs::Ending::endings))]
pub fn desk<S: Source, K: Sink, R: Threads + Sync, G: Gate + Sync>(
    rt: &R,
    alloc: Global,
    gate: &G,
    words: &[Word],
    source: &mut S,
    out: &mut K,
) -> Status
    // What is printed is the answer to the command on the text, and the status is that of it: for `run LIMIT` the trace of
    // the machine on the scenario that the text says, for `batch COUNT LIMIT` what so many runs of it come to, each with a
    // seed of its own, and their sums, for `watch LIMIT` what is measured at each resource over its run, and how that ends,
    // for `verify LIMIT` whether the trace after the scenario is that of its run, and else the first line that differs, for
    // `check` that it says one, and else its first fault; for `load SIZE` what the run of the machine shop of this size
    // comes to; for `native MODEL LIMIT` the trace of the machine on what the model's text says. Throughout a run, and
    // throughout that of the shop or of a model, no capacity is exceeded, levels are openings plus puts minus gets, and no
    // process that has ended is resumed or waits for a request.
    ensures headline { IfSome (command words.now) (λ asked. IsTrue (is_whole result)
        → AnswersWhole (IsAnswer asked) (S.left source.old)
        (K.tells out.old) (K.tells out.new) result) }

    // Whatever the status, what was written is a prefix of that.
    ensures prefix { IfSome (command words.now) (λ asked.
        AnswersPrefix (MayWrite asked) (S.left source.old) (K.tells out.old) (K.tells out.new)) }

    // The status tells which device failed, if one did, and whether all was written and the sink flushed. It is that of usage
    // exactly where the words are no command, and then nothing is read or written.
    ensures ends { EndsWell S.faults K.tells (command words.now ≡ None)
        source.old source.new out.old out.new result }

    // For a command that is not on a text nothing is read or refused, and the run of a shop is not stopped.
    ensures unread { IfSome (command words.now) (λ asked. is_on_text asked ≡ false
        → source.new ≡ source.old) }
    ensures unread_well { IfSome (command words.now) (λ asked. is_on_text asked ≡ false
        → result ≢ Status.ReadFault) }
    ensures load_ends { (size : ℕ) → command words.now ≡ Some (Load size)
        → IsTrue (is_whole result) → result ≡ Status.Ended }
    ensures native_accepted { (model : Model) (limit : ℕ)
        → command words.now ≡ Some (Native model limit) → result ≢ Status.Refused }

    // After a whole answer to a command on a text the source was read to its end, or one byte more than a text may have was
    // taken.
    ensures read_whole { IfSome (command words.now) (λ asked. IsTrue (is_on_text asked)
        → IsTrue (is_whole result) → ReadsWhole (S.left source.old) (S.left source.new)) }
{
    let Some(asked) = command(words) else {
        return Status::Usage;
    };
    let text = if asked.is_on_text() {
        match take_all(alloc, source, MOST_BYTES) {
            Ok(text) => text,
            Err(TakeFault::Read) => return Status::ReadFault,
            Err(TakeFault::Memory) => return Status::Memory,
        }
    } else {
        List::new(alloc)
    };
    match answer(rt, alloc, gate, asked, text.as_slice(), out) {
        Ok(status) => status,
        Err(EngineFault::Write) => Status::WriteFault,
        Err(EngineFault::Memory) => Status::Memory,
    }
}
