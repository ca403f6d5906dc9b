//! The whole program: its words and its devices.
ghost use Rattle.std.specs.Prelude.{IsTrue};
ghost use Rattle.sim_command.specs.Endings.{is_whole};
ghost use Rattle.sim_answer.specs.Answers.{AnswersWhole, AnswersPrefix};
ghost use Rattle.sim_answer.specs.Ends.{EndsWell};
ghost use Rattle.sim_program.specs.Answers.{IsAnswer, MayWrite, AskForNothing};

use crate::call::run;
use sim_batch::FreeGate;
use sim_command::{Status, Word, hosted_runs, live_limit};
use sim_desk::desk;
use sim_host::host_desk;
use sim_lanes::LaneInbox;
use sim_live::live_desk;
use sim_outside::{Gathering, Sink, Source, StdSink, StdSource};
use std::env::Env;
use std::io::{Read, Write};
use std::process::ExitCode;
use std::random::RandomSource;
use std::sync::Wait;
use std::thread::Threads;

/// Carries out what the words of the program ask for, reads from this input, writes to this output, many lines at a time, and
/// ends as `run` does. Where memory is wanting, the last lines may be lost. That these are the devices, and that it is
/// `carry_out` that answers, is told by these few lines and by no contract.
pub fn simulate<R, I, O>(rt: &R, input: I, output: O) -> ExitCode
where
    R: AllocGlobal + Env + Eprint + RandomSource + Threads + Wait + Sync,
    I: Read + Drop,
    O: Write + Drop,
{
    let mut source = StdSource::new(input);
    let mut out = Gathering::new(StdSink::new(output));
    run(rt, |words| carry_out(rt, words, &mut source, &mut out))
}

/// Carries out what the words ask for: a live run over lanes, runs that are hosted on this thread, or a command. The answer
/// says how it ended.
pub fn carry_out<R: AllocGlobal + RandomSource + Threads + Wait + Sync, S: Source, K: Sink>(
    rt: &R,
    words: &[Word],
    source: &mut S,
    out: &mut K,
) -> Status
    // What is printed is the answer to the words and the text, and the status is that of it.
    ensures headline { IsTrue (is_whole result)
        → AnswersWhole (IsAnswer words.now) (S.left source.old)
        (K.tells out.old) (K.tells out.new) result }

    // Whatever the status, what was written is a prefix of that.
    ensures prefix { AnswersPrefix (MayWrite words.now) (S.left source.old)
        (K.tells out.old) (K.tells out.new) }

    // The status tells which device failed, if one did, and whether all was written and the sink flushed. It is that of usage
    // exactly where they ask for nothing, and then nothing is read or written.
    ensures ends { EndsWell S.faults K.tells (AskForNothing words.now)
        source.old source.new out.old out.new result }
{
    let alloc = rt.alloc();
    match (live_limit(words), hosted_runs(words)) {
        (Some(_), _) => live_desk(rt, alloc, &FreeGate, &LaneInbox, words, source, out),
        (None, Some(_)) => host_desk(rt, words, source, out),
        (None, None) => desk(rt, alloc, &FreeGate, words, source, out),
    }
}
