//! The program around its top call.
ghost use Rattle.std.specs.Prelude.{IfSome};
ghost use Rattle.std.specs.Process.{exit_status};
ghost use Rattle.sim_program.specs.Calls.{IsAnswer, EndsAs};

use crate::words::words_of;
use sim_command::{Status, Word, exit_of, usage_of};
use std::alloc::Global;
use std::env::Env;
use std::process::ExitCode;

/// Makes the call with the words of the program, and tells how it ended: by the exit status, and on standard error where
/// the words are no command.
pub fn run<R: AllocGlobal + Env + Eprint, F: FnOnce(&[Word]) -> Status>(rt: &R, call: F) -> ExitCode
    requires { F.IsAlwaysCallable call }
    ensures { EndsAs F.FnOnce call (exit_status result) }
{
    let answer = answer_to(rt, rt.alloc(), call);
    let usage = usage_of(answer);
    if !usage.is_empty() {
        // Where this fails, the exit status still tells it.
        let _ = eprintln!(rt; "{usage}");
    }
    ExitCode::from(exit_of(answer))
}

/// The answer of the call with the words of the program, or none where memory was wanting for them.
fn answer_to<R: Env, F: FnOnce(&[Word]) -> Status>(rt: &R, alloc: Global, call: F) -> Option<Status>
    requires { F.IsAlwaysCallable call }
    ensures { IfSome result (λ answer. IsAnswer F.FnOnce call answer) }
{
    match words_of(rt, alloc) {
        Ok(words) => Some(call(words.as_slice())),
        Err(_) => None,
    }
}
