//! How the program ends.
ghost use Rattle.std.specs.Prelude.{◌≡◌};
ghost use Rattle.sim_command.specs.Exits.{exit_after, usage_after};

use crate::status::Status;

/// The exit status of the program after this answer, or after want of memory for its words.
pub fn exit_of(answer: Option<Status>) -> u8
    ensures { result ≡ exit_after answer }
{
    answer.unwrap_or(Status::Memory).code()
}

/// What is told on standard error after this answer: the commands, where the words were none, and else nothing.
pub fn usage_of(answer: Option<Status>) -> &'static str
    ensures { result.now ≡ usage_after answer }
{
    match answer {
        Some(Status::Usage) =>
            "usage: simq check | run LIMIT | batch COUNT LIMIT | load SIZE | live LIMIT | watch LIMIT | native MODEL LIMIT | host COUNT LIMIT | verify LIMIT",
        Some(
            Status::Ended
            | Status::Refused
            | Status::Crash
            | Status::Limit
            | Status::ReadFault
            | Status::WriteFault
            | Status::Memory,
        )
        | None => "",
    }
}
