//! The command that the program is called with, and how a call and the program end.
#![tactic(auto)]

mod commands;
mod ending;
mod exit;
mod reading;
mod status;
mod word;

pub use commands::{Command, HostedRuns};
pub use ending::status_of_end;
pub use exit::{exit_of, usage_of};
pub use reading::{command, hosted_runs, live_limit, most_units};
pub use status::Status;
pub use word::Word;
