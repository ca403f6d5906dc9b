//! How a call ends.
ghost use Rattle.std.specs.Prelude.{◌≡◌};
ghost use Rattle.sim_command.specs.Endings.{status_of_end};

use crate::status::Status;
use sim_types::End;

/// How a call ends whose run ended so.
pub fn status_of_end(end: End) -> Status
    ensures { result ≡ status_of_end end }
{
    match end {
        End::Empty | End::Until => Status::Ended,
        End::Crash | End::Starved => Status::Crash,
        End::Limit => Status::Limit,
    }
}
