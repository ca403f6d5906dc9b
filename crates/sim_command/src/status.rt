//! How a call of the program ends.
ghost use Rattle.std.specs.Prelude.{◌≡◌};
ghost use Rattle.sim_command.specs.Statuses.{status_code};

/// What a top call answers.
#[derive(Clone, Copy, Debug, PartialEq, Eq)]
pub enum Status {
    /// The whole answer was written; a run of it ended for want of events, or was stopped as its scenario says.
    Ended,
    /// The words are no command. Nothing was read or written.
    Usage,
    /// The text is no scenario. Its fault was written.
    Refused,
    /// The run ended by a failure that nobody handled, or for want of the event that it was to stop at.
    Crash,
    /// The limit came before the end of the run.
    Limit,
    /// A read failed. Nothing was written.
    ReadFault,
    /// A write failed. A prefix of the answer was written.
    WriteFault,
    /// No memory was found. A prefix of the answer was written.
    Memory,
}

impl Status {
    /// The exit status of the program.
    pub fn code(&self) -> u8
        ensures { result ≡ status_code self.now }
    {
        match self {
            Status::Ended => 0,
            Status::Usage => 2,
            Status::Refused => 3,
            Status::Crash => 4,
            Status::Limit => 5,
            Status::ReadFault => 6,
            Status::WriteFault => 7,
            Status::Memory => 8,
        }
    }
}
