use sim_types::{End, EventId, Line, ProcId, Signal};

/// What the kernel is doing; the callbacks that are left to call stand beside it.
#[derive(Clone, Copy)]
pub enum Mode {
    /// Nothing.
    Idle,
    /// Calling the callbacks of an event.
    Calling(EventId),
    /// Running a process within such a call, which is to be told this.
    Active(EventId, ProcId, Signal),
    /// The run was stopped at this event, or an event failed and nobody defused it.
    Over(End, EventId),
}

/// Where a kernel stands.
#[derive(Clone, Copy, Debug, PartialEq, Eq)]
pub enum Rest {
    /// Callbacks are left to call, a process runs, or an event is still to be settled.
    Busy,
    /// Nothing is being done, and the agenda has an entry.
    Idle,
    /// Nothing is being done, and the agenda is empty.
    Empty,
    /// The run is over.
    Over(End),
}

/// What a unit answers.
#[derive(Clone, Copy, Debug, PartialEq, Eq)]
pub enum Unit {
    /// It writes nothing.
    Quiet,
    /// It writes this line.
    Line(Line),
}

/// At which resources what is measured may have changed.
#[derive(Clone, Copy, Debug, PartialEq, Eq)]
pub enum Touched {
    /// At none.
    Nothing,
    /// At the one in this place.
    One(u32),
    /// At those in the places that are listed beside it: a dropped process left their scopes.
    Listed,
}

/// Units that were made in a row. In all but the last a process that ran asked for nothing, and they write nothing.
#[derive(Clone, Copy, Debug, PartialEq, Eq)]
pub struct Units {
    /// How many there were.
    pub made: u32,
    /// What the last answers.
    pub last: Unit,
    /// At which resources the last may have changed what is measured.
    pub touched: Touched,
}
