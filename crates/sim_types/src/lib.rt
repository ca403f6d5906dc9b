//! The plain types that all crates share: numbers of events, keys, signals and operations of processes, lines of a
//! trace, the parts of a scenario and the statements of its scripts.
#![tactic(auto)]

mod event;
mod fault;
mod few;
mod key;
mod limits;
mod line;
mod list;
mod op;
mod script;
mod setup;
mod throws;

pub use event::{
    Callback, Entry, EventId, EventKind, Outcome, ProcId, RequestKey, Scope, Signal, Throw,
};
pub use fault::{Fault, FaultKind};
pub use few::{Args, Few, Members, Places};
pub use key::{Count, Key};
pub use limits::{LAST_TIME, MOST_BYTES, MOST_ITEMS, MOST_LEVEL, MOST_SLOTS};
pub use line::{End, Line, Measure, Summary, WatchRow};
pub use list::{List, Name};
pub use op::Op;
pub use script::{Arith, Kind, Num, Ref, Refs, SpawnArg, SpawnArgs, Stmt};
pub use setup::{Arrival, Class, Classes, Post, Resource, ResourceKind, Setup, Start, Until};
pub use throws::{
    ALREADY_TRIGGERED, AMOUNT_NOT_POSITIVE, CONDITION_TOO_WIDE, EMPTY_RANGE, ENDED_PROCESS, ERROR,
    FAILURE, INTERRUPT, NEGATIVE_DELAY, OVERFLOW, PREEMPTION, PROCESS_ITSELF, TIME_TOO_LATE,
    ZERO_DIVISOR,
};
