//! The table of events: those that something can still come back to, each with its callbacks, and the callbacks that
//! are left to call.
#![tactic(auto)]

mod part;
mod slot;
mod store;
mod table;

pub use part::{ConditionValue, MOST_WEIGHT};
pub use table::{AlreadySet, EventState, Table};
