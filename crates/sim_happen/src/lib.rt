//! Time and what happens in it: the events, their callbacks, the conditions and the agenda. It knows nothing of processes
//! but their numbers.
#![tactic(auto)]

mod building;
mod chaining;
mod conditions;
mod fault;
mod happen;
mod holding;
mod triggering;

pub use fault::{AlreadyTriggered, TimeLimit, TimeoutFault, TooWide};
pub use happen::Happen;
