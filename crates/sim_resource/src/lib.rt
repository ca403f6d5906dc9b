//! Slots that requests wait for and use, as those of a counter with clerks (SimPy's Resource, PriorityResource and
//! PreemptiveResource).
#![tactic(auto)]

mod desk;
mod key;
mod kind;
mod preempted;
mod queue;
mod user;
mod users;

pub use desk::Desk;
