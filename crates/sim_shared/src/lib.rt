//! Shared resources wired to events, each named by its place in the scenario: what waits at them, uses them and stands
//! in them, and how events leave them.
#![tactic(auto)]

mod fault;
mod granting;
mod joining;
mod leaving;
mod making;
mod opening;
mod queues;
mod resource;
mod serving;
mod shared;
mod trying;

pub use fault::{NotPositive, OwnVictim};
pub use shared::Shared;
