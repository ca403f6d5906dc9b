//! What contracts see of desks, containers and stores, and of all resources in their places beside time and what happens in
//! it, and which facilities of the machine that shows.
#![tactic(auto)]

mod desk;
mod laws;
mod resource;
mod stock;

pub use desk::{DeskKind, Grant, WaitingRequest};
pub use laws::{answers, queues};
pub use resource::AnyResource;
pub use stock::{Served, ShelfKind, WaitingAmount, WaitingGet, WaitingPut};
