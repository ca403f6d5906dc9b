//! Containers and stores: who waits at them, what is in them, and which waiter is served next.
#![tactic(auto)]

mod heap;
mod item;
mod row;
mod shelf;
mod stock;
mod tank;
mod tried;
mod waiting;

pub use shelf::Shelf;
pub use tank::Tank;
