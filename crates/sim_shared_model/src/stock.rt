//! Containers and stores as contracts see them: who waits, and who was served.

use sim_types::EventId;

/// Which item a store gives (SimPy's Store, PriorityStore and FilterStore).
#[derive(Clone, Copy)]
pub enum ShelfKind {
    /// The first put.
    Fifo,
    /// The one with the least priority, among equals the first put.
    Priority,
    /// The first put of those in the range of the get.
    Filter,
}

/// A put or get that was served.
#[derive(Clone, Copy, Debug, PartialEq, Eq)]
pub struct Served {
    /// The event of the put or get.
    pub event: EventId,
    /// What the event is to succeed with: the value of the item that a get of a store is given, else 0.
    pub value: i64,
}

/// A put or get that waits at a container.
#[derive(Clone, Copy)]
pub struct WaitingAmount {
    pub event: EventId,
    /// How much is put or got.
    pub amount: i64,
}

/// A put that waits at a store.
#[derive(Clone, Copy)]
pub struct WaitingPut {
    pub event: EventId,
    /// The value of the item.
    pub value: i64,
    /// The priority of the item: a priority store gives the least first. Others take no notice of it.
    pub priority: i64,
}

/// A get that waits at a store.
#[derive(Clone, Copy)]
pub struct WaitingGet {
    pub event: EventId,
    /// A filter store gives an item from here ..
    pub least: i64,
    /// .. to here. Others take no notice of the two.
    pub greatest: i64,
}
