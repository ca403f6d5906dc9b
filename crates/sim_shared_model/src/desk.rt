//! Desks as contracts see them: how requests wait, and what an attempt answers.

use sim_types::{EventId, ProcId, RequestKey};

/// How requests wait at a desk, and whether users lose their slots (SimPy's Resource, PriorityResource and
/// PreemptiveResource).
#[derive(Clone, Copy)]
pub enum DeskKind {
    /// Requests wait as they came.
    Plain,
    /// Requests wait by their keys.
    Priority,
    /// Requests wait by their keys, and where no slot is free one may take that of a user.
    Preemptive,
}

/// A request that waits at a desk.
#[derive(Clone, Copy)]
pub struct WaitingRequest {
    /// Its event.
    pub request: EventId,
    /// What it waits by.
    pub key: RequestKey,
    /// The process whose request it is.
    pub process: ProcId,
}

/// What an attempt at the first of a queue came to.
#[derive(Clone, Copy)]
pub enum Grant {
    /// Nothing waits, or the first is given no slot.
    None,
    /// The first is given a slot that was free.
    Granted {
        /// The request that is a user now.
        request: EventId,
    },
    /// The first is given the slot of a user, who is preempted (SimPy's Preempted).
    Preempted {
        /// The request that is a user now.
        request: EventId,
        /// The request that is a user no longer.
        victim: EventId,
        /// The process whose request that was.
        process: ProcId,
        /// The time since which it was a user.
        since: i64,
    },
}
