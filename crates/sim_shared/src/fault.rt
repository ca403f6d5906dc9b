//! What is refused.

/// The attempt at the front of the queue, once the request joined it, would preempt the process that asks.
#[derive(Clone, Copy, Debug)]
pub struct OwnVictim;

/// The amount that is put into a container, or got from it, is not above 0.
#[derive(Clone, Copy, Debug)]
pub struct NotPositive;
