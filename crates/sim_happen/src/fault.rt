//! What is refused.

/// The event has its outcome already.
#[derive(Clone, Copy, Debug)]
pub struct AlreadyTriggered;

/// The time would pass the last one.
#[derive(Clone, Copy, Debug)]
pub struct TimeLimit;

/// The condition would weigh too much.
#[derive(Clone, Copy, Debug)]
pub struct TooWide;

/// A timeout that is not made.
#[derive(Clone, Copy, Debug, PartialEq, Eq)]
pub enum TimeoutFault {
    NegativeDelay,
    TimeLimit,
}
