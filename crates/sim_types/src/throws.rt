//! The numbers of what is thrown: the kinds of throws, and the errors, whose number is the value of a throw of kind `ERROR`.

/// An interrupt; its value is the cause.
pub const INTERRUPT: u8 = 1;

/// A preemption; its value is the time since which the slot was used.
pub const PREEMPTION: u8 = 2;

/// A failure, by `fail` or `raise`; its value is the code.
pub const FAILURE: u8 = 3;

/// An error; its value is one of the numbers below.
pub const ERROR: u8 = 4;

/// A delay is negative.
pub const NEGATIVE_DELAY: u8 = 1;

/// An amount is not positive.
pub const AMOUNT_NOT_POSITIVE: u8 = 2;

/// The event is triggered already.
pub const ALREADY_TRIGGERED: u8 = 3;

/// The process has ended.
pub const ENDED_PROCESS: u8 = 4;

/// The process itself, where another one is wanted.
pub const PROCESS_ITSELF: u8 = 5;

/// A result has no 64 bits.
pub const OVERFLOW: u8 = 6;

/// A divisor is zero.
pub const ZERO_DIVISOR: u8 = 7;

/// A range has no number.
pub const EMPTY_RANGE: u8 = 8;

/// A time is past the last one.
pub const TIME_TOO_LATE: u8 = 9;

/// A condition has too many leaves.
pub const CONDITION_TOO_WIDE: u8 = 10;
