//! The numbers that texts, setups and runs are limited by.

/// How many bytes a scenario text has, at most.
pub const MOST_BYTES: u32 = 4_194_304;

/// The last time of a run, 2^62.
pub const LAST_TIME: i64 = 4_611_686_018_427_387_904;

/// The greatest capacity of a container, 2^62.
pub const MOST_LEVEL: i64 = 4_611_686_018_427_387_904;

/// The greatest capacity of a store, 2^32.
pub const MOST_ITEMS: i64 = 4_294_967_296;

/// The greatest capacity of a resource whose slots are requested, 2^32 - 1.
pub const MOST_SLOTS: i64 = 4_294_967_295;
