//! What the definitions of the machine mean: who is served first, what a store gives, what a condition counts, what a run
//! writes. Nothing of it runs.
#![tactic(auto)]

mod cancels;
mod conditions;
mod containers;
mod desks;
mod draws;
mod limits;
mod runs;
mod stores;
mod units;

pub use cancels::{cancelled_waiters, left_scopes};
pub use conditions::{condition_values, counted_members, weights};
pub use containers::{container_tries, levels};
pub use desks::{attempts, grants, own_victim, preemptions, queues, request_keys, users_of_deeds};
pub use draws::{drawn_numbers, drawn_words};
pub use limits::made_units;
pub use runs::{preemption_ends_use, trace_grows};
pub use stores::{filter_store_tries, given_items, items_of_deeds, one_attempt, store_attempts};
pub use units::{added_arrival, due_entry, ended_run, lines_of_a_unit, next_unit, one_course};
