//! The law of the machine: the opening state is lawful, and each unit leads from a lawful state to a lawful state, for every
//! body that keeps the law of bodies; and what follows from it. Nothing of it runs.
#![tactic(auto)]

mod conditions;
mod kept;
mod laws;
mod runs;

pub use conditions::fixed_values;
pub use kept::reached_events_are_kept;
pub use laws::{lawful_arrival, lawful_opening, lawful_step};
pub use runs::{lawful_run, within_capacity};
