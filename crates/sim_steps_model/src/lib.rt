//! What contracts see of a kernel that is open: its parts, which states of the machine they stand for, and what it means that
//! they follow the machine. Nothing of it runs.
#![tactic(auto)]

mod mode;

pub use mode::{Mode, Rest, Touched, Unit, Units};
