//! The kernel: it stands for a lawful state of the machine, and makes one unit at a time, for every body.
#![tactic(auto)]

mod kernel;
mod opening;
mod walk;

pub use kernel::Kernel;
pub use sim_steps::{Rest, Touched, Unit, Units};
pub use walk::{Walk, empty_end};
