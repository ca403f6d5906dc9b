//! The lines of a scenario text in their places: what the lines above a line say, the variables of its process, and what
//! is wrong with it there.
#![tactic(auto)]

mod above;
mod blocks;
mod declared;
mod fault;
mod given;
mod limit_faults;
mod line_in_text;
mod name_faults;
mod order_faults;
mod variable_faults;
mod variables;

pub use above::Above;
pub use blocks::Blocks;
pub use declared::Declared;
pub use fault::{fault_at, fault_past};
pub use line_in_text::LineInText;
pub use variables::{variable, variables_of};
