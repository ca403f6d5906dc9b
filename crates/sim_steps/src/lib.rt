//! One unit of the machine, for every body: an event is popped, a callback is called, an event is settled, or a process is
//! polled.
#![tactic(auto)]

mod arriving;
mod calling;
mod conditions;
mod draw;
mod dropping;
mod events;
mod holding;
mod making;
mod measuring;
mod opening;
mod parts;
mod places;
mod polling;
mod processes;
mod ready;
mod resources;
mod waiting;

pub use parts::Parts;
pub use sim_steps_model::{Rest, Touched, Unit, Units};
