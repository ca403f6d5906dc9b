//! Models by hand: a process is a state machine that asks, poll for poll, what the script of its text asks; and their runs.
#![tactic(auto)]

mod bank;
mod runs;
mod setups;
mod shop;
mod told;
mod wash;

pub use bank::{BankBody, BankCode};
pub use runs::native_run;
pub use setups::shop_setup;
pub use shop::{ShopBody, ShopCode};
pub use sim_writing::RunFault as NativeFault;
pub use wash::{WashBody, WashCode};
