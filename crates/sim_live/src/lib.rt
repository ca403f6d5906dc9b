//! Live runs: a scenario runs while its posters post from threads of their own, and a journal tells what came.
#![tactic(auto)]

mod answer;
mod caller;
mod live_run;
mod play;
mod top;

pub use top::live_desk;
