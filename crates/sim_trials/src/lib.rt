//! Public calls, tried where memory is ample: that they succeed there, and that devices really read, write, flush and
//! fail, is in no clause. A file has the trials of one crate, or of a part of it, or what they share. What a text and its
//! answer can show is a row of `sim_rows`, and no trial.
#![tactic(auto)]

#[cfg(test)]
mod agenda;
#[cfg(test)]
mod calls;
#[cfg(test)]
mod counting;
#[cfg(test)]
mod desk;
#[cfg(test)]
mod devices;
#[cfg(test)]
mod events;
#[cfg(test)]
mod happen;
#[cfg(test)]
mod late_posts;
#[cfg(test)]
mod live;
#[cfg(test)]
mod lived;
#[cfg(test)]
mod records;
#[cfg(test)]
mod resources;
#[cfg(test)]
mod shared;
#[cfg(test)]
mod sinks;
#[cfg(test)]
mod sources;
#[cfg(test)]
mod stores;
#[cfg(test)]
mod trace;
