//! Both inboxes, tried where memory is ample: that their calls succeed there, and that posters post at once from threads of
//! their own, is in no clause.
#![tactic(auto)]

#[cfg(test)]
mod lanes;
#[cfg(test)]
mod queue;
