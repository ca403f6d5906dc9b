//! Traces of a machine shop that were cut or changed, tried by the top call. What one line shows is a row of `sim_rows`.
#![tactic(auto)]

#[cfg(test)]
mod traces;
