//! What contracts see of time and what happens in it, which calendars of the machine that shows, how a call follows the
//! machine, and how time, agenda and table fit together. Nothing of it runs.
#![tactic(auto)]
