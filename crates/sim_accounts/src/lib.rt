//! Who holds which event, and that the events that are kept by these accounts are just those that the machine calls kept.
//! Nothing of it runs.
#![tactic(auto)]

mod accounts;
mod calendars;
mod happenings;
mod holders;
mod naming;

pub use accounts::kept_exactly;
pub use calendars::{
    changed_callbacks, changed_conditions, changed_events, changed_facilities, later_calendars,
};
pub use happenings::{
    balanced_as_before, balanced_with_condition, balanced_with_holder, kept_holders,
};
pub use holders::{
    held_events, open_events, reasons, traded_balanced, unheld_balanced, unheld_shown,
};
pub use naming::{
    blank_states, events_in_process, living_processes, open_scopes, places_of_numbers,
    quiet_changes, waiting_processes,
};
