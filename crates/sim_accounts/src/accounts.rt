//! The accounts of holders and the events that are kept.
ghost use Rattle.std.specs.Prelude.{◌≡◌, ℕ, None, is_some, length, slice_index_or};
ghost use Rattle.sim_types.specs.declared.event.EventId.{EventId};
ghost use Rattle.sim_machine.specs.State.{State};
ghost use Rattle.sim_machine.specs.KeptEvents.{is_kept, kept_events};
ghost use Rattle.sim_machine.specs.Tellings.{Telling};
ghost use Rattle.sim_happen_model.specs.TableOf.{kept_count};
ghost use Rattle.sim_happen_model.specs.HappenOf.{HappenOf};
ghost use Rattle.sim_happen_model.specs.Shows.{Shows};
ghost use Rattle.sim_happen_model.specs.Accounts.{Accounts};

/// Where the accounts of a state that is shown are right, an event is kept exactly where the machine calls it kept: so as many
/// slots are used as the machine has kept events. (This project's own; in Python an event is collected.)
pub fn kept_exactly<B>()
    ensures each { (named : ℕ) (tell : Telling B) (h : HappenOf) (s : State B) (e : EventId) →
        Shows h s.facilities.calendar → Accounts named tell h.events s →
        is_kept named tell s e ≡ is_some (slice_index_or h.events e.0 None) }
    ensures count { (named : ℕ) (tell : Telling B) (h : HappenOf) (s : State B) →
        Shows h s.facilities.calendar → Accounts named tell h.events s →
        kept_count h.events ≡ length (kept_events named tell s) }
{}
