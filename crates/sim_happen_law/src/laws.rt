//! What it means that a calendar is shown.
ghost use Rattle.std.specs.Prelude.{◌≡◌};
ghost use Rattle.sim_types.specs.declared.event.EventId.{EventId};
ghost use Rattle.sim_machine.specs.State.{Calendar};
ghost use Rattle.sim_happen_model.specs.TableOf.{IsKept};
ghost use Rattle.sim_happen_model.specs.Shows.{Shows};
ghost use Rattle.sim_happen_model.specs.Seen.{seen, SayAlike};
ghost use Rattle.sim_happen_model.specs.HappenOf.{HappenOf};

/// Some calendar is always shown.
pub fn shows_seen()
    ensures { (h : HappenOf) → Shows h (seen h) }
{}

/// Two calendars that are shown say the same of each event that is kept.
pub fn seen_alike()
    ensures { (h : HappenOf) (c d : Calendar) (e : EventId) → IsKept h.events e
        → Shows h c → Shows h d → SayAlike e c d }
{}
