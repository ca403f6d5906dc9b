//! Who holds an event: what takes a holder, and what gives one back.
ghost use Rattle.std.specs.Prelude.{◌≡◌, ◌+◌, ◌<◌, ◌^◌, not, is_some, is_none, IfNone, IfSome};
ghost use Rattle.sim_happen_model.specs.TableOf.{kept_at, IsKept, is_needed, kept_and_spare};
ghost use Rattle.sim_happen_model.specs.Changes.{with_holder, without_holder, change_kept, change_or_forget, callbacks_freed, conditions_freed};
ghost use Rattle.sim_events.specs.States.{is_unhandled};

use super::{Table, forget_unneeded, key_of};
use sim_types::EventId;

impl Table {
    /// One holder more: the event is kept until it is let go.
    pub fn hold(&mut self, event: EventId)
        requires kept { IsKept self.old.events event }
        requires few { (kept_at self.old.events event).holders < 2 ^ 61 }
        ensures events { self.new.events ≡ change_kept event with_holder self.old.events }
        ensures rest { self.new ≡ record self.old { events = self.new.events } }
    {
        let key = key_of(&self.index, event);
        self.store.slots[key].holders += 1;
    }

    /// One holder fewer. The event goes where it is processed or cancelled and nobody else holds it.
    pub fn unhold(&mut self, event: EventId)
        requires kept { IsKept self.old.events event }
        requires held { 0 < (kept_at self.old.events event).holders }
        ensures events { self.new.events ≡ change_or_forget event without_holder self.old.events }
        ensures left { self.new.left ≡ self.old.left }
        ensures kept_and_spare { kept_and_spare self.new ≡ kept_and_spare self.old }
        ensures callbacks { self.new.spare.callbacks
            ≡ self.old.spare.callbacks
            + callbacks_freed (without_holder (kept_at self.old.events event)) }
        ensures conditions { self.new.spare.conditions
            ≡ self.old.spare.conditions
            + conditions_freed (without_holder (kept_at self.old.events event)) }
    {
        let key = key_of(&self.index, event);
        self.store.slots[key].holders -= 1;
        forget_unneeded(&mut self.index, &mut self.store, event, key);
    }

    /// One holder fewer of an event that is no condition, as by `unhold`. It is looked up once. The answer is whether it
    /// failed and nobody defused it. None where it is a condition: its holder stays.
    #[inline(always)]
    pub fn unhold_plain(&mut self, event: EventId) -> Option<bool>
        requires kept { IsKept self.old.events event }
        requires held { 0 < (kept_at self.old.events event).holders }
        ensures plain { is_some result
            ≡ is_none (kept_at self.old.events event).event.condition }
        ensures condition { IfNone result (self.new ≡ self.old) }
        ensures unhandled { IfSome result (λ unhandled.
            unhandled ≡ is_unhandled (kept_at self.old.events event).event) }
        ensures events { IfSome result (λ _.
            self.new.events ≡ change_or_forget event without_holder self.old.events) }
        ensures left { self.new.left ≡ self.old.left }
        ensures kept_and_spare { kept_and_spare self.new ≡ kept_and_spare self.old }
        ensures callbacks { IfSome result (λ _. self.new.spare.callbacks
            ≡ self.old.spare.callbacks
            + callbacks_freed (without_holder (kept_at self.old.events event))) }
        ensures conditions { self.new.spare.conditions ≡ self.old.spare.conditions }
    {
        let key = key_of(&self.index, event);
        if self.store.slots[key].is_condition {
            return None;
        }
        let slot = &mut self.store.slots[key];
        slot.holders -= 1;
        let unhandled = slot.is_unhandled();
        forget_unneeded(&mut self.index, &mut self.store, event, key);
        Some(unhandled)
    }

    /// Whether an event goes where it has one holder fewer.
    pub fn goes_without_holder(&self, event: EventId) -> bool
        requires kept { IsKept self.now.events event }
        ensures { result ≡ not (is_needed (without_holder (kept_at self.now.events event))) }
    {
        self.store.slots[key_of(&self.index, event)].goes_without_holder()
    }
}
