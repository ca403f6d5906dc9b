//! What an event has as a condition.
ghost use Rattle.std.specs.Prelude.{◌≡◌, ◌↔◌, ◌+◌, ◌<◌, ◌≤◌, ◌^◌, [], ◌∷◌, ◌++◌, length, Some, IsSome, IsTrue, is_some, IsOk, OnOk, if◌then◌else◌};
ghost use Rattle.std.specs.List.{list_any};
ghost use Rattle.sim_machine.specs.State.{Every, Either};
ghost use Rattle.sim_machine.specs.Events.{is_same};
ghost use Rattle.sim_machine.specs.Conditions.{is_met};
ghost use Rattle.sim_happen_model.specs.TableOf.{new_kept, new_condition, kept_at, kept_condition, IsKept};
ghost use Rattle.sim_happen_model.specs.Changes.{on_condition, change_kept, more_events, more_conditions};

use super::{Table, add, key_of};
use crate::part::{ConditionValue, Part};
use crate::slot::Slot;
use sim_types::{EventId, EventKind, Members};
use std::alloc::AllocError;

impl Table {
    /// Makes room for so many more of those events that are conditions.
    pub fn reserve_conditions(&mut self, more: u32) -> Result<(), AllocError>
        ensures ok { OnOk result (more ≤ self.new.spare.conditions) }
        ensures succeeds { more ≤ self.old.spare.conditions → IsOk result }
        ensures never_less { self.old.spare.conditions ≤ self.new.spare.conditions }
        ensures events { self.new.spare.events ≡ self.old.spare.events }
        ensures callbacks { self.new.spare.callbacks ≡ self.old.spare.callbacks }
        ensures rest { self.new ≡ record self.old { spare = self.new.spare } }
    {
        self.store.parts.reserve(more as usize)
    }

    /// Whether there is room for so many more of those events that are conditions.
    pub fn has_room_for_conditions(&self, more: u32) -> bool
        ensures { IsTrue result ↔ more ≤ self.now.spare.conditions }
    {
        let parts = &self.store.parts;
        more as usize <= parts.capacity() - parts.len()
    }

    // A condition more, that waits for all of its members or for one.
    fn make_condition(&mut self, for_all: bool, members: Members) -> EventId
        requires spare { 0 < self.old.spare.events }
        requires spare_conditions { 0 < self.old.spare.conditions }
        requires number { length self.old.events < 2 ^ 62 }
        ensures id { result.0 ≡ length self.old.events }
        ensures events { self.new.events
            ≡ self.old.events
            ++ Some (new_kept (new_condition (if for_all then Every else Either) members)) ∷ [] }
        ensures left { self.new.left ≡ self.old.left }
        ensures spare { more_events 1 (more_conditions 1 self.new.spare) ≡ self.old.spare }
    {
        let mut slot = Slot::new(EventKind::Cond);
        slot.is_condition = true;
        slot.part = self
            .store
            .parts
            .insert_reserved(Part::new(for_all, members));
        add(&mut self.index, &mut self.store.slots, slot)
    }

    /// A condition more, that waits for all of its members (SimPy's AllOf). Nobody holds its members yet.
    pub fn make_all_of(&mut self, members: Members) -> EventId
        requires spare { 0 < self.old.spare.events }
        requires spare_conditions { 0 < self.old.spare.conditions }
        requires number { length self.old.events < 2 ^ 62 }
        ensures id { result.0 ≡ length self.old.events }
        ensures events { self.new.events
            ≡ self.old.events ++ Some (new_kept (new_condition Every members)) ∷ [] }
        ensures left { self.new.left ≡ self.old.left }
        ensures spare { more_events 1 (more_conditions 1 self.new.spare) ≡ self.old.spare }
    {
        self.make_condition(true, members)
    }

    /// A condition more, that waits for one of its members (SimPy's AnyOf). Nobody holds its members yet.
    pub fn make_any_of(&mut self, members: Members) -> EventId
        requires spare { 0 < self.old.spare.events }
        requires spare_conditions { 0 < self.old.spare.conditions }
        requires number { length self.old.events < 2 ^ 62 }
        ensures id { result.0 ≡ length self.old.events }
        ensures events { self.new.events
            ≡ self.old.events ++ Some (new_kept (new_condition Either members)) ∷ [] }
        ensures left { self.new.left ≡ self.old.left }
        ensures spare { more_events 1 (more_conditions 1 self.new.spare) ≡ self.old.spare }
    {
        self.make_condition(false, members)
    }

    /// Whether an event is a condition.
    pub fn is_condition(&self, event: EventId) -> bool
        requires kept { IsKept self.now.events event }
        ensures { result ≡ is_some (kept_at self.now.events event).event.condition }
    {
        self.store.slots[key_of(&self.index, event)].is_condition
    }

    /// The members of a condition. Other events have none.
    pub fn members(&self, event: EventId) -> Members
        requires kept { IsKept self.now.events event }
        ensures { result ≡ (kept_condition self.now.events event).members }
    {
        let slot = &self.store.slots[key_of(&self.index, event)];
        if slot.is_condition {
            self.store.parts[slot.part].members()
        } else {
            Members::new()
        }
    }

    /// Whether a condition is met, where a member was just counted.
    pub fn is_met(&self, event: EventId) -> bool
        requires kept { IsKept self.now.events event }
        requires condition { IsSome (kept_at self.now.events event).event.condition }
        ensures { result ≡ is_met (kept_condition self.now.events event) }
    {
        let part = self.store.slots[key_of(&self.index, event)].part;
        self.store.parts[part].is_met()
    }

    /// One member more of a condition is counted.
    pub fn count_member(&mut self, event: EventId)
        requires kept { IsKept self.old.events event }
        requires condition { IsSome (kept_at self.old.events event).event.condition }
        requires few { let x = kept_condition self.old.events event in x.count < length x.members }
        ensures events { self.new.events ≡ change_kept event
            (on_condition (λ x. record x { count = x.count + 1 })) self.old.events }
        ensures rest { self.new ≡ record self.old { events = self.new.events } }
    {
        let part = self.store.slots[key_of(&self.index, event)].part;
        self.store.parts[part].count_member();
    }

    /// The value of a condition is now these events.
    pub fn fix_value(&mut self, event: EventId, value: ConditionValue)
        requires kept { IsKept self.old.events event }
        requires condition { IsSome (kept_at self.old.events event).event.condition }
        ensures events { self.new.events ≡ change_kept event
            (on_condition (λ x. record x { value = value })) self.old.events }
        ensures rest { self.new ≡ record self.old { events = self.new.events } }
    {
        let part = self.store.slots[key_of(&self.index, event)].part;
        self.store.parts[part].fix_value(value);
    }

    /// Whether an event stands in the value of a condition.
    pub fn has_in_value(&self, condition: EventId, event: EventId) -> bool
        requires kept { IsKept self.now.events condition }
        requires condition { IsSome (kept_at self.now.events condition).event.condition }
        ensures { result
            ≡ list_any (is_same event) (kept_condition self.now.events condition).value }
    {
        let part = self.store.slots[key_of(&self.index, condition)].part;
        self.store.parts[part].has_in_value(event)
    }
}
