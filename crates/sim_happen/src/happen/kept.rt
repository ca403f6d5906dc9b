//! What is asked of an event that is kept, and of what it has as a condition.
ghost use Rattle.std.specs.Prelude.{◌≡◌, ◌+◌, ◌<◌, ◌≤◌, ◌^◌, [], length, Some, None, IsSome, is_some, not, All, if◌then◌else◌};
ghost use Rattle.std.specs.List.{list_any, sum_by};
ghost use Rattle.sim_machine.specs.State.{Every, Either};
ghost use Rattle.sim_machine.specs.Conditions as conditions;
ghost use Rattle.sim_machine.specs.Events as events;
ghost use Rattle.sim_events.specs.States as states;
ghost use Rattle.sim_happen_model.specs.TableOf.{IsKept, is_needed, kept_at, kept_condition};
ghost use Rattle.sim_happen_model.specs.Changes.{more_events, more_conditions, without_holder};
ghost use Rattle.sim_happen_model.specs.HappenOf.{held, unheld_event};
ghost use Rattle.sim_happen_model.specs.Holders.{AreOwed};
ghost use Rattle.sim_happen_model.specs.Shows.{Turns, Follows};
ghost use Rattle.sim_happen_model.specs.Sound.{AreNarrow, weight_in};
ghost use Rattle.sim_happen_model.specs.Joining.{with_members};

use super::Happen;
use sim_events::{ConditionValue, EventState};
use sim_types::{EventId, Members, Outcome};

impl Happen {
    /// Whether an event failed and nobody defused it, so that it ends the run once its callbacks were called.
    pub fn is_unhandled(&self, event: EventId) -> bool
        requires kept { IsKept self.now.events event }
        ensures { result ≡ states.is_unhandled (kept_at self.now.events event).event }
    {
        self.is_failed(event) && !self.table.is_defused(event)
    }

    /// Whether an event has an outcome that is a failure.
    pub fn is_failed(&self, event: EventId) -> bool
        requires kept { IsKept self.now.events event }
        ensures { result ≡ events.is_fail (kept_at self.now.events event).event.outcome }
    {
        match self.table.outcome(event) {
            Some(Outcome::Fail(_)) => true,
            _ => false,
        }
    }

    /// One more than the number of an event: members have smaller numbers, so no event is nested deeper.
    pub(crate) fn depth_of(&self, event: EventId) -> u64
        requires kept { IsKept self.now.events event }
        ensures { result ≡ event.0 + 1 }
    {
        let _known = &self.table;
        event.0 + 1
    }

    /// Whether an event goes where it has one holder fewer.
    pub(crate) fn goes_without_holder(&self, event: EventId) -> bool
        requires kept { IsKept self.now.events event }
        ensures { result ≡ not (is_needed (without_holder (kept_at self.now.events event))) }
    {
        self.table.goes_without_holder(event)
    }

    /// Whether an event is a condition.
    pub(crate) fn is_condition(&self, event: EventId) -> bool
        requires kept { IsKept self.now.events event }
        ensures { result ≡ is_some (kept_at self.now.events event).event.condition }
    {
        self.table.is_condition(event)
    }

    /// Whether an event stands in the value of a condition.
    pub(crate) fn has_in_value(&self, condition: EventId, event: EventId) -> bool
        requires kept { IsKept self.now.events condition }
        requires condition { IsSome (kept_at self.now.events condition).event.condition }
        ensures { result
            ≡ list_any (events.is_same event) (kept_condition self.now.events condition).value }
    {
        self.table.has_in_value(condition, event)
    }

    /// Whether an event is processed.
    pub(crate) fn is_processed(&self, event: EventId) -> bool
        requires kept { IsKept self.now.events event }
        ensures { result ≡ (kept_at self.now.events event).event.processed }
    {
        match self.table.state(event) {
            EventState::Processed => true,
            EventState::Triggered => false,
            EventState::Pending => false,
        }
    }

    /// How an event turned out. None where it is pending.
    pub(crate) fn outcome(&self, event: EventId) -> Option<Outcome>
        requires kept { IsKept self.now.events event }
        ensures { result ≡ (kept_at self.now.events event).event.outcome }
    {
        self.table.outcome(event)
    }

    /// Whether a condition is met, where a member was just counted.
    pub(crate) fn is_met(&self, condition: EventId) -> bool
        requires kept { IsKept self.now.events condition }
        requires condition { IsSome (kept_at self.now.events condition).event.condition }
        ensures { result ≡ conditions.is_met (kept_condition self.now.events condition) }
    {
        self.table.is_met(condition)
    }

    /// What is kept of all events: each is held by the conditions that it is a member of, and none weighs too much.
    pub(crate) fn tell(&self)
        ensures held { AreOwed [] self.now.events }
        ensures narrow { AreNarrow self.now.events }
    {
        let _known = &self.table;
    }

    /// A condition more, whose members have a holder each and are yet to join it.
    pub(crate) fn add_condition(&mut self, for_all: bool, members: Members) -> EventId
        requires spare { 0 < self.old.spare.events }
        requires spare_conditions { 0 < self.old.spare.conditions }
        requires number { length self.old.events < 2 ^ 62 }
        requires kept { All (IsKept self.old.events) members }
        requires owed { AreOwed members self.old.events }
        requires light { 1 + sum_by (weight_in conditions.most_weight self.old.events) members
            ≤ conditions.most_weight }
        ensures id { result.0 ≡ length self.old.events }
        ensures made { Turns (λ c. with_members (if for_all then Every else Either) members
            (events.next_event c) c) unheld_event self.old self.new }
        ensures spare { more_events 1 (more_conditions 1 self.new.spare) ≡ self.old.spare }
    {
        let _known = &self.agenda;
        if for_all {
            self.table.make_all_of(members)
        } else {
            self.table.make_any_of(members)
        }
    }

    /// The members of a condition, which are kept. Other events have none.
    pub(crate) fn members(&self, event: EventId) -> Members
        requires kept { IsKept self.now.events event }
        ensures members { result ≡ (kept_condition self.now.events event).members }
        ensures held { AreOwed [] self.now.events }
        ensures narrow { AreNarrow self.now.events }
        ensures kept { All (IsKept self.now.events) result }
    {
        self.table.members(event)
    }

    /// One member more of a condition is counted.
    pub(crate) fn count_member(&mut self, condition: EventId)
        requires kept { IsKept self.old.events condition }
        requires condition { IsSome (kept_at self.old.events condition).event.condition }
        requires few { let x = kept_condition self.old.events condition in
            x.count < length x.members }
        ensures follows { Follows (conditions.count_member condition) self.old self.new }
        ensures spare { self.new.spare ≡ self.old.spare }
    {
        self.table.count_member(condition);
    }

    /// The value of a condition is now these events.
    pub(crate) fn set_value(&mut self, condition: EventId, value: ConditionValue)
        requires kept { IsKept self.old.events condition }
        requires condition { IsSome (kept_at self.old.events condition).event.condition }
        ensures follows { Follows (conditions.change_condition condition
            (λ x. record x { value = value })) self.old self.new }
        ensures spare { self.new.spare ≡ self.old.spare }
    {
        self.table.fix_value(condition, value);
    }
}
