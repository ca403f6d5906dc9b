//! How a condition is built: its value is fixed before anyone who waits for it goes on (SimPy's "Condition events").
ghost use Rattle.std.specs.Prelude.{◌≡◌, ℕ, ◌+◌, ◌<◌, ◌≤◌, [], ◌∷◌, length, IsSome, if◌then◌else◌};
ghost use Rattle.std.specs.List.{list_any};
ghost use Rattle.sim_machine.specs.Conditions as conditions;
ghost use Rattle.sim_machine.specs.Events as events;
ghost use Rattle.sim_machine.specs.State.{Calendar};
ghost use Rattle.sim_happen_model.specs.TableOf.{IsKept, kept_at};
ghost use Rattle.sim_happen_model.specs.HappenOf.{KeepsRoom};
ghost use Rattle.sim_happen_model.specs.Shows.{Shows, Follows};
ghost use Rattle.sim_happen_model.specs.Sound.{weight_in};
ghost use Rattle.sim_happen_model.specs.Gathering.{leaves_in, Gathers};

use crate::happen::Happen;
use sim_events::{ConditionValue, MOST_WEIGHT};
use sim_types::{Callback, EventId};

// Whether an event stands in a value.
fn contains(value: &ConditionValue, event: EventId) -> bool
    ensures { result ≡ list_any (events.is_same event) value.now }
{
    value.as_slice().iter().any(|leaf| event.0 == leaf.0)
}

impl Happen {
    // The first check of a condition is taken out of the callbacks of an event.
    fn take_check(&mut self, event: EventId, condition: EventId)
        requires kept { IsKept self.old.events event }
        ensures follows { Follows (events.unregister event (events.is_check_of condition))
            self.old self.new }
        ensures room { KeepsRoom self.old self.new }
    {
        let _found = self.unregister(event, Callback::Check(condition));
    }

    // Of each member the first check of this condition is taken out, and so on inwards.
    fn take_checks(&mut self, depth: u32, condition: EventId)
        requires kept { IsKept self.old.events condition }
        ensures follows { Follows (conditions.take_checks_within depth condition)
            self.old self.new }
        ensures room { KeepsRoom self.old self.new }
    {
        if depth > 0 {
            let members = self.members(condition);
            for member in members.as_slice() {
                self.take_check(*member, condition);
                self.take_checks(depth - 1, *member);
            }
        }
    }

    // An event that is no condition joins a value, where it is processed and does not stand there yet.
    fn add_leaf(&self, event: EventId, value: &mut ConditionValue)
        requires kept { IsKept self.now.events event }
        requires room { length value.old < conditions.most_weight }
        ensures gathers { Gathers self.now.events (event ∷ []) value.old value.new }
        ensures few { length value.new ≤ length value.old + 1 }
    {
        if self.is_processed(event) {
            if !contains(value, event) {
                let _room = value.push(event);
            }
        }
    }

    // What an event is made of, down to this depth, joins a value.
    fn gather(&self, depth: u32, event: EventId, value: &mut ConditionValue)
        requires kept { IsKept self.now.events event }
        requires light { length value.old + weight_in depth self.now.events event
            ≤ conditions.most_weight }
        ensures gathers { Gathers self.now.events (leaves_in depth self.now.events event)
            value.old value.new }
        ensures few { length value.new
            ≤ length value.old + weight_in depth self.now.events event }
    {
        if depth > 0 {
            if self.is_condition(event) {
                let members = self.members(event);
                for member in members.as_slice() {
                    self.gather(depth - 1, *member, value);
                }
            } else {
                self.add_leaf(event, value);
            }
        }
    }

    // The value that a condition has now.
    fn value(&self, condition: EventId) -> ConditionValue
        requires kept { IsKept self.now.events condition }
        ensures value { (c : Calendar) → Shows self.now c
            → result ≡ conditions.value_of condition c }
    {
        self.tell();
        let mut value = ConditionValue::new();
        self.gather(MOST_WEIGHT as u32 + 1, condition, &mut value);
        value
    }

    // The value of a condition that did not fail is what is processed by now.
    fn fix_value(&mut self, condition: EventId)
        requires kept { IsKept self.old.events condition }
        requires condition { IsSome (kept_at self.old.events condition).event.condition }
        ensures follows { Follows
            (λ c. if events.is_fail (events.event_at c condition).outcome then c
            else conditions.fix_value condition c) self.old self.new }
        ensures spare { self.new.spare ≡ self.old.spare }
    {
        if !self.is_failed(condition) {
            let value = self.value(condition);
            self.set_value(condition, value);
        }
    }

    /// A condition is processed: the checks that are left are taken out, and where it did not fail its value is fixed.
    pub fn build(&mut self, condition: EventId)
        requires kept { IsKept self.old.events condition }
        requires condition { IsSome (kept_at self.old.events condition).event.condition }
        ensures follows { Follows (conditions.build condition) self.old self.new }
        ensures room { KeepsRoom self.old self.new }
    {
        self.take_checks(MOST_WEIGHT as u32 + 1, condition);
        self.fix_value(condition);
    }
}
