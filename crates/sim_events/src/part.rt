ghost use Rattle.std.specs.Prelude.{◌≡◌, ◌+◌, ◌<◌, length, if◌then◌else◌};
ghost use Rattle.std.specs.List.{list_any};
ghost use Rattle.sim_machine.specs.State.{Every, Either};
ghost use Rattle.sim_machine.specs.Events.{is_same};
ghost use Rattle.sim_machine.specs.Conditions.{is_met};
ghost use Rattle.sim_happen_model.specs.TableOf.{uncounted};

use sim_types::{EventId, Few, Members};
use std::marker::Model;

/// No condition weighs more, itself and all its members counted.
pub const MOST_WEIGHT: usize = 64;

/// The events of a condition's value (SimPy's ConditionValue), each of which weighs 1.
pub type ConditionValue = Few<EventId, MOST_WEIGHT>;

/// What an event has as a condition.
#[derive(Drop)]
pub(crate) struct Part {
    // Whether it waits for all of its members, and not for one.
    for_all: bool,
    count: usize,
    members: Members,
    value: ConditionValue,
}

impl Model for Part {
    ghost use Rattle.std.specs.Prelude.{if◌then◌else◌};
    ghost use Rattle.sim_machine.specs.State.{Every, Either, ConditionOf};

    ghost Value = { ConditionOf };

    ghost view = { λ a. record {
      sort = if a.for_all then Every else Either;
      members = a.members;
      count = a.count;
      value = a.value;
    } };
}

impl Part {
    /// None of the members was counted.
    pub(crate) fn new(for_all: bool, members: Members) -> Part
        ensures { result ≡ uncounted (if for_all then Every else Either) members }
    {
        Part {
            for_all,
            count: 0,
            members,
            value: ConditionValue::new(),
        }
    }

    pub(crate) fn members(&self) -> Members
        ensures { result ≡ self.now.members }
    {
        self.members.copied()
    }

    /// Whether it is met, where a member was just counted.
    pub(crate) fn is_met(&self) -> bool
        ensures { result ≡ is_met self.now }
    {
        if self.for_all {
            self.count == self.members.as_slice().len()
        } else {
            true
        }
    }

    /// One member more is counted.
    pub(crate) fn count_member(&mut self)
        requires { self.old.count < length self.old.members }
        ensures { self.new ≡ record self.old { count = self.old.count + 1 } }
    {
        let _known = self.members.as_slice();
        self.count += 1;
    }

    /// Its value is these events.
    pub(crate) fn fix_value(&mut self, value: ConditionValue)
        ensures { self.new ≡ record self.old { value = value } }
    {
        self.value = value;
    }

    /// Whether an event stands in its value.
    pub(crate) fn has_in_value(&self, event: EventId) -> bool
        ensures { result ≡ list_any (is_same event) self.now.value }
    {
        self.value.as_slice().iter().any(|leaf| event.0 == leaf.0)
    }
}
