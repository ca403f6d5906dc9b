//! The items of a store.
ghost use Rattle.std.specs.Prelude.{◌≡◌};
ghost use Rattle.sim_stores.specs.Items.{is_in_range};

use sim_types::EventId;
use std::marker::Model;

/// An item of a store, with the put that brought it.
#[derive(Drop)]
pub(crate) struct Item {
    put: EventId,
    value: i64,
    priority: i64,
}

impl Model for Item {
    ghost use Rattle.sim_machine.specs.State.{Item as ItemOf};

    ghost Value = { ItemOf };

    ghost view = { λ a. record { put = a.put; value = a.value; priority = a.priority } };
}

impl Item {
    pub(crate) fn new(put: EventId, value: i64, priority: i64) -> Item
        ensures { result ≡ record { put = put; value = value; priority = priority } }
    {
        Item {
            put,
            value,
            priority,
        }
    }

    pub(crate) fn value(&self) -> i64
        ensures { result ≡ self.now.value }
    {
        self.value
    }

    pub(crate) fn priority(&self) -> i64
        ensures { result ≡ self.now.priority }
    {
        self.priority
    }

    /// Whether its value is in a range.
    pub(crate) fn is_in_range(&self, least: i64, greatest: i64) -> bool
        ensures { result ≡ is_in_range least greatest self.now }
    {
        least <= self.value && self.value <= greatest
    }
}
