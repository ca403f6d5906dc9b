//! Items in the order put.
ghost use Rattle.std.specs.Prelude.{◌≡◌, ◌+◌, ◌≤◌, [], ◌∷◌, ◌++◌, length, take, drop, IsOk, OnOk, IfSome, None, find};
ghost use Rattle.sim_machine.specs.Users.{first_of_list};
ghost use Rattle.sim_stores.specs.Items.{is_in_range, FindsWithin, GivesItemIfAny};

use crate::item::Item;
use std::alloc::{AllocError, Global};
use std::collections::VecDeque;
use std::marker::Model;

/// The items of a store from which the first is given, or the first in a range: in a row as they were put.
#[derive(Drop)]
pub(crate) struct Row {
    items: VecDeque<Item>,
}

impl Model for Row {
    ghost use Rattle.std.specs.Prelude.{◌-◌};
    ghost use Rattle.std.specs.VecDeque.{deque_len, deque_capacity};
    ghost use Rattle.sim_stores.specs.Items.{ItemsOf};

    ghost Value = { ItemsOf };

    ghost view = { λ a. record {
      items = a.items.items;
      spare = deque_capacity a.items - deque_len a.items;
    } };
}

impl Row {
    pub(crate) fn new(alloc: Global) -> Row
        ensures { result.items ≡ [] }
    {
        Row {
            items: VecDeque::new(alloc),
        }
    }

    pub(crate) fn len(&self) -> u64
        ensures { result ≡ length self.now.items }
    {
        self.items.len() as u64
    }

    /// Makes room for so many more items.
    pub(crate) fn reserve(&mut self, more: usize) -> Result<(), AllocError>
        ensures items { self.new.items ≡ self.old.items }
        ensures room { OnOk result (more ≤ self.new.spare) }
        ensures never_less { self.old.spare ≤ self.new.spare }
        ensures succeeds { more ≤ self.old.spare → IsOk result }
    {
        self.items.reserve(more)
    }

    /// An item more, behind the others. It takes no memory.
    pub(crate) fn put(&mut self, item: Item)
        requires { 1 ≤ self.old.spare }
        ensures items { self.new.items ≡ self.old.items ++ item ∷ [] }
        ensures spare { self.old.spare ≤ self.new.spare + 1 }
    {
        self.items.push_back_reserved(item);
    }

    /// Takes the first item out, and answers its value.
    pub(crate) fn take_first(&mut self) -> Option<i64>
        ensures given { GivesItemIfAny (first_of_list self.old.items) self.old result self.new }
        ensures spare { IfSome result (λ _. self.old.spare + 1 ≤ self.new.spare) }
    {
        let item = self.items.pop_front()?;
        Some(item.value())
    }

    /// Takes the first item out whose value is in a range, and answers its value. None of the first `tried` items is in the
    /// range, and it does not look at them.
    pub(crate) fn take_within(&mut self, tried: usize, least: i64, greatest: i64) -> Option<i64>
        requires few { tried ≤ length self.old.items }
        requires none { find (is_in_range least greatest) (take tried self.old.items) ≡ None }
        ensures given { GivesItemIfAny (find (is_in_range least greatest) self.old.items)
            self.old result self.new }
        ensures spare { IfSome result (λ _. self.old.spare + 1 ≤ self.new.spare) }
    {
        let further = place_within(&self.items, tried, least, greatest)?;
        let at = tried + further;
        let item = self.items.remove(at)?;
        Some(item.value())
    }
}

// Finds the first item, from a place on, whose value is in a range. The answer is its place, counted from there.
fn place_within(items: &VecDeque<Item>, from: usize, least: i64, greatest: i64) -> Option<usize>
    requires { from ≤ length items.now.items }
    ensures { FindsWithin least greatest (drop from items.now.items) result }
{
    items
        .range(from..)
        .position(|item| item.is_in_range(least, greatest))
}
