//! Items of which the least is given first.
ghost use Rattle.std.specs.Prelude.{◌≡◌, ◌+◌, ◌≤◌, ◌<◌, [], ◌∷◌, ◌++◌, length, IsOk, OnOk, Some, refl};
ghost use Rattle.std.specs.Ordering.{eq_by_cmp, as_partial_cmp};
ghost use Rattle.std.specs.Cmp.{eq_by_cmp_equiv, partial_equiv_from_equiv, partial_order_from_total};
ghost use Rattle.sim_machine.specs.Users.{least_item};
ghost use Rattle.sim_stores.specs.Items.{GivesItemIfAny};
ghost use Rattle.sim_stores.specs.RankedItems.{rank_cmp, rank_total};

use crate::item::Item;
use std::alloc::{AllocError, Global};
use std::cmp::Ordering;
use std::collections::BinaryHeap;
use std::marker::Model;

/// An item with the number of its put. The greatest is given first: that of the least priority, among equals that of the
/// least number.
#[derive(Drop)]
pub(crate) struct Ranked {
    item: Item,
    number: u64,
}

impl PartialEq for Ranked {
    ghost eq = { eq_by_cmp rank_cmp };

    ghost laws = { partial_equiv_from_equiv (eq_by_cmp_equiv rank_total) };

    fn eq(&self, other: &Ranked) -> bool {
        self.cmp(other).is_eq()
    }
}

impl Eq for Ranked {
    ghost laws = { eq_by_cmp_equiv rank_total };
}

impl PartialOrd for Ranked {
    ghost partial_cmp = { as_partial_cmp rank_cmp };

    ghost laws = { partial_order_from_total rank_total };

    fn partial_cmp(&self, other: &Ranked) -> Option<Ordering> {
        Some(self.cmp(other))
    }
}

impl Ord for Ranked {
    ghost cmp = { rank_cmp };

    ghost total = { rank_total };

    ghost matches_partial_cmp = { λ x y. refl };

    ghost matches_eq = { λ x y. refl };

    fn cmp(&self, other: &Ranked) -> Ordering {
        let by_priority = other.item.priority().cmp(&self.item.priority());
        by_priority.then(other.number.cmp(&self.number))
    }
}

/// The items of a priority store, as a binary heap. Each has a number that no other ever had, in the order put: so of items
/// with equal priorities the first put is given first.
#[derive(Drop)]
pub(crate) struct Heap {
    ranked: BinaryHeap<Ranked>,
    // The number of the next item.
    next: u64,
}

impl Model for Heap {
    ghost use Rattle.std.specs.Prelude.{◌-◌, ◌^◌, min};
    ghost use Rattle.std.specs.BinaryHeap.{heap_items, heap_len, heap_capacity};
    ghost use Rattle.sim_stores.specs.Items.{ItemsOf};

    ghost Value = { ItemsOf };

    ghost use Rattle.sim_stores.specs.RankedItems.{items_below, IsSoundHeap};

    ghost view = { λ a. record {
      items = items_below a.next (heap_items a.ranked);
      spare = min (heap_capacity a.ranked - heap_len a.ranked) (2 ^ 64 - 1 - a.next);
    } };

    ghost invariant = { λ a. IsSoundHeap (heap_items a.ranked) a.next };
}

impl Heap {
    pub(crate) fn new(alloc: Global) -> Heap
        ensures { result.items ≡ [] }
    {
        Heap {
            ranked: BinaryHeap::new(alloc),
            next: 0,
        }
    }

    pub(crate) fn len(&self) -> u64
        ensures { result ≡ length self.now.items }
    {
        self.ranked.len() as u64
    }

    /// Makes room for so many more items. The numbers are part of the room: once they are used up, which takes longer
    /// than any run, it is as if no memory were found.
    pub(crate) fn reserve(&mut self, more: usize) -> Result<(), AllocError>
        ensures items { self.new.items ≡ self.old.items }
        ensures room { OnOk result (more ≤ self.new.spare) }
        ensures never_less { self.old.spare ≤ self.new.spare }
        ensures succeeds { more ≤ self.old.spare → IsOk result }
    {
        if u64::MAX - self.next < more as u64 {
            return Err(AllocError);
        }
        self.ranked.reserve(more)
    }

    /// An item more. It takes no memory.
    pub(crate) fn put(&mut self, item: Item)
        requires { 1 ≤ self.old.spare }
        ensures items { self.new.items ≡ self.old.items ++ item ∷ [] }
        ensures spare { self.old.spare ≤ self.new.spare + 1 }
    {
        let number = self.next;
        match self.ranked.push(Ranked { item, number }) {
            Ok(()) => self.next = number + 1,
            Err(_) => unreachable!(),
        }
    }

    /// Takes the item out whose priority is least, among equals the first put, and answers its value.
    pub(crate) fn take_least(&mut self) -> Option<i64>
        ensures given { GivesItemIfAny (least_item self.old.items) self.old result self.new }
        ensures spare { self.old.spare ≤ self.new.spare }
    {
        let ranked = self.ranked.pop()?;
        Some(ranked.item.value())
    }
}
