//! The items of a store, kept as its kind asks.
ghost use Rattle.std.specs.Prelude.{◌≡◌, ◌+◌, ◌≤◌, [], ◌∷◌, ◌++◌, length, take, IsOk, OnOk, None};
ghost use Rattle.sim_machine.specs.Users.{item_for};
ghost use Rattle.sim_stores.specs.Items.{GivesItemIfAny};
ghost use Rattle.sim_stores.specs.Stocks.{kind_of_stock, items_of_stock, is_filter};
ghost use Rattle.sim_shared_model.specs.Shelves.{store_kind};

use crate::heap::Heap;
use crate::item::Item;
use crate::row::Row;
use sim_shared_model::ShelfKind;
use std::alloc::{AllocError, Global};

/// The items of a store.
#[derive(Drop)]
pub(crate) enum Stock {
    Fifo(Row),
    Priority(Heap),
    Filter(Row),
}

impl Stock {
    pub(crate) fn new(alloc: Global, kind: ShelfKind) -> Stock
        ensures kind { kind_of_stock result ≡ kind }
        ensures items { (items_of_stock result).items ≡ [] }
    {
        match kind {
            ShelfKind::Fifo => Stock::Fifo(Row::new(alloc)),
            ShelfKind::Priority => Stock::Priority(Heap::new(alloc)),
            ShelfKind::Filter => Stock::Filter(Row::new(alloc)),
        }
    }

    pub(crate) fn len(&self) -> u64
        ensures { result ≡ length (items_of_stock self.now).items }
    {
        match self {
            Stock::Fifo(row) | Stock::Filter(row) => row.len(),
            Stock::Priority(heap) => heap.len(),
        }
    }

    pub(crate) fn kind(&self) -> ShelfKind
        ensures { result ≡ kind_of_stock self.now }
    {
        match self {
            Stock::Fifo(_) => ShelfKind::Fifo,
            Stock::Priority(_) => ShelfKind::Priority,
            Stock::Filter(_) => ShelfKind::Filter,
        }
    }

    /// Whether a get that finds no item is passed over, so that later ones are looked at.
    pub(crate) fn is_filter(&self) -> bool
        ensures { result ≡ is_filter (kind_of_stock self.now) }
    {
        match self {
            Stock::Filter(_) => true,
            Stock::Fifo(_) | Stock::Priority(_) => false,
        }
    }

    /// Makes room for so many more items.
    pub(crate) fn reserve(&mut self, more: usize) -> Result<(), AllocError>
        ensures kind { kind_of_stock self.new ≡ kind_of_stock self.old }
        ensures items { (items_of_stock self.new).items ≡ (items_of_stock self.old).items }
        ensures room { OnOk result (more ≤ (items_of_stock self.new).spare) }
        ensures never_less { (items_of_stock self.old).spare ≤ (items_of_stock self.new).spare }
        ensures succeeds { more ≤ (items_of_stock self.old).spare → IsOk result }
    {
        match self {
            Stock::Fifo(row) => row.reserve(more),
            Stock::Priority(heap) => heap.reserve(more),
            Stock::Filter(row) => row.reserve(more),
        }
    }

    /// An item more, behind the others. It takes no memory.
    pub(crate) fn put(&mut self, item: Item)
        requires { 1 ≤ (items_of_stock self.old).spare }
        ensures kind { kind_of_stock self.new ≡ kind_of_stock self.old }
        ensures items { (items_of_stock self.new).items
            ≡ (items_of_stock self.old).items ++ item ∷ [] }
        ensures spare { (items_of_stock self.old).spare ≤ (items_of_stock self.new).spare + 1 }
    {
        match self {
            Stock::Fifo(row) => row.put(item),
            Stock::Priority(heap) => heap.put(item),
            Stock::Filter(row) => row.put(item),
        }
    }

    /// Takes the item out that a get of this range is given, and answers its value. Only a filter store looks at the range.
    /// None of the first `tried` items is one for such a get, and it does not look at them again.
    pub(crate) fn take(&mut self, tried: usize, least: i64, greatest: i64) -> Option<i64>
        requires few { tried ≤ length (items_of_stock self.old).items }
        requires none { let front = take tried (items_of_stock self.old).items in
            item_for (store_kind (kind_of_stock self.old)) least greatest front ≡ None }
        ensures kind { kind_of_stock self.new ≡ kind_of_stock self.old }
        ensures given { let xs = items_of_stock self.old in
            GivesItemIfAny (item_for (store_kind (kind_of_stock self.old)) least greatest xs.items)
            xs result (items_of_stock self.new) }
        ensures spare { (items_of_stock self.old).spare ≤ (items_of_stock self.new).spare }
    {
        match self {
            Stock::Fifo(row) => row.take_first(),
            Stock::Priority(heap) => heap.take_least(),
            Stock::Filter(row) => row.take_within(tried, least, greatest),
        }
    }
}
