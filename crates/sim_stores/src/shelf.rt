ghost use Rattle.std.specs.Prelude.{◌≡◌, ◌+◌, ◌-◌, ◌≤◌, ℕ, [], ◌∷◌, ◌++◌, length, IsFalse, IsOk, OnOk};
ghost use Rattle.sim_machine.specs.Trying.{get_reach};
ghost use Rattle.sim_shared_model.specs.StoreQueues.{stands_among, looked_at, AllDiffer};
ghost use Rattle.sim_stores.specs.Stocks.{kind_of_stock, items_of_stock};
ghost use Rattle.sim_shared_model.specs.Shelves.{waiting_at_shelf, TriesDeposit, TriesHandOut, shelf_besides, store_kind};
ghost use Rattle.sim_stores.specs.Finding.{FindsGetIfAny};
ghost use Rattle.sim_stores.specs.TriedGets.{IsTried};

use crate::item::Item;
use crate::stock::Stock;
use crate::tried::Tried;
use crate::waiting::leave_queue;
use sim_shared_model::{Served, ShelfKind, WaitingGet, WaitingPut};
use sim_types::EventId;
use std::alloc::{AllocError, Global};
use std::collections::VecDeque;
use std::marker::Model;

/// A store (SimPy's Store, PriorityStore and FilterStore): items, at most as many as its capacity, and the puts and gets
/// that wait at it. A put is served once there is place for its item, a get once there is an item for it.
#[derive(Drop)]
pub struct Shelf {
    puts: VecDeque<WaitingPut>,
    gets: VecDeque<WaitingGet>,
    // It has room for the items of all puts that wait.
    stock: Stock,
    capacity: u64,
    // A try does not look at these gets again with these items.
    tried: Tried,
}

impl Model for Shelf {
    ghost use Rattle.std.specs.Prelude.{◌-◌, ◌≤◌, min};
    ghost use Rattle.std.specs.VecDeque.{deque_len, deque_capacity};
    ghost use Rattle.sim_stores.specs.Stocks.{kind_of_stock, items_of_stock};
    ghost use Rattle.sim_shared_model.specs.Shelves.{ShelfOf};
    ghost use Rattle.sim_stores.specs.Sound.{IsSoundShelf};
    ghost use Rattle.sim_stores.specs.TriedGets.{IsTried};

    ghost Value = { ShelfOf };

    ghost view = { λ a. record {
      kind = kind_of_stock a.stock;
      capacity = a.capacity;
      puts = a.puts.items;
      gets = a.gets.items;
      items = (items_of_stock a.stock).items;
      spare_puts = min (deque_capacity a.puts - deque_len a.puts)
          ((items_of_stock a.stock).spare - deque_len a.puts);
      spare_gets = deque_capacity a.gets - deque_len a.gets;
    } };

    ghost invariant = { λ a.
        IsSoundShelf a.capacity (items_of_stock a.stock).items a.puts.items a.gets.items
        × (deque_len a.puts ≤ (items_of_stock a.stock).spare)
        × IsTried (kind_of_stock a.stock) (items_of_stock a.stock).items a.gets.items a.tried };
}

impl Shelf {
    /// Nobody waits, and there are no items. It takes no memory.
    pub fn new(alloc: Global, kind: ShelfKind, capacity: u64) -> Shelf
        requires { 1 ≤ capacity }
        ensures kind { result.kind ≡ kind }
        ensures capacity { result.capacity ≡ capacity }
        ensures items { result.items ≡ [] }
        ensures puts { result.puts ≡ [] }
        ensures gets { result.gets ≡ [] }
    {
        Shelf {
            puts: VecDeque::new(alloc),
            gets: VecDeque::new(alloc),
            stock: Stock::new(alloc, kind),
            capacity,
            tried: Tried::new(0, 0),
        }
    }

    /// No event waits twice. The call does nothing: it tells what every store has.
    pub fn waiters_differ(&self)
        ensures { AllDiffer (waiting_at_shelf self.now) }
    {
        let _known = &self.puts;
    }

    /// Makes room for one put and one get more, and for the items of all puts that wait.
    pub fn reserve(&mut self) -> Result<(), AllocError>
        ensures put { OnOk result (1 ≤ self.new.spare_puts) }
        ensures get { OnOk result (1 ≤ self.new.spare_gets) }
        ensures never_less_puts { self.old.spare_puts ≤ self.new.spare_puts }
        ensures never_less_gets { self.old.spare_gets ≤ self.new.spare_gets }
        ensures succeeds { 1 ≤ self.old.spare_puts → 1 ≤ self.old.spare_gets → IsOk result }
        ensures rest { self.new ≡ record self.old {
          spare_puts = self.new.spare_puts;
          spare_gets = self.new.spare_gets;
        } }
    {
        self.puts.reserve(1)?;
        self.gets.reserve(1)?;
        self.stock.reserve(self.puts.len() + 1)
    }

    /// A put waits behind the others. It takes no memory.
    pub fn join_put(&mut self, event: EventId, value: i64, priority: i64)
        requires spare { 1 ≤ self.old.spare_puts }
        requires apart { IsFalse (stands_among event (waiting_at_shelf self.old)) }
        ensures { self.new ≡ record self.old {
          puts = self.old.puts ++ record {
            event = event;
            value = value;
            priority = priority;
          } ∷ [];
          spare_puts = self.old.spare_puts - 1;
        } }
    {
        self.puts.push_back_reserved(WaitingPut {
            event,
            value,
            priority,
        });
    }

    /// A get waits behind the others. It takes no memory.
    pub fn join_get(&mut self, event: EventId, least: i64, greatest: i64)
        requires spare { 1 ≤ self.old.spare_gets }
        requires apart { IsFalse (stands_among event (waiting_at_shelf self.old)) }
        ensures { self.new ≡ record self.old {
          gets = self.old.gets ++ record {
            event = event;
            least = least;
            greatest = greatest;
          } ∷ [];
          spare_gets = self.old.spare_gets - 1;
        } }
    {
        self.gets.push_back_reserved(WaitingGet {
            event,
            least,
            greatest,
        });
    }

    /// Serves the first put, if there is place for its item. It takes no memory.
    pub fn try_put(&mut self) -> Option<Served>
        ensures { (res : ℕ) → TriesDeposit res result self.old self.new }
    {
        if self.capacity <= self.stock.len() {
            return None;
        }
        let put = self.puts.pop_front()?;
        self.stock
            .put(Item::new(put.event, put.value, put.priority));
        Some(Served {
            event: put.event,
            value: 0,
        })
    }

    /// Serves a get with the item that it is given: the first get, if there is an item for it; at a filter store the first
    /// for which there is one. It takes no memory.
    pub fn try_get(&mut self) -> Option<Served>
        ensures { (res : ℕ) → TriesHandOut res result self.old self.new }
    {
        let found = take_for_one(&mut self.stock, &self.gets, self.tried);
        let items = self.stock.len() as usize;
        let Some((at, value)) = found else {
            self.tried = Tried::new(most_looked_at(&self.stock, &self.gets), items);
            return None;
        };
        let get = self.gets.remove(at)?;
        self.tried.serve(at, items);
        Some(Served {
            event: get.event,
            value,
        })
    }

    /// Takes a put or get out of its queue. The answer is whether it waited.
    pub fn cancel(&mut self, event: EventId) -> bool
        ensures waited { result ≡ stands_among event (waiting_at_shelf self.old) }
        ensures besides { self.new ≡ record (shelf_besides event self.old) {
          spare_puts = self.new.spare_puts;
          spare_gets = self.new.spare_gets;
        } }
        ensures never_less_puts { self.old.spare_puts ≤ self.new.spare_puts }
        ensures never_less_gets { self.old.spare_gets ≤ self.new.spare_gets }
        ensures same { IsFalse result → self.new ≡ self.old }
    {
        let put = leave_queue(&mut self.puts, event);
        let get = leave_queue(&mut self.gets, event);
        if get {
            self.tried.leave();
        }
        put | get
    }

    /// Which item it gives.
    pub fn kind(&self) -> ShelfKind
        ensures { result ≡ self.now.kind }
    {
        self.stock.kind()
    }

    /// How many items it has: at most as many as the capacity.
    pub fn len(&self) -> u64
        ensures len { result ≡ length self.now.items }
        ensures most { result ≤ self.now.capacity }
    {
        self.stock.len()
    }

    /// How many puts wait, and how many gets (the lengths of SimPy's Store.put_queue and get_queue).
    pub fn waiting(&self) -> (u64, u64)
        ensures puts { result.0 ≡ length self.now.puts }
        ensures gets { result.1 ≡ length self.now.gets }
    {
        (self.puts.len() as u64, self.gets.len() as u64)
    }
}

// How many gets a try looks at.
fn most_looked_at(stock: &Stock, gets: &VecDeque<WaitingGet>) -> usize
    ensures { let reach = get_reach (store_kind (kind_of_stock stock.now)) in
        result ≡ length (looked_at reach gets.now.items) }
{
    if stock.is_filter() {
        gets.len()
    } else {
        gets.len().min(1)
    }
}

// Takes an item out for the first of the gets that a try looks at for which there is one. The answer is the place of that
// get, and the value of the item. It does not look again at what has been tried.
fn take_for_one(
    stock: &mut Stock,
    gets: &VecDeque<WaitingGet>,
    tried: Tried,
) -> Option<(usize, i64)>
    requires { let xs = items_of_stock stock.old in
        IsTried (kind_of_stock stock.old) xs.items gets.now.items tried }
    ensures { FindsGetIfAny gets.now.items stock.old result stock.new }
{
    let most = most_looked_at(stock, gets);
    let first = tried.first_get(stock.len() as usize, most);
    for at in first..most {
        let get = gets[at];
        if let Some(value) = stock.take(tried.items_for(at), get.least, get.greatest) {
            return Some((at, value));
        }
    }
    None
}
