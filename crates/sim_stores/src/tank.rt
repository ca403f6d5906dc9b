ghost use Rattle.std.specs.Prelude.{◌≡◌, ◌+◌, ◌-◌, ◌≤◌, ℕ, pos, ◌≤ℤ◌, ◌<ℤ◌, [], ◌∷◌, ◌++◌, length, All, IfSome, IsFalse, IsOk, OnOk};
ghost use Rattle.sim_types.specs.Limits.{most_level};
ghost use Rattle.std.specs.VecDeque.{deque_len, deque_capacity};
ghost use Rattle.sim_shared_model.specs.StoreQueues.{stands_among, AllDiffer};
ghost use Rattle.sim_stores.specs.Queues.{PopsIfWithin};
ghost use Rattle.sim_shared_model.specs.Tanks.{waiting_at_tank, TriesFill, TriesDrain, tank_besides};

use crate::waiting::leave_queue;
use sim_shared_model::{Served, WaitingAmount};
use sim_types::EventId;
use std::alloc::{AllocError, Global};
use std::collections::VecDeque;
use std::marker::Model;

/// A container (SimPy's Container): a level, from 0 to its capacity, and the puts and gets that wait at it. A put is served
/// once its amount fits, a get once so much is there. None is served before one that came earlier.
#[derive(Drop)]
pub struct Tank {
    puts: VecDeque<WaitingAmount>,
    gets: VecDeque<WaitingAmount>,
    level: i64,
    capacity: i64,
}

impl Model for Tank {
    ghost use Rattle.std.specs.Prelude.{◌-◌};
    ghost use Rattle.std.specs.VecDeque.{deque_len, deque_capacity};
    ghost use Rattle.sim_shared_model.specs.Tanks.{TankOf};
    ghost use Rattle.sim_stores.specs.Sound.{IsSoundTank};

    ghost Value = { TankOf };

    ghost view = { λ a. record {
      capacity = a.capacity;
      puts = a.puts.items;
      gets = a.gets.items;
      level = a.level;
      spare_puts = deque_capacity a.puts - deque_len a.puts;
      spare_gets = deque_capacity a.gets - deque_len a.gets;
    } };

    ghost invariant = { λ a. IsSoundTank a.capacity a.level a.puts.items a.gets.items };
}

impl Tank {
    /// Nobody waits, and it holds what it opens with. It takes no memory.
    pub fn new(alloc: Global, capacity: i64, opening: i64) -> Tank
        requires some { pos 1 ≤ℤ capacity }
        requires most { capacity ≤ℤ most_level }
        requires low { pos 0 ≤ℤ opening }
        requires high { opening ≤ℤ capacity }
        ensures capacity { result.capacity ≡ capacity }
        ensures level { result.level ≡ opening }
        ensures puts { result.puts ≡ [] }
        ensures gets { result.gets ≡ [] }
    {
        Tank {
            puts: VecDeque::new(alloc),
            gets: VecDeque::new(alloc),
            level: opening,
            capacity,
        }
    }

    /// No event waits twice. The call does nothing: it tells what every container has.
    pub fn waiters_differ(&self)
        ensures { AllDiffer (waiting_at_tank self.now) }
    {
        let _known = &self.puts;
    }

    /// All amounts that wait are above 0. The call does nothing: it tells what every container has.
    pub fn amounts_are_positive(&self)
        ensures put { All (λ w. pos 0 <ℤ w.amount) self.now.puts }
        ensures got { All (λ w. pos 0 <ℤ w.amount) self.now.gets }
    {
        let _known = &self.puts;
    }

    /// Makes room for one put and one get more.
    pub fn reserve(&mut self) -> Result<(), AllocError>
        ensures put { OnOk result (1 ≤ self.new.spare_puts) }
        ensures get { OnOk result (1 ≤ self.new.spare_gets) }
        ensures never_less_puts { self.old.spare_puts ≤ self.new.spare_puts }
        ensures never_less_gets { self.old.spare_gets ≤ self.new.spare_gets }
        ensures succeeds { 1 ≤ self.old.spare_puts → 1 ≤ self.old.spare_gets → IsOk result }
        ensures rest { self.new ≡ record self.old {
          spare_puts = self.new.spare_puts;
          spare_gets = self.new.spare_gets;
        } }
    {
        self.puts.reserve(1)?;
        self.gets.reserve(1)
    }

    /// A put waits behind the others. It takes no memory.
    pub fn join_put(&mut self, event: EventId, amount: i64)
        requires spare { 1 ≤ self.old.spare_puts }
        requires amount { pos 0 <ℤ amount }
        requires apart { IsFalse (stands_among event (waiting_at_tank self.old)) }
        ensures { self.new ≡ record self.old {
          puts = self.old.puts ++ record { event = event; amount = amount } ∷ [];
          spare_puts = self.old.spare_puts - 1;
        } }
    {
        self.puts
            .push_back_reserved(WaitingAmount { event, amount });
    }

    /// A get waits behind the others. It takes no memory.
    pub fn join_get(&mut self, event: EventId, amount: i64)
        requires spare { 1 ≤ self.old.spare_gets }
        requires amount { pos 0 <ℤ amount }
        requires apart { IsFalse (stands_among event (waiting_at_tank self.old)) }
        ensures { self.new ≡ record self.old {
          gets = self.old.gets ++ record { event = event; amount = amount } ∷ [];
          spare_gets = self.old.spare_gets - 1;
        } }
    {
        self.gets
            .push_back_reserved(WaitingAmount { event, amount });
    }

    /// Serves the first put, if its amount fits. It takes no memory.
    pub fn try_put(&mut self) -> Option<Served>
        ensures { (res : ℕ) → TriesFill res result self.old self.new }
    {
        // level and amount together may be more than fits a number
        let put = pop_within(&mut self.puts, self.capacity - self.level)?;
        self.level += put.amount;
        Some(Served {
            event: put.event,
            value: 0,
        })
    }

    /// Serves the first get, if so much is there. It takes no memory.
    pub fn try_get(&mut self) -> Option<Served>
        ensures { (res : ℕ) → TriesDrain res result self.old self.new }
    {
        let get = pop_within(&mut self.gets, self.level)?;
        self.level -= get.amount;
        Some(Served {
            event: get.event,
            value: 0,
        })
    }

    /// Takes a put or get out of its queue. The answer is whether it waited.
    pub fn cancel(&mut self, event: EventId) -> bool
        ensures waited { result ≡ stands_among event (waiting_at_tank self.old) }
        ensures besides { self.new ≡ record (tank_besides event self.old) {
          spare_puts = self.new.spare_puts;
          spare_gets = self.new.spare_gets;
        } }
        ensures never_less_puts { self.old.spare_puts ≤ self.new.spare_puts }
        ensures never_less_gets { self.old.spare_gets ≤ self.new.spare_gets }
        ensures same { IsFalse result → self.new ≡ self.old }
    {
        let put = leave_queue(&mut self.puts, event);
        let get = leave_queue(&mut self.gets, event);
        put | get
    }

    /// How much it holds: from 0 to the capacity.
    pub fn level(&self) -> i64
        ensures level { result ≡ self.now.level }
        ensures low { pos 0 ≤ℤ result }
        ensures high { result ≤ℤ self.now.capacity }
    {
        self.level
    }

    /// How many puts wait, and how many gets (the lengths of SimPy's Container.put_queue and get_queue).
    pub fn waiting(&self) -> (u64, u64)
        ensures puts { result.0 ≡ length self.now.puts }
        ensures gets { result.1 ≡ length self.now.gets }
    {
        (self.puts.len() as u64, self.gets.len() as u64)
    }
}

// Takes the first out of a queue, if its amount is at most so much.
fn pop_within(queue: &mut VecDeque<WaitingAmount>, most: i64) -> Option<WaitingAmount>
    ensures pops { PopsIfWithin most queue.old.items result queue.new.items }
    ensures len { IfSome result (λ _. deque_len queue.new + 1 ≡ deque_len queue.old) }
    ensures capacity { deque_capacity queue.new ≡ deque_capacity queue.old }
{
    let first = queue.front()?;
    if most < first.amount {
        return None;
    }
    queue.pop_front()
}
