ghost use Rattle.std.specs.Prelude.{◌≡◌, ◌≢◌, ◌↔◌, ◌+◌, ◌<◌, ◌≤◌, ◌&&◌, ℕ, List, [], ◌∷◌, length, true, Some, All, IsTrue, IsFalse, IsOk, OnOk, IfOk, IfSome};
ghost use Rattle.std.specs.List.{list_any};
ghost use Rattle.sim_types.specs.declared.event.EventId.{EventId};
ghost use Rattle.sim_types.specs.declared.event.ProcId.{ProcId};
ghost use Rattle.sim_machine.specs.Events.{is_same};
ghost use Rattle.sim_machine.specs.State.{User};
ghost use Rattle.sim_machine.specs.Users.{in_order, first_of_list, last_served};
ghost use Rattle.sim_machine.specs.Attempts.{grant_of, victim_of, has_free_slot};
ghost use Rattle.sim_machine.specs.Requests.{is_of, is_preemptive, victim_at_first};
ghost use Rattle.sim_shared_model.specs.declared.desk.WaitingRequest.{WaitingRequest};
ghost use Rattle.sim_shared_model.specs.DeskOf.{resource_kind, resource_of, waiting_by, waiters_at, queue_with};
ghost use Rattle.sim_shared_model.specs.Attempts.{NoneIsServed, attempt_of, waiting_but, users_but, serve_first};
ghost use Rattle.sim_resource.specs.SoundDesks.{AreApart};

use crate::key::is_served_first;
use crate::kind::{goes_by_keys, is_preemptive};
use crate::queue::{first_key_with, join, take_out};
use crate::user::User;
use crate::users::Users;
use sim_shared_model::{DeskKind, Grant, WaitingRequest};
use sim_types::{EventId, ProcId, RequestKey};
use std::alloc::{AllocError, Global};
use std::collections::VecDeque;
use std::marker::Model;

/// Slots that requests wait for and use (SimPy's Resource, PriorityResource and PreemptiveResource). It knows neither
/// events nor its own place in a scenario.
#[derive(Drop)]
pub struct Desk {
    kind: DeskKind,
    // How many requests may be users at once.
    capacity: u32,
    // In the order in which they are served.
    queue: VecDeque<WaitingRequest>,
    users: Users,
    // How many more may wait: there is room for them in the queue, and among the users as far as the capacity goes.
    spare: usize,
}

impl Model for Desk {
    ghost use Rattle.std.specs.Prelude.{length};
    ghost use Rattle.std.specs.VecDeque.{deque_len, deque_capacity};
    ghost use Rattle.sim_shared_model.specs.DeskOf.{DeskOf};
    ghost use Rattle.sim_resource.specs.SoundDesks.{IsSoundDesk, HasDeskRoom};

    ghost Value = { DeskOf };

    ghost view = { λ a. record {
      kind = a.kind;
      capacity = a.capacity;
      queue = a.queue.items;
      users = a.users.users;
      spare = a.spare;
    } };

    ghost invariant = { λ a.
        IsSoundDesk a.kind a.capacity a.queue.items a.users
        × HasDeskRoom a.capacity (deque_len a.queue) (length a.users.users) a.spare
        (deque_capacity a.queue) a.users.spare };
}

impl Desk {
    /// Nothing waits and all slots are free. There is room for one to wait.
    pub fn new(alloc: Global, kind: DeskKind, capacity: u32) -> Result<Desk, AllocError>
        requires capacity { 1 ≤ capacity }
        ensures desk { IfOk result (λ d. d ≡ record {
          kind = kind;
          capacity = capacity;
          queue = [];
          users = [];
          spare = d.spare;
        }) }
        ensures room { IfOk result (λ d. 1 ≤ d.spare) }
    {
        let mut desk = Desk {
            kind,
            capacity,
            queue: VecDeque::new(alloc),
            users: Users::new(alloc, is_preemptive(kind)),
            spare: 0,
        };
        desk.reserve()?;
        Ok(desk)
    }

    /// Makes room for one more to wait. All else is as before, whatever the answer.
    pub fn reserve(&mut self) -> Result<(), AllocError>
        ensures room { OnOk result (1 ≤ self.new.spare) }
        ensures never_less { self.old.spare ≤ self.new.spare }
        ensures succeeds { 1 ≤ self.old.spare → IsOk result }
        ensures kept { self.new ≡ record self.old { spare = self.new.spare } }
    {
        if self.spare > 0 {
            return Ok(());
        }
        self.queue.reserve(1)?;
        let free = self.capacity as usize - self.users.len();
        self.users.reserve(free.min(self.queue.len() + 1))?;
        self.spare = 1;
        Ok(())
    }

    /// No request waits twice or is a user twice, and none does both.
    pub fn requests_are_apart(&self)
        ensures { AreApart self.now.queue self.now.users }
    {
        let _known = &self.queue;
    }

    /// The queue stands in the order in which the machine serves.
    pub fn queue_is_in_order(&self)
        ensures { (res : ℕ) → in_order (resource_kind self.now.kind) (waiters_at res self.now.queue)
            ≡ waiters_at res self.now.queue }
    {
        let _known = &self.queue;
    }

    /// Whether a request may take the slot of a user.
    pub fn is_preemptive(&self) -> bool
        ensures { result ≡ is_preemptive (resource_kind self.now.kind) }
    {
        is_preemptive(self.kind)
    }

    /// How many requests are users (SimPy's Resource.count).
    pub fn count(&self) -> u32
        ensures users { result ≡ length self.now.users }
        ensures within { result ≤ self.now.capacity }
    {
        // no more than these, so that the number fits
        let _known = self.capacity;
        self.users.len() as u32
    }

    /// How many requests wait (the length of SimPy's Resource.queue).
    pub fn waiting(&self) -> u64
        ensures { result ≡ length self.now.queue }
    {
        self.queue.len() as u64
    }

    // The next to be served.
    fn first(&self) -> Option<WaitingRequest>
        ensures { result ≡ first_of_list self.now.queue }
    {
        self.queue.front().copied()
    }

    // Whether fewer requests are users than may be.
    fn has_free_slot(&self) -> bool
        ensures { result ≡ has_free_slot (resource_of self.now) self.now.users }
    {
        self.users.len() < self.capacity as usize
    }

    // The user whose slot a request of this key is given, where it is given one that is in use.
    fn victim_of(&self, key: RequestKey) -> Option<User>
        ensures victim { result
            ≡ victim_of (grant_of (resource_of self.now) key self.now.users) }
        ensures last { IfSome result (λ u. last_served self.now.users ≡ Some u) }
    {
        if self.has_free_slot() || !is_preemptive(self.kind) || key.wait {
            return None;
        }
        match self.users.last_served() {
            Some(user) if is_served_first(key, user.key()) => Some(user),
            _ => None,
        }
    }

    // The user whose slot the first that waits is given, once one more of this key waits.
    fn victim_with(&self, key: RequestKey) -> Option<User>
        ensures { (res : ℕ) (request : EventId) (process : ProcId) →
            result ≡ victim_at_first (resource_of self.now)
            (queue_with res (waiting_by request key process) self.now) self.now.users }
    {
        let first = first_key_with(&self.queue, goes_by_keys(self.kind), key);
        self.victim_of(first)
    }

    /// Whether the next attempt would preempt a user of this process, if a request of this key joined. The attempt is at
    /// the first that waits then, which may be an older request (this project's own: SimPy raises in the midst of it).
    pub fn own_victim(&self, key: RequestKey, process: ProcId) -> bool
        ensures { (res : ℕ) (request : EventId) →
            result ≡ is_of process (victim_at_first (resource_of self.now)
            (queue_with res (waiting_by request key process) self.now) self.now.users) }
    {
        match self.victim_with(key) {
            Some(victim) => victim.process().0 == process.0,
            None => false,
        }
    }

    /// A request waits. It stands behind all that wait by a key that is not greater; at a plain desk behind all (SimPy's
    /// Resource.request).
    pub fn join(&mut self, request: EventId, key: RequestKey, process: ProcId)
        requires room { 1 ≤ self.old.spare }
        requires not_waiting { All (λ w. w.request ≢ request) self.old.queue }
        requires no_user { All (λ u. u.request ≢ request) self.old.users }
        ensures queue { (res : ℕ) →
            waiters_at res self.new.queue
            ≡ queue_with res (waiting_by request key process) self.old }
        ensures rest { self.new
            ≡ record self.old { queue = self.new.queue; spare = self.new.spare } }
        ensures spare { self.new.spare + 1 ≡ self.old.spare }
    {
        let waiting = WaitingRequest {
            request,
            key,
            process,
        };
        join(&mut self.queue, goes_by_keys(self.kind), waiting);
        self.spare -= 1;
    }

    // The first that waits is a user since now.
    fn serve_first(&mut self, now: i64)
        requires waits { 0 < length self.old.queue }
        requires slot { length self.old.users < self.old.capacity }
        ensures serves { (w : WaitingRequest) (rest : List WaitingRequest) →
            self.old.queue ≡ w ∷ rest →
            self.new ≡ record (serve_first w rest self.old.users now self.old) {
              spare = self.new.spare;
            } }
        ensures never_less { self.old.spare ≤ self.new.spare }
    {
        if let Some(first) = self.queue.pop_front() {
            self.users.put(User::new(first, now));
        }
    }

    // The user who is preempted first is a user no longer.
    fn preempt(&mut self)
        requires preemptive { IsTrue (is_preemptive (resource_kind self.old.kind)) }
        requires some { 0 < length self.old.users }
        ensures others { (u : User) → last_served self.old.users ≡ Some u →
            self.new ≡ record self.old {
              users = users_but u.request self.old.users;
              spare = self.new.spare;
            } }
        ensures slot { length self.new.users < self.new.capacity }
        ensures never_less { self.old.spare ≤ self.new.spare }
    {
        self.users.remove_last_served();
    }

    /// The first that waits is tried: it is a user since now, where a slot is free, or where it preempts and its key comes
    /// before the greatest of the users; of those with that key the last granted is preempted (SimPy's
    /// PreemptiveResource). It takes no memory.
    pub fn attempt(&mut self, now: i64) -> Grant
        ensures answer { result ≡ (attempt_of now self.old).answer }
        ensures desk { self.new ≡ record ((attempt_of now self.old).desk) {
          spare = self.new.spare;
        } }
        ensures none { (result ≡ Grant.None) ↔ NoneIsServed self.old }
        ensures kept { (result ≡ Grant.None) → self.new ≡ self.old }
        ensures never_less { self.old.spare ≤ self.new.spare }
    {
        let Some(first) = self.first() else {
            return Grant::None;
        };
        if self.has_free_slot() {
            self.serve_first(now);
            return Grant::Granted {
                request: first.request,
            };
        }
        let Some(victim) = self.victim_of(first.key) else {
            return Grant::None;
        };
        self.preempt();
        self.serve_first(now);
        Grant::Preempted {
            request: first.request,
            victim: victim.request(),
            process: victim.process(),
            since: victim.since(),
        }
    }

    /// A request waits no longer. Whether it did.
    pub fn leave(&mut self, request: EventId) -> bool
        ensures waited { result ≡ list_any (λ w. is_same w.request request) self.old.queue }
        ensures desk { self.new ≡ record self.old {
          queue = waiting_but request self.old.queue;
          spare = self.new.spare;
        } }
        ensures spare { IsTrue result → self.new.spare ≡ self.old.spare + 1 }
        ensures kept { IsFalse result → self.new ≡ self.old }
    {
        let waited = take_out(&mut self.queue, request);
        if waited {
            self.spare += 1;
        }
        waited
    }

    /// A request is a user no longer. Whether it was (SimPy's Resource.release).
    pub fn release(&mut self, request: EventId) -> bool
        ensures used { result ≡ list_any (λ u. is_same u.request request) self.old.users }
        ensures desk { self.new ≡ record self.old {
          users = users_but request self.old.users;
          spare = self.new.spare;
        } }
        ensures never_less { self.old.spare ≤ self.new.spare }
        ensures kept { IsFalse result → self.new ≡ self.old }
    {
        self.users.remove(request)
    }
}
