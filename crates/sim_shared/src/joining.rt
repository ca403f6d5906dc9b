//! How requests, puts and gets are made: each joins its queue and is tried (SimPy's "Shared resources").
ghost use Rattle.std.specs.Prelude.{◌≡◌, ◌↔◌, ◌+◌, ◌<◌, ◌≤◌, ◌^◌, [], ◌∷◌, ◌<ℤ◌, pos, length, Some, None, IsErr, IsFalse, IsTrue, IfOk, OnOk, OnErr};
ghost use Rattle.sim_types.specs.declared.event.EventKind.TheVariants as kinds;
ghost use Rattle.sim_types.specs.declared.event.Callback.TheVariants as callbacks;
ghost use Rattle.sim_machine.specs.State.{Slot, Give, Take, Waiter, Facilities};
ghost use Rattle.sim_machine.specs.Attempts as attempts;
ghost use Rattle.sim_machine.specs.MayAsk.{takes_requests};
ghost use Rattle.sim_machine.specs.Requests as requests;
ghost use Rattle.sim_machine.specs.Users.{resource_at};
ghost use Rattle.sim_happen_model.specs.Changes.{more_events, more_callbacks};
ghost use Rattle.sim_happen_model.specs.HappenOf.{unheld_event};
ghost use Rattle.sim_shared_model.specs.Joining.{IsAbsent, IsJoinedAt};
ghost use Rattle.sim_shared_model.specs.Making.{MakesAll, ShowsSome};
ghost use Rattle.sim_shared_model.specs.Measuring.{ChangesOnlyAt};
ghost use Rattle.sim_shared_model.specs.ShowsAll.{ShowsAll, TurnsAll};
ghost use Rattle.sim_shared_model.specs.Waiting.{AreAllOpen};

use crate::fault::{NotPositive, OwnVictim};
use crate::queues::{add_get, add_put, add_request, is_container, is_preemptive, own_victim};
use crate::shared::Shared;
use sim_types::{Callback, EventId, EventKind, ProcId, RequestKey};

impl Shared {
    // What a request made now waits by.
    fn request_key(&self, res: u32, priority: i64, preempts: bool) -> RequestKey
        requires res { res < length self.now.setup }
        ensures { (f : Facilities) → ShowsAll self.now f →
            let kind = (resource_at self.now.setup res).kind in
            result ≡ requests.request_key kind priority preempts f }
    {
        RequestKey {
            priority,
            time: self.happen.now(),
            wait: is_preemptive(&self.resources[res as usize]) && !preempts,
        }
    }

    // Whether the attempt at the front of the queue would preempt the process itself, if its request joined.
    fn is_own_victim(&self, res: u32, process: ProcId, priority: i64, preempts: bool) -> bool
        requires res { res < length self.now.setup }
        requires slots { IsTrue (takes_requests (resource_at self.now.setup res).kind) }
        ensures { (f : Facilities) → ShowsAll self.now f →
            result ≡ requests.is_own_victim self.now.setup res process priority preempts f }
    {
        let key = self.request_key(res, priority, preempts);
        own_victim(&self.resources[res as usize], key, process)
    }

    // Whether so much can't be put or got, since it is not above 0 at a container.
    fn is_refused_amount(&self, res: u32, amount: i64) -> bool
        requires res { res < length self.now.setup }
        ensures { result ≡ requests.is_refused_amount self.now.setup res amount }
    {
        is_container(&self.resources[res as usize]) && amount < 1
    }

    // A request that was just made waits.
    fn queue_request(&mut self, res: u32, request: EventId, key: RequestKey, process: ProcId)
        requires res { res < length self.old.setup }
        requires slots { IsTrue (takes_requests (resource_at self.old.setup res).kind) }
        requires place { self.old.used ≡ None }
        requires absent { IsAbsent request self.old }
        ensures { let w : Waiter = record { event = request; res = res; want = Slot process key } in
            IsJoinedAt w self.old self.new }
    {
        add_request(&mut self.resources[res as usize], request, key, process);
        self.used = Some(res);
    }

    // A put that was just made waits.
    fn queue_put(&mut self, res: u32, put: EventId, amount: i64, priority: i64)
        requires res { res < length self.old.setup }
        requires stock { IsFalse (takes_requests (resource_at self.old.setup res).kind) }
        requires amount { IsFalse (requests.is_refused_amount self.old.setup res amount) }
        requires place { self.old.used ≡ None }
        requires absent { IsAbsent put self.old }
        ensures { let w : Waiter = record { event = put; res = res; want = Give amount priority } in
            IsJoinedAt w self.old self.new }
    {
        add_put(&mut self.resources[res as usize], put, amount, priority);
        self.used = Some(res);
    }

    // A get that was just made waits.
    fn queue_get(&mut self, res: u32, get: EventId, least: i64, greatest: i64)
        requires res { res < length self.old.setup }
        requires stock { IsFalse (takes_requests (resource_at self.old.setup res).kind) }
        requires amount { IsFalse (requests.is_refused_amount self.old.setup res least) }
        requires place { self.old.used ≡ None }
        requires absent { IsAbsent get self.old }
        ensures { let w : Waiter = record { event = get; res = res; want = Take least greatest } in
            IsJoinedAt w self.old self.new }
    {
        add_get(&mut self.resources[res as usize], get, least, greatest);
        self.used = Some(res);
    }

    // A request is made and waits.
    fn join_request(&mut self, res: u32, process: ProcId, priority: i64, preempts: bool) -> EventId
        requires res { res < length self.old.setup }
        requires slots { IsTrue (takes_requests (resource_at self.old.setup res).kind) }
        requires open { AreAllOpen self.old }
        requires shown { ShowsSome self.old }
        requires place { self.old.used ≡ None }
        requires spare_events { 0 < self.old.happen.spare.events }
        requires spare_callbacks { 0 < self.old.happen.spare.callbacks }
        requires number { length self.old.happen.events < 2 ^ 62 }
        ensures id { result.0 ≡ length self.old.happen.events }
        ensures joined { TurnsAll
            (requests.join_request self.old.setup res process priority preempts)
            unheld_event self.old self.new }
        ensures open { AreAllOpen self.new }
        ensures used { self.new.used ≡ Some res }
        ensures made { length self.new.happen.events ≡ length self.old.happen.events + 1 }
        ensures spare { more_events 1 (more_callbacks 1 self.new.happen.spare)
            ≡ self.old.happen.spare }
        ensures touched { ChangesOnlyAt (res ∷ []) self.old self.new }
    {
        let key = self.request_key(res, priority, preempts);
        let event = self.make(EventKind::Request, Callback::TryGet(res));
        self.queue_request(res, event, key, process);
        event
    }

    // A put is made and waits.
    fn join_put(&mut self, res: u32, amount: i64, priority: i64) -> EventId
        requires res { res < length self.old.setup }
        requires stock { IsFalse (takes_requests (resource_at self.old.setup res).kind) }
        requires amount { IsFalse (requests.is_refused_amount self.old.setup res amount) }
        requires open { AreAllOpen self.old }
        requires shown { ShowsSome self.old }
        requires place { self.old.used ≡ None }
        requires spare_events { 0 < self.old.happen.spare.events }
        requires spare_callbacks { 0 < self.old.happen.spare.callbacks }
        requires number { length self.old.happen.events < 2 ^ 62 }
        ensures id { result.0 ≡ length self.old.happen.events }
        ensures joined { TurnsAll
            (requests.join kinds.Put res (Give amount priority) (callbacks.TryGet res))
            unheld_event self.old self.new }
        ensures open { AreAllOpen self.new }
        ensures used { self.new.used ≡ Some res }
        ensures made { length self.new.happen.events ≡ length self.old.happen.events + 1 }
        ensures spare { more_events 1 (more_callbacks 1 self.new.happen.spare)
            ≡ self.old.happen.spare }
        ensures touched { ChangesOnlyAt (res ∷ []) self.old self.new }
    {
        let event = self.make(EventKind::Put, Callback::TryGet(res));
        self.queue_put(res, event, amount, priority);
        event
    }

    // A get is made and waits.
    fn join_get(&mut self, res: u32, least: i64, greatest: i64) -> EventId
        requires res { res < length self.old.setup }
        requires stock { IsFalse (takes_requests (resource_at self.old.setup res).kind) }
        requires amount { IsFalse (requests.is_refused_amount self.old.setup res least) }
        requires open { AreAllOpen self.old }
        requires shown { ShowsSome self.old }
        requires place { self.old.used ≡ None }
        requires spare_events { 0 < self.old.happen.spare.events }
        requires spare_callbacks { 0 < self.old.happen.spare.callbacks }
        requires number { length self.old.happen.events < 2 ^ 62 }
        ensures id { result.0 ≡ length self.old.happen.events }
        ensures joined { TurnsAll
            (requests.join kinds.Get res (Take least greatest) (callbacks.TryPut res))
            unheld_event self.old self.new }
        ensures open { AreAllOpen self.new }
        ensures used { self.new.used ≡ Some res }
        ensures spare { more_events 1 (more_callbacks 1 self.new.happen.spare)
            ≡ self.old.happen.spare }
        ensures touched { ChangesOnlyAt (res ∷ []) self.old self.new }
    {
        let event = self.make(EventKind::Get, Callback::TryPut(res));
        self.queue_get(res, event, least, greatest);
        event
    }

    /// A request is made and tried (SimPy's Resource.request), unless it would preempt the process itself. The answer is
    /// the request.
    #[inline(always)]
    pub fn request(
        &mut self,
        res: u32,
        process: ProcId,
        priority: i64,
        preempts: bool,
    ) -> Result<EventId, OwnVictim>
        requires res { res < length self.old.setup }
        requires slots { IsTrue (takes_requests (resource_at self.old.setup res).kind) }
        requires open { AreAllOpen self.old }
        requires shown { ShowsSome self.old }
        requires place { self.old.used ≡ None }
        requires spare_events { 2 ≤ self.old.happen.spare.events }
        requires spare_callbacks { 2 ≤ self.old.happen.spare.callbacks }
        requires number { length self.old.happen.events + 1 < 2 ^ 62 }
        ensures refused { (f : Facilities) → ShowsAll self.old f → (IsErr result
            ↔ IsTrue (requests.is_own_victim self.old.setup res process priority preempts f)) }
        ensures id { IfOk result (λ e. e.0 ≡ length self.old.happen.events) }
        ensures ok { OnOk result (MakesAll 2
            (requests.make_request self.old.setup res process priority preempts)
            self.old self.new) }
        ensures used { OnOk result (self.new.used ≡ Some res) }
        ensures err { OnErr result (self.new ≡ self.old) }
        ensures touched { ChangesOnlyAt (res ∷ []) self.old self.new }
    {
        if self.is_own_victim(res, process, priority, preempts) {
            return Err(OwnVictim);
        }
        let event = self.join_request(res, process, priority, preempts);
        self.try_put(res);
        Ok(event)
    }

    /// A put is made and tried (SimPy's Container.put and Store.put), unless its amount is not positive. What is put into
    /// a store is an item of this value and priority, and any value will do. The answer is the put.
    #[inline(always)]
    pub fn put(&mut self, res: u32, amount: i64, priority: i64) -> Result<EventId, NotPositive>
        requires res { res < length self.old.setup }
        requires stock { IsFalse (takes_requests (resource_at self.old.setup res).kind) }
        requires open { AreAllOpen self.old }
        requires shown { ShowsSome self.old }
        requires place { self.old.used ≡ None }
        requires spare_events { 2 ≤ self.old.happen.spare.events }
        requires spare_callbacks { 2 ≤ self.old.happen.spare.callbacks }
        requires number { length self.old.happen.events + 1 < 2 ^ 62 }
        ensures refused { IsErr result
            ↔ IsTrue (requests.is_refused_amount self.old.setup res amount) }
        ensures id { IfOk result (λ e. e.0 ≡ length self.old.happen.events) }
        ensures ok { OnOk result (MakesAll 2
            (requests.make_put self.old.setup res amount priority) self.old self.new) }
        ensures used { OnOk result (self.new.used ≡ Some res) }
        ensures err { OnErr result (self.new ≡ self.old) }
        ensures touched { ChangesOnlyAt (res ∷ []) self.old self.new }
    {
        if self.is_refused_amount(res, amount) {
            return Err(NotPositive);
        }
        let event = self.join_put(res, amount, priority);
        self.try_put(res);
        Ok(event)
    }

    /// A get is made and tried (SimPy's Container.get and Store.get), unless its amount is not positive. From a store an
    /// item is got, from the least to the greatest at a filter store; from a container the least. The answer is the get.
    #[inline(always)]
    pub fn get(&mut self, res: u32, least: i64, greatest: i64) -> Result<EventId, NotPositive>
        requires res { res < length self.old.setup }
        requires stock { IsFalse (takes_requests (resource_at self.old.setup res).kind) }
        requires open { AreAllOpen self.old }
        requires shown { ShowsSome self.old }
        requires place { self.old.used ≡ None }
        requires spare_events { 0 < self.old.happen.spare.events }
        requires spare_callbacks { 0 < self.old.happen.spare.callbacks }
        requires number { length self.old.happen.events < 2 ^ 62 }
        ensures refused { IsErr result
            ↔ IsTrue (requests.is_refused_amount self.old.setup res least) }
        ensures id { IfOk result (λ e. e.0 ≡ length self.old.happen.events) }
        ensures ok { OnOk result (MakesAll 1
            (requests.make_get self.old.setup res least greatest) self.old self.new) }
        ensures used { OnOk result (self.new.used ≡ Some res) }
        ensures err { OnErr result (self.new ≡ self.old) }
        ensures touched { ChangesOnlyAt (res ∷ []) self.old self.new }
    {
        if self.is_refused_amount(res, least) {
            return Err(NotPositive);
        }
        let event = self.join_get(res, least, greatest);
        self.try_get(res);
        Ok(event)
    }
}
