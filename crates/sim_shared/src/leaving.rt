//! How events leave their queues, and requests their slots (SimPy's cancel, release, and the end of `with`).
ghost use Rattle.std.specs.Prelude.{◌≡◌, ◌↔◌, ◌<◌, ◌≤◌, ◌^◌, [], ◌∷◌, ℕ, length, slice_get, Some, IfNone, IfSome, IsFalse, IsTrue};
ghost use Rattle.std.specs.Option.{is_some};
ghost use Rattle.sim_machine.specs.State.{Facilities};
ghost use Rattle.sim_machine.specs.Requests as requests;
ghost use Rattle.sim_machine.specs.MayAsk.{takes_requests};
ghost use Rattle.sim_machine.specs.Users.{resource_at};
ghost use Rattle.sim_happen_model.specs.TableOf.{IsKept, kept_at};
ghost use Rattle.sim_happen_model.specs.Changes.{more_events, more_callbacks};
ghost use Rattle.sim_happen_model.specs.HappenOf.{IsOpen, KeepsRoom, gone_if_unheld, unheld_event};
ghost use Rattle.sim_shared_model.specs.Measuring.{ChangesOnlyAt};
ghost use Rattle.sim_shared_model.specs.ShowsAll.{ShowsAll, FollowsAll, TurnsAll};
ghost use Rattle.sim_shared_model.specs.Waiting.{AreAllOpen, IsWaitingAt, LeavesRoom, WaitsAtMostAt, gone_if_waits, waits_anywhere, waits_in};
ghost use Rattle.sim_shared.specs.Naming.{tried_by, tried_by_first};

use crate::resource::{cancel, release};
use crate::shared::Shared;
use sim_types::{Callback, EventId, EventKind};

// The resource of which a callback has a queue tried.
fn tried_by(callback: Callback) -> Option<u32>
    ensures { result ≡ tried_by callback }
{
    match callback {
        Callback::TryPut(resource) => Some(resource),
        Callback::TryGet(resource) => Some(resource),
        Callback::Resume(_) => None,
        Callback::Check(_) => None,
        Callback::Build(_) => None,
        Callback::Strike(_) => None,
        Callback::Stop => None,
        Callback::Trigger(_) => None,
    }
}

impl Shared {
    // Where the event waits at this place, it is cancelled. The answer is whether it did.
    fn cancel_at(&mut self, at: usize, event: EventId) -> bool
        requires at { at < length self.old.setup }
        requires open { AreAllOpen self.old }
        ensures waited { result ≡ waits_in event (slice_get self.old.resources at) }
        ensures cancelled { IsTrue result →
            TurnsAll (requests.cancel event) (gone_if_unheld event) self.old self.new }
        ensures same { IsFalse result → self.new ≡ self.old }
        ensures used { self.new.used ≡ self.old.used }
        ensures room { KeepsRoom self.old.happen self.new.happen }
        ensures never_less { self.old.happen.spare.events ≤ self.new.happen.spare.events }
        ensures made { length self.new.happen.events ≡ length self.old.happen.events }
        ensures setup { self.new.setup ≡ self.old.setup }
        ensures touched { ChangesOnlyAt (at ∷ []) self.old self.new }
    {
        if !cancel(&mut self.resources[at], event) {
            return false;
        }
        self.happen.shut(event);
        true
    }

    // The event is cancelled wherever it waits: each resource is searched until it is found. The answer is the place where
    // it waited.
    fn cancel_anywhere(&mut self, event: EventId) -> Option<u32>
        requires open { AreAllOpen self.old }
        ensures waited { is_some result ≡ waits_anywhere event self.old.resources }
        ensures place { IfSome result (λ at. IsWaitingAt event at self.old) }
        ensures shown { (f : Facilities) → ShowsAll self.old f →
            is_some result ≡ requests.waits event f }
        ensures cancelled { TurnsAll (requests.cancel event)
            (gone_if_waits (is_some result) event) self.old self.new }
        ensures same { IfNone result (self.new ≡ self.old) }
        ensures used { self.new.used ≡ self.old.used }
        ensures room { KeepsRoom self.old.happen self.new.happen }
        ensures never_less { self.old.happen.spare.events ≤ self.new.happen.spare.events }
        ensures touched { IfSome result (λ at. ChangesOnlyAt (at ∷ []) self.old self.new) }
    {
        for at in 0..self.resources.len() {
            if self.cancel_at(at, event) {
                return Some(at as u32);
            }
        }
        None
    }

    // Whether the event is kept and pending and was not cancelled.
    fn is_open(&self, event: EventId) -> bool
        ensures { IsTrue result ↔ IsOpen self.now.happen event }
    {
        let table = self.happen.table();
        table.is_kept(event) && table.outcome(event).is_none() && !table.is_cancelled(event)
    }

    // The resource that the first callback of an event names. What waits there has its other queue tried once it is
    // processed, and is made with that callback.
    fn named_resource(&self, event: EventId) -> Option<u32>
        requires kept { IsKept self.now.happen.events event }
        ensures { result ≡ tried_by_first (kept_at self.now.happen.events event).callbacks }
    {
        match self.happen.table().first_callback(event) {
            Some(callback) => tried_by(callback),
            None => None,
        }
    }

    // Where the event waits at this place, it is cancelled, and the place is not searched for what is not open: what waits
    // is. The answer is whether it did.
    fn cancel_open_at(&mut self, at: usize, event: EventId) -> bool
        requires at { at < length self.old.setup }
        requires open { AreAllOpen self.old }
        ensures waited { result ≡ waits_in event (slice_get self.old.resources at) }
        ensures cancelled { IsTrue result →
            TurnsAll (requests.cancel event) (gone_if_unheld event) self.old self.new }
        ensures same { IsFalse result → self.new ≡ self.old }
        ensures used { self.new.used ≡ self.old.used }
        ensures room { KeepsRoom self.old.happen self.new.happen }
        ensures never_less { self.old.happen.spare.events ≤ self.new.happen.spare.events }
        ensures made { length self.new.happen.events ≡ length self.old.happen.events }
        ensures setup { self.new.setup ≡ self.old.setup }
        ensures touched { ChangesOnlyAt (at ∷ []) self.old self.new }
    {
        if !self.is_open(event) {
            return false;
        }
        self.cancel_at(at, event)
    }

    // Where the event waits at the resource that its first callback names, it is cancelled. The answer is the place of that
    // resource.
    fn cancel_named(&mut self, event: EventId) -> Option<u32>
        requires open { AreAllOpen self.old }
        requires kept { IsKept self.old.happen.events event }
        ensures here { (res : ℕ) →
            tried_by_first (kept_at self.old.happen.events event).callbacks ≡ Some res →
            is_some result ≡ waits_in event (slice_get self.old.resources res) }
        ensures waited { IsTrue (is_some result) →
            IsTrue (waits_anywhere event self.old.resources) }
        ensures place { IfSome result (λ at. IsWaitingAt event at self.old) }
        ensures cancelled { IsTrue (is_some result) →
            TurnsAll (requests.cancel event) (gone_if_unheld event) self.old self.new }
        ensures same { IfNone result (self.new ≡ self.old) }
        ensures used { self.new.used ≡ self.old.used }
        ensures room { KeepsRoom self.old.happen self.new.happen }
        ensures never_less { self.old.happen.spare.events ≤ self.new.happen.spare.events }
        ensures touched { IfSome result (λ at. ChangesOnlyAt (at ∷ []) self.old self.new) }
    {
        let res = self.named_resource(event)?;
        let at = res as usize;
        if at >= self.resources.len() {
            return None;
        }
        if self.cancel_at(at, event) {
            return Some(res);
        }
        None
    }

    /// Takes an event out of its queue, and nothing is tried (SimPy's cancel). The answer is the place of the resource
    /// where it waited. What waits is open, and its first callback names the resource, so no other is searched.
    pub fn take_out(&mut self, event: EventId) -> Option<u32>
        requires open { AreAllOpen self.old }
        ensures waited { is_some result ≡ waits_anywhere event self.old.resources }
        ensures place { IfSome result (λ at. IsWaitingAt event at self.old) }
        ensures shown { (f : Facilities) → ShowsAll self.old f →
            is_some result ≡ requests.waits event f }
        ensures cancelled { TurnsAll (requests.cancel event)
            (gone_if_waits (is_some result) event) self.old self.new }
        ensures same { IfNone result (self.new ≡ self.old) }
        ensures used { self.new.used ≡ self.old.used }
        ensures room { KeepsRoom self.old.happen self.new.happen }
        ensures never_less { self.old.happen.spare.events ≤ self.new.happen.spare.events }
        ensures touched { IfSome result (λ at. ChangesOnlyAt (at ∷ []) self.old self.new) }
    {
        if !self.is_open(event) {
            return None;
        }
        if let Some(at) = self.cancel_named(event) {
            return Some(at);
        }
        self.cancel_anywhere(event)
    }

    /// Takes an event out of its queue, and nothing is tried (SimPy's cancel). The answer is whether it waited.
    pub fn cancel(&mut self, event: EventId) -> bool
        requires open { AreAllOpen self.old }
        ensures waited { result ≡ waits_anywhere event self.old.resources }
        ensures shown { (f : Facilities) → ShowsAll self.old f →
            result ≡ requests.waits event f }
        ensures cancelled { TurnsAll (requests.cancel event) (gone_if_waits result event)
            self.old self.new }
        ensures same { IsFalse result → self.new ≡ self.old }
        ensures used { self.new.used ≡ self.old.used }
        ensures room { KeepsRoom self.old.happen self.new.happen }
        ensures never_less { self.old.happen.spare.events ≤ self.new.happen.spare.events }
    {
        self.take_out(event).is_some()
    }

    // The request is a user no longer, where it is one.
    fn end_use(&mut self, res: u32, request: EventId)
        requires res { res < length self.old.setup }
        requires slots { IsTrue (takes_requests (resource_at self.old.setup res).kind) }
        ensures follows { FollowsAll (requests.end_use res request) self.old self.new }
        ensures happen { self.new.happen ≡ self.old.happen }
        ensures used { self.new.used ≡ self.old.used }
        ensures touched { ChangesOnlyAt (res ∷ []) self.old self.new }
    {
        release(&mut self.resources[res as usize], request);
    }

    /// A release of the request is made and served at once: where the request uses a slot of this resource, it does so
    /// no longer. Nothing is tried before the release is processed (SimPy's Resource.release). The answer is the
    /// release.
    pub fn release(&mut self, res: u32, request: EventId) -> EventId
        requires res { res < length self.old.setup }
        requires slots { IsTrue (takes_requests (resource_at self.old.setup res).kind) }
        requires spare_events { 0 < self.old.happen.spare.events }
        requires spare_callbacks { 0 < self.old.happen.spare.callbacks }
        requires number { length self.old.happen.events < 2 ^ 62 }
        ensures id { result.0 ≡ length self.old.happen.events }
        ensures released { TurnsAll (requests.make_release res request) unheld_event
            self.old self.new }
        ensures used { self.new.used ≡ self.old.used }
        ensures spare { more_events 1 (more_callbacks 1 self.new.happen.spare)
            ≡ self.old.happen.spare }
        ensures touched { ChangesOnlyAt (res ∷ []) self.old self.new }
    {
        let event = self.make(EventKind::Release, Callback::TryPut(res));
        self.end_use(res, request);
        self.succeed(event, 0);
        event
    }

    /// A scope is left: a request that still waits is cancelled, and in any case it is released (SimPy's end of
    /// `with`). The answer is the release. A request that was granted is not looked for in the queue.
    pub fn leave(&mut self, res: u32, request: EventId) -> EventId
        requires res { res < length self.old.setup }
        requires slots { IsTrue (takes_requests (resource_at self.old.setup res).kind) }
        requires open { AreAllOpen self.old }
        requires here { WaitsAtMostAt request res self.old }
        requires spare_events { 0 < self.old.happen.spare.events }
        requires spare_callbacks { 0 < self.old.happen.spare.callbacks }
        requires number { length self.old.happen.events < 2 ^ 62 }
        ensures id { result.0 ≡ length self.old.happen.events }
        ensures left { let waited = waits_anywhere request self.old.resources in
            TurnsAll (requests.leave res request)
            (λ hs. unheld_event (gone_if_waits waited request hs)) self.old self.new }
        ensures used { self.new.used ≡ self.old.used }
        ensures room { LeavesRoom self.old.happen self.new.happen }
        ensures touched { ChangesOnlyAt (res ∷ []) self.old self.new }
    {
        let _waited = self.cancel_open_at(res as usize, request);
        self.release(res, request)
    }
}
