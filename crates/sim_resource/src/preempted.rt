//! Requests that are remembered as preempted.
ghost use Rattle.std.specs.Prelude.{◌≡◌, ◌≢◌, ◌≤◌, ◌^◌, IsTrue, slice_set};
ghost use Rattle.sim_types.specs.declared.event.EventId.{EventId};
ghost use Rattle.sim_resource.specs.PreemptedOf.{IsRemembered, place_of_request};

use sim_types::EventId;
use std::alloc::{AllocError, Global};
use std::marker::Model;

/// Requests that were preempted, and are users no longer. Each has the place that the lowest bits of its number name.
/// Requests share places, so each is remembered only until another one comes to its place.
#[derive(Drop)]
pub(crate) struct Preempted {
    // There are none, or as many as a power of two.
    places: Vec<Option<EventId>>,
    // The number of places less one, once there are any.
    lowest_bits: usize,
}

// Where no more users find room than these, all are looked at.
const FEW_USERS: usize = 8;

impl Model for Preempted {
    ghost use Rattle.sim_resource.specs.PreemptedOf.{PreemptedOf};

    ghost Value = { PreemptedOf };

    ghost view = { λ a. record { places = a.places.items; lowest_bits = a.lowest_bits } };
}

impl Preempted {
    /// None is remembered. It takes no memory.
    pub(crate) fn new(alloc: Global) -> Preempted
        ensures { (request : EventId) → IsRemembered result request → ⊥ }
    {
        Preempted {
            places: Vec::new(alloc),
            lowest_bits: 0,
        }
    }

    /// Makes places, two at least for each of these users, unless these are few: between two requests a process mostly makes
    /// another event, so every other number is that of a request. Where there were fewer places, all requests are forgotten.
    pub(crate) fn reserve(&mut self, users: usize) -> Result<(), AllocError>
        requires { users ≤ 2 ^ 63 }
        ensures { (request : EventId) → IsRemembered self.new request
            → IsRemembered self.old request }
    {
        let places = users.next_power_of_two().saturating_mul(2);
        if users <= FEW_USERS || places <= self.places.len() {
            return Ok(());
        }
        self.places.clear();
        self.lowest_bits = places - 1;
        self.places.resize(places, None)
    }

    // The place of a request.
    fn place(&self, request: EventId) -> usize
        ensures { result ≡ place_of_request self.now.lowest_bits request }
    {
        request.0 as usize & self.lowest_bits
    }

    /// Whether a request is remembered.
    pub(crate) fn contains(&self, request: EventId) -> bool
        ensures { IsTrue result → IsRemembered self.now request }
    {
        match self.places.get(self.place(request)) {
            Some(Some(preempted)) => preempted.0 == request.0,
            _ => false,
        }
    }

    // The place of a request has this, if there are places.
    fn set(&mut self, request: EventId, remembered: Option<EventId>)
        ensures { self.new ≡ record self.old {
          places = slice_set self.old.places (place_of_request self.old.lowest_bits request)
              remembered;
        } }
    {
        let place = self.place(request);
        if place < self.places.len() {
            self.places[place] = remembered;
        }
    }

    /// A request is remembered, if there are places.
    pub(crate) fn insert(&mut self, request: EventId)
        ensures { (other : EventId) → IsRemembered self.new other →
            other ≢ request → IsRemembered self.old other }
    {
        self.set(request, Some(request));
    }

    /// A request is not remembered: it is a user.
    pub(crate) fn remove(&mut self, request: EventId)
        ensures { (other : EventId) → IsRemembered self.new other →
            (other ≢ request) × IsRemembered self.old other }
    {
        self.set(request, None);
    }
}
