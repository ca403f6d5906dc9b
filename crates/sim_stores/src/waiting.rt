//! Who waits at a container or a store, and who was served.
ghost use Rattle.std.specs.Prelude.{◌≡◌, ◌<◌, ◌≤◌, map, length, HoldsAt, IsFalse};
ghost use Rattle.std.specs.List.{list_any};
ghost use Rattle.std.specs.VecDeque.{deque_len, deque_capacity};
ghost use Rattle.sim_machine.specs.Events.{is_same};
ghost use Rattle.sim_types.specs.declared.event.EventId.{EventId};
ghost use Rattle.sim_shared_model.specs.StoreQueues.{AllDiffer, besides};
ghost use Rattle.sim_stores.specs.Queues.{IsPlaceOf};

use sim_places::find_place;
use sim_shared_model::{WaitingAmount, WaitingGet, WaitingPut};
use sim_types::EventId;
use std::collections::VecDeque;

/// What waits, and is known by its event.
pub(crate) trait Waits: Drop {
    ghost event_of: { Self → EventId };

    fn event(&self) -> EventId
        ensures { result ≡ event_of self.now };
}

impl Waits for WaitingAmount {
    ghost event_of = { λ w. w.event };

    fn event(&self) -> EventId {
        self.event
    }
}

impl Waits for WaitingPut {
    ghost event_of = { λ w. w.event };

    fn event(&self) -> EventId {
        self.event
    }
}

impl Waits for WaitingGet {
    ghost event_of = { λ w. w.event };

    fn event(&self) -> EventId {
        self.event
    }
}

// The place of what waits for an event. The numbers of events rise where the queue is in the order of arrival.
fn place_of<W: Waits>(queue: &VecDeque<W>, event: EventId) -> Option<usize>
    ensures { IsPlaceOf W.event_of event queue.now.items result }
{
    find_place(
        queue.len(),
        |place: usize| -> bool
            requires { place < length queue.now.items }
        { queue[place].event().0 < event.0 },
        |place: usize| -> bool
            requires { place < length queue.now.items }
            ensures { HoldsAt (λ w. result ≡ is_same (W.event_of w) event)
                queue.entry.now.items place }
        { queue[place].event() == event },
    )
}

/// Takes what waits for an event out of a queue. The answer is whether it stood there.
pub(crate) fn leave_queue<W: Waits>(queue: &mut VecDeque<W>, event: EventId) -> bool
    requires apart { AllDiffer (map W.event_of queue.old.items) }
    ensures waited { result ≡ list_any (λ w. is_same (W.event_of w) event) queue.old.items }
    ensures besides { queue.new.items ≡ besides W.event_of event queue.old.items }
    ensures same { IsFalse result → queue.new.items ≡ queue.old.items }
    ensures same_len { IsFalse result → deque_len queue.new ≡ deque_len queue.old }
    ensures len { deque_len queue.new ≤ deque_len queue.old }
    ensures capacity { deque_capacity queue.new ≡ deque_capacity queue.old }
{
    match place_of(queue, event) {
        Some(place) => {
            queue.remove(place);
            true
        }
        None => false,
    }
}
