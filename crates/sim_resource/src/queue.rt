//! The queue of a desk, in the order in which requests are served.
ghost use Rattle.std.specs.Prelude.{◌≡◌, ◌≢◌, ◌<◌, ◌≤◌, ◌==◌, true, false, not, length, AllPairs, HoldsAt, IsTrue, IsFalse, ◌+◌};
ghost use Rattle.std.specs.List.{list_any, position};
ghost use Rattle.std.specs.List.Sorted.{IsPartitionPoint};
ghost use Rattle.std.specs.VecDeque.{deque_len, deque_capacity};
ghost use Rattle.sim_machine.specs.Events.{is_same};
ghost use Rattle.sim_shared_model.specs.Attempts.{waiting_but};
ghost use Rattle.sim_resource.specs.QueueOrder as order;
ghost use Rattle.sim_shared_model.specs.Sorting.{IsInOrderBy, put_behind};
ghost use Rattle.sim_resource.specs.QueueOrder.{queue_joined, waits_before};
ghost use Rattle.sim_machine.specs.Keys as keys;

use crate::key::is_served_first;
use sim_places::find_place;
use sim_shared_model::WaitingRequest;
use sim_types::{EventId, ProcId, RequestKey};
use std::collections::VecDeque;

// How many waiters a request of this key does not come before: they stand before all others.
fn place_of_key(queue: &VecDeque<WaitingRequest>, key: RequestKey) -> usize
    requires { IsInOrderBy waits_before queue.now.items }
    ensures within { result ≤ length queue.now.items }
    ensures place { IsPartitionPoint (λ w. keys.is_served_first key w.key ≡ false)
        (λ w. keys.is_served_first key w.key ≡ true) queue.now.items result }
{
    queue.partition_point(
        |waiting: &WaitingRequest| -> bool
            ensures { result ≡ not (keys.is_served_first key waiting.now.key) }
        { !is_served_first(key, waiting.key) },
    )
}

// One more waits, by its key.
fn put_by_key(queue: &mut VecDeque<WaitingRequest>, waiting: WaitingRequest)
    requires in_order { IsInOrderBy waits_before queue.old.items }
    requires room { deque_len queue.old < deque_capacity queue.old }
    ensures put { queue.new.items ≡ put_behind waits_before waiting queue.old.items }
    ensures len { deque_len queue.new ≡ deque_len queue.old + 1 }
    ensures capacity { deque_capacity queue.old ≤ deque_capacity queue.new }
{
    let place = place_of_key(queue, waiting.key);
    match queue.insert(place, waiting) {
        Ok(()) => {}
        Err(_) => unreachable!(),
    }
}

/// One more waits, by its key or behind all others.
pub(crate) fn join(queue: &mut VecDeque<WaitingRequest>, by_keys: bool, waiting: WaitingRequest)
    requires in_order { IsTrue by_keys → IsInOrderBy waits_before queue.old.items }
    requires room { deque_len queue.old < deque_capacity queue.old }
    ensures joined { queue.new.items ≡ queue_joined by_keys waiting queue.old.items }
    ensures len { deque_len queue.new ≡ deque_len queue.old + 1 }
    ensures capacity { deque_capacity queue.old ≤ deque_capacity queue.new }
{
    if by_keys {
        put_by_key(queue, waiting);
    } else {
        queue.push_back_reserved(waiting);
    }
}

/// The key of the first that waits, once one more of this key waits.
pub(crate) fn first_key_with(
    queue: &VecDeque<WaitingRequest>,
    by_keys: bool,
    key: RequestKey,
) -> RequestKey
    ensures { result ≡ order.first_key_with by_keys key queue.now.items }
{
    match queue.front() {
        Some(first) => {
            if by_keys && is_served_first(key, first.key) {
                key
            } else {
                first.key
            }
        }
        None => key,
    }
}

// The place of a request in the queue. The numbers of requests rise where the queue is in the order of arrival.
fn place_of(queue: &VecDeque<WaitingRequest>, request: EventId) -> Option<usize>
    requires apart { AllPairs (λ v w. v.request ≢ w.request) queue.now.items }
    ensures { result ≡ position (λ w. is_same w.request request) queue.now.items }
{
    find_place(
        queue.len(),
        |place: usize| -> bool
            requires { place < length queue.now.items }
        { queue[place].request.0 < request.0 },
        |place: usize| -> bool
            requires { place < length queue.now.items }
            ensures { HoldsAt (λ w. result ≡ (w.request.0 == request.0))
                queue.entry.now.items place }
        { queue[place].request.0 == request.0 },
    )
}

/// A request waits no longer. Whether it did.
pub(crate) fn take_out(queue: &mut VecDeque<WaitingRequest>, request: EventId) -> bool
    requires apart { AllPairs (λ v w. v.request ≢ w.request) queue.old.items }
    ensures waited { result ≡ list_any (λ w. is_same w.request request) queue.old.items }
    ensures others { queue.new.items ≡ waiting_but request queue.old.items }
    ensures fewer { IsTrue result → deque_len queue.new + 1 ≡ deque_len queue.old }
    ensures kept { IsFalse result → queue.new ≡ queue.old }
    ensures capacity { deque_capacity queue.new ≡ deque_capacity queue.old }
{
    match place_of(queue, request) {
        Some(place) => {
            queue.remove(place);
            true
        }
        None => false,
    }
}
