//! What there is to ask of a resource of any kind before one more waits at it, and how it does.
ghost use Rattle.std.specs.Prelude.{◌≡◌, ◌<ℤ◌, pos, ℕ, List, IsFalse, IsTrue};
ghost use Rattle.sim_types.specs.declared.event.EventId.{EventId};
ghost use Rattle.sim_types.specs.declared.setup.Resource.{Resource};
ghost use Rattle.sim_machine.specs.State.{Slot, Give, Take, Waiter, Facilities};
ghost use Rattle.sim_machine.specs.Attempts as attempts;
ghost use Rattle.sim_machine.specs.MayAsk.{takes_requests};
ghost use Rattle.sim_machine.specs.Requests as requests;
ghost use Rattle.sim_machine.specs.Users.{resource_at, users, put_queue};
ghost use Rattle.sim_shared_model.specs.Joining.{IsAbsentAt, IsJoined, with_waiter};
ghost use Rattle.sim_shared_model.specs.Resources.{HasPlace, declared_as, without_opening};
ghost use Rattle.sim_shared_model.specs.ShowsAll.{ShowsAt};

use crate::resource::SharedResource;
use sim_types::{EventId, ProcId, RequestKey};

/// Whether a request may take the slot of a user.
pub(crate) fn is_preemptive(resource: &SharedResource) -> bool
    ensures { result ≡ requests.is_preemptive (declared_as resource.now).kind }
{
    match resource {
        SharedResource::Desk(desk) => desk.is_preemptive(),
        SharedResource::Tank(_) => false,
        SharedResource::Shelf(_) => false,
    }
}

/// Whether requests wait at it, and neither puts nor gets.
pub(crate) fn is_desk(resource: &SharedResource) -> bool
    ensures { result ≡ takes_requests (declared_as resource.now).kind }
{
    match resource {
        SharedResource::Desk(_) => true,
        SharedResource::Tank(_) => false,
        SharedResource::Shelf(_) => false,
    }
}

/// Whether it is a container.
pub(crate) fn is_container(resource: &SharedResource) -> bool
    ensures { result ≡ attempts.is_container (declared_as resource.now).kind }
{
    match resource {
        SharedResource::Desk(_) => false,
        SharedResource::Tank(_) => true,
        SharedResource::Shelf(_) => false,
    }
}

/// Whether the next attempt at a request would preempt a user of this process, if a request of this key joined.
pub(crate) fn own_victim(resource: &SharedResource, key: RequestKey, process: ProcId) -> bool
    requires { IsTrue (takes_requests (declared_as resource.now).kind) }
    ensures { (rs : List Resource) (res : ℕ) (event : EventId) (f : Facilities) →
        declared_as resource.now ≡ without_opening (resource_at rs res) →
        ShowsAt rs res resource.now f →
        let w : Waiter = record { event = event; res = res; want = Slot process key } in
        result ≡ requests.is_of process (requests.victim_at_first (resource_at rs res)
        (put_queue rs res (with_waiter w f).waiters) (users res f.ledger)) }
{
    match resource {
        SharedResource::Desk(desk) => desk.own_victim(key, process),
        SharedResource::Tank(_) => false,
        SharedResource::Shelf(_) => false,
    }
}

/// A request waits.
pub(crate) fn add_request(
    resource: &mut SharedResource,
    request: EventId,
    key: RequestKey,
    process: ProcId,
)
    requires slots { IsTrue (takes_requests (declared_as resource.old).kind) }
    requires place { HasPlace resource.old }
    requires absent { IsAbsentAt request resource.old }
    ensures { (res : ℕ) →
        let w : Waiter = record { event = request; res = res; want = Slot process key } in
        IsJoined w resource.old resource.new }
{
    match resource {
        SharedResource::Desk(desk) => desk.join(request, key, process),
        SharedResource::Tank(_) => {}
        SharedResource::Shelf(_) => {}
    }
}

/// A put waits.
pub(crate) fn add_put(resource: &mut SharedResource, put: EventId, amount: i64, priority: i64)
    requires stock { IsFalse (takes_requests (declared_as resource.old).kind) }
    requires amount { IsTrue (attempts.is_container (declared_as resource.old).kind) →
        pos 0 <ℤ amount }
    requires place { HasPlace resource.old }
    requires absent { IsAbsentAt put resource.old }
    ensures { (res : ℕ) →
        let w : Waiter = record { event = put; res = res; want = Give amount priority } in
        IsJoined w resource.old resource.new }
{
    match resource {
        SharedResource::Desk(_) => {}
        SharedResource::Tank(tank) => tank.join_put(put, amount),
        SharedResource::Shelf(shelf) => shelf.join_put(put, amount, priority),
    }
}

/// A get waits.
pub(crate) fn add_get(resource: &mut SharedResource, get: EventId, least: i64, greatest: i64)
    requires stock { IsFalse (takes_requests (declared_as resource.old).kind) }
    requires amount { IsTrue (attempts.is_container (declared_as resource.old).kind) →
        pos 0 <ℤ least }
    requires place { HasPlace resource.old }
    requires absent { IsAbsentAt get resource.old }
    ensures { (res : ℕ) →
        let w : Waiter = record { event = get; res = res; want = Take least greatest } in
        IsJoined w resource.old resource.new }
{
    match resource {
        SharedResource::Desk(_) => {}
        SharedResource::Tank(tank) => tank.join_get(get, least),
        SharedResource::Shelf(shelf) => shelf.join_get(get, least, greatest),
    }
}
