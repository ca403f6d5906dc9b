//! A resource of any kind, and what can be done at each.
ghost use Rattle.std.specs.Prelude.{◌≡◌, ◌≤ℤ◌, IsFalse, IsOk, OnOk};
ghost use Rattle.sim_types.specs.Limits.{most_level};
ghost use Rattle.sim_shared_model.specs.Measuring.{gets_waiting, measure_of, puts_waiting};
ghost use Rattle.sim_shared_model.specs.Resources.{HasPlace, count_at, declared_as, without_room};
ghost use Rattle.sim_shared_model.specs.Waiting.{besides_at, waits_at};
ghost use Rattle.sim_shared_model.specs.Using.{released_at, uses_at};

use sim_resource::Desk;
use sim_shared_model::AnyResource;
use sim_stores::{Shelf, Tank};
use sim_types::{EventId, Measure};
use std::alloc::AllocError;

/// A resource of any kind, as the code keeps it.
pub(crate) type SharedResource = AnyResource<Desk, Tank, Shelf>;

/// Makes room for one more to wait.
pub(crate) fn reserve(resource: &mut SharedResource) -> Result<(), AllocError>
    ensures place { OnOk result (HasPlace resource.new) }
    ensures never_less { HasPlace resource.old → HasPlace resource.new }
    ensures ready { HasPlace resource.old → IsOk result }
    ensures rest { without_room resource.new ≡ without_room resource.old }
{
    match resource {
        SharedResource::Desk(desk) => desk.reserve(),
        SharedResource::Tank(tank) => tank.reserve(),
        SharedResource::Shelf(shelf) => shelf.reserve(),
    }
}

/// Takes an event out of its queue. The answer is whether it waited.
pub(crate) fn cancel(resource: &mut SharedResource, event: EventId) -> bool
    ensures waited { result ≡ waits_at event resource.old }
    ensures besides { without_room resource.new ≡ without_room (besides_at event resource.old) }
    ensures place { HasPlace resource.old → HasPlace resource.new }
    ensures same { IsFalse result → resource.new ≡ resource.old }
{
    match resource {
        SharedResource::Desk(desk) => desk.leave(event),
        SharedResource::Tank(tank) => tank.cancel(event),
        SharedResource::Shelf(shelf) => shelf.cancel(event),
    }
}

/// A request is a user no longer. The answer is whether it was.
pub(crate) fn release(resource: &mut SharedResource, request: EventId) -> bool
    ensures used { result ≡ uses_at request resource.old }
    ensures released { without_room resource.new ≡ without_room (released_at request resource.old) }
    ensures place { HasPlace resource.old → HasPlace resource.new }
    ensures same { IsFalse result → resource.new ≡ resource.old }
{
    match resource {
        SharedResource::Desk(desk) => desk.release(request),
        SharedResource::Tank(_) => false,
        SharedResource::Shelf(_) => false,
    }
}

/// Users, level or number of items.
pub(crate) fn count(resource: &SharedResource) -> i64
    requires { (declared_as resource.now).capacity ≤ℤ most_level }
    ensures { result ≡ count_at resource.now }
{
    match resource {
        SharedResource::Desk(desk) => desk.count() as i64,
        SharedResource::Tank(tank) => tank.level(),
        SharedResource::Shelf(shelf) => shelf.len() as i64,
    }
}

// How many requests or puts wait at it, and how many gets. Nobody gets at a desk.
fn waiting(resource: &SharedResource) -> (u64, u64)
    ensures puts { result.0 ≡ puts_waiting resource.now }
    ensures gets { result.1 ≡ gets_waiting resource.now }
{
    match resource {
        SharedResource::Desk(desk) => (desk.waiting(), 0),
        SharedResource::Tank(tank) => tank.waiting(),
        SharedResource::Shelf(shelf) => shelf.waiting(),
    }
}

/// What is measured at it now.
pub(crate) fn measure(resource: &SharedResource) -> Measure
    requires { (declared_as resource.now).capacity ≤ℤ most_level }
    ensures { result ≡ measure_of resource.now }
{
    let (puts, gets) = waiting(resource);
    Measure {
        puts,
        gets,
        held: count(resource),
    }
}
