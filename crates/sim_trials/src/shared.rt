//! Resources in their places, with time and events.
ghost use Rattle.std.specs.Prelude.{◌≡◌, ◌≤◌, ◌<◌, [], ◌∷◌, pos, length, None, IfOk};
ghost use Rattle.sim_types.specs.declared.setup.ResourceKind.TheVariants as kinds;
ghost use Rattle.sim_shared_model.specs.Making.{ShowsSome};
ghost use Rattle.sim_shared_model.specs.Waiting.{AreAllOpen};

use sim_shared::Shared;
use sim_types::{EventId, List, Resource, ResourceKind};
use std::alloc::{AllocError, Global};
use std::test::Fail;

/// What is measured at the first resource: puts and gets that wait, and what it holds.
fn numbers(shared: &Shared) -> (u64, u64, i64)
    requires { 0 < length shared.now.setup }
{
    let now = shared.measure(0);
    (now.puts, now.gets, now.held)
}

/// A container of 5 that opens with 3, and room for two events.
fn container(alloc: Global) -> Result<Shared, AllocError>
    ensures open { IfOk result AreAllOpen }
    ensures shown { IfOk result ShowsSome }
    ensures place { IfOk result (λ h. h.used ≡ None) }
    ensures events { IfOk result (λ h. 2 ≤ h.happen.spare.events) }
    ensures callbacks { IfOk result (λ h. 2 ≤ h.happen.spare.callbacks) }
    ensures number { IfOk result (λ h. length h.happen.events ≡ 1) }
    ensures setup { IfOk result (λ h.
        h.setup ≡ record { kind = kinds.Container; capacity = pos 5; opening = pos 3 } ∷ []) }
{
    let mut declared = List::new(alloc);
    declared.push(Resource {
        kind: ResourceKind::Container,
        capacity: 5,
        opening: 3,
    })?;
    let mut shared = Shared::new(alloc, &declared)?;
    shared.reserve_starts(0)?;
    Ok(shared)
}

// A desk and a container open, with room for one unit: a request that waits nowhere leaves the desk.
#[test]
fn resources_open(rt: HostRuntime) -> Result<(), Fail> {
    let mut declared = List::new(rt.alloc());
    declared.push(Resource {
        kind: ResourceKind::Priority,
        capacity: 2,
        opening: 0,
    })?;
    declared.push(Resource {
        kind: ResourceKind::Container,
        capacity: 5,
        opening: 3,
    })?;
    let mut shared = Shared::new(rt.alloc(), &declared)?;
    shared.reserve()?;
    assert_eq!(rt; shared.count(0), 0);
    assert_eq!(rt; shared.count(1), 3);
    assert_eq!(rt; shared.release(0, EventId(0)).0, 1);
    Ok(())
}

// A container of 5 has 3: a put of 4 waits, and so does a get of 4.
#[test]
fn what_waits_is_measured(rt: HostRuntime) -> Result<(), Fail> {
    let mut full = container(rt.alloc())?;
    assert_eq!(rt; numbers(&full), (0, 0, 3));
    assert!(rt; full.put(0, 4, 0).is_ok());
    assert_eq!(rt; numbers(&full), (1, 0, 3));
    let mut low = container(rt.alloc())?;
    assert!(rt; low.get(0, 4, 0).is_ok());
    assert_eq!(rt; numbers(&low), (0, 1, 3));
    Ok(())
}
