//! Containers and stores.
ghost use Rattle.std.specs.Prelude.{pos, ◌<ℤ◌};

use sim_shared_model::{Served, ShelfKind};
use sim_stores::{Shelf, Tank};
use sim_types::EventId;
use std::process::Abort;
use std::test::Fail;

/// Whether this event was served with this value.
fn is_served(served: Option<Served>, event: EventId, value: i64) -> bool {
    match served {
        Some(served) => served.event.0 == event.0 && served.value == value,
        None => false,
    }
}

/// A put more at a container.
fn puts(rt: &impl Abort, tank: &mut Tank, event: EventId, amount: i64)
    requires { pos 0 <ℤ amount }
{
    assert!(rt; tank.reserve().is_ok());
    assert!(rt; !tank.cancel(event));
    tank.join_put(event, amount);
}

/// A get more at a container.
fn gets(rt: &impl Abort, tank: &mut Tank, event: EventId, amount: i64)
    requires { pos 0 <ℤ amount }
{
    assert!(rt; tank.reserve().is_ok());
    assert!(rt; !tank.cancel(event));
    tank.join_get(event, amount);
}

// A container of 10 has 3: a get of 5 waits until 2 more are there.
#[test]
fn a_get_waits_for_its_amount(rt: HostRuntime) {
    let mut tank = Tank::new(rt.alloc(), 10, 3);
    let (get, put) = (EventId(21), EventId(22));
    gets(&rt, &mut tank, get, 5);
    assert!(rt; tank.try_get().is_none());
    puts(&rt, &mut tank, put, 2);
    assert_eq!(rt; tank.waiting(), (1, 1));
    assert!(rt; is_served(tank.try_put(), put, 0));
    assert_eq!(rt; tank.waiting(), (0, 1));
    assert!(rt; is_served(tank.try_get(), get, 0));
    assert_eq!(rt; tank.waiting(), (0, 0));
    assert_eq!(rt; tank.level(), 0);
}

/// A put more at a store, of an item of this value and priority.
fn brings(rt: &impl Abort, shelf: &mut Shelf, event: EventId, value: i64, priority: i64) {
    assert!(rt; shelf.reserve().is_ok());
    assert!(rt; !shelf.cancel(event));
    shelf.join_put(event, value, priority);
}

/// An item more in a store, if there is place for it.
fn deposits(rt: &impl Abort, shelf: &mut Shelf, event: EventId, value: i64, priority: i64) {
    brings(rt, shelf, event, value, priority);
    assert!(rt; is_served(shelf.try_put(), event, 0));
}

/// A get more at a store, of an item in a range.
fn takes(rt: &impl Abort, shelf: &mut Shelf, event: EventId, least: i64, greatest: i64) {
    assert!(rt; shelf.reserve().is_ok());
    assert!(rt; !shelf.cancel(event));
    shelf.join_get(event, least, greatest);
}

// Of the same three items a store gives the first put, a priority store the first of the least priority, and a filter store
// the one in the range.
#[test]
fn each_kind_of_store_gives_another_item(rt: HostRuntime) {
    let kinds = [
        (ShelfKind::Fifo, 7),
        (ShelfKind::Priority, 8),
        (ShelfKind::Filter, 9),
    ];
    for (kind, value) in kinds {
        let mut shelf = Shelf::new(rt.alloc(), kind, 3);
        deposits(&rt, &mut shelf, EventId(21), 7, 2);
        deposits(&rt, &mut shelf, EventId(22), 8, 1);
        deposits(&rt, &mut shelf, EventId(23), 9, 1);
        takes(&rt, &mut shelf, EventId(24), 9, 9);
        assert!(rt; is_served(shelf.try_get(), EventId(24), value));
        assert_eq!(rt; shelf.len(), 2);
    }
}

// A store of one item has one: a put waits until a get has taken it.
#[test]
fn a_put_waits_for_place(rt: HostRuntime) {
    let mut shelf = Shelf::new(rt.alloc(), ShelfKind::Fifo, 1);
    let (put, get) = (EventId(22), EventId(23));
    deposits(&rt, &mut shelf, EventId(21), 7, 0);
    brings(&rt, &mut shelf, put, 8, 0);
    assert!(rt; shelf.try_put().is_none());
    takes(&rt, &mut shelf, get, 0, 0);
    assert_eq!(rt; shelf.waiting(), (1, 1));
    assert!(rt; is_served(shelf.try_get(), get, 7));
    assert_eq!(rt; shelf.waiting(), (1, 0));
    assert!(rt; is_served(shelf.try_put(), put, 0));
    assert_eq!(rt; shelf.waiting(), (0, 0));
}
