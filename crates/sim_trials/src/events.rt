//! The table of events.
use sim_events::{EventState, Table};
use sim_types::{Callback, EventKind, Members, Outcome, ProcId};
use std::test::Fail;

// A processed event leaves its slot to the next one, for which there was no more room.
#[test]
fn a_slot_is_given_again(rt: HostRuntime) -> Result<(), Fail> {
    let mut table = Table::new(rt.alloc())?;
    assert!(rt; table.reserve(2, 0).is_ok());
    let first = table.make(EventKind::Plain);
    let second = table.make(EventKind::Plain);
    assert_eq!(rt; (first.0, second.0, table.slots()), (1, 2, 3));
    assert!(rt; table.set(first, Outcome::Ok(0)).is_ok());
    table.begin(first);
    assert_eq!(rt; table.slots(), 2);
    let third = table.make(EventKind::Plain);
    assert_eq!(rt; (third.0, table.slots()), (3, 3));
    Ok(())
}

// While an event has a holder its slot is not given again.
#[test]
fn a_holder_keeps_the_slot(rt: HostRuntime) -> Result<(), Fail> {
    let mut table = Table::new(rt.alloc())?;
    assert!(rt; table.reserve(2, 0).is_ok());
    let first = table.make(EventKind::Plain);
    let _second = table.make(EventKind::Plain);
    assert!(rt; table.set(first, Outcome::Ok(0)).is_ok());
    table.hold(first);
    table.begin(first);
    assert_eq!(rt; table.slots(), 3);
    table.unhold(first);
    assert_eq!(rt; table.slots(), 2);
    Ok(())
}

// The calls that take memory succeed where it is ample.
#[test]
fn there_is_room_for_callbacks_and_conditions(rt: HostRuntime) -> Result<(), Fail> {
    let mut table = Table::new(rt.alloc())?;
    assert!(rt; table.reserve(1, 1).is_ok());
    assert!(rt; table.reserve_conditions(1).is_ok());
    let condition = table.make_all_of(Members::new());
    table.register(condition, Callback::Resume(ProcId(4)));
    assert!(rt; table.is_condition(condition));
    assert_eq!(rt; table.state(condition), EventState::Pending);
    Ok(())
}
