//! Time, events and conditions as one.
use sim_happen::{Happen, TimeoutFault};
use sim_types::{Callback, EventId, EventKind, LAST_TIME, Line, Outcome, ProcId};
use std::test::Fail;

/// The line of an event that succeeded at 0, by this number of scheduling.
fn line(number: u64, kind: EventKind, event: EventId, value: i64) -> Line {
    Line::Event {
        time: 0,
        priority: 1,
        number,
        kind,
        event,
        outcome: Outcome::Ok(value),
    }
}

/// Whether a timeout is not made, and for this reason.
fn is_refused(made: Result<EventId, TimeoutFault>, fault: TimeoutFault) -> bool {
    match made {
        Ok(_) => false,
        Err(found) => found == fault,
    }
}

// A timeout is made where its delay is not negative and does not pass the last time.
#[test]
fn a_timeout_ends_by_the_last_time(rt: HostRuntime) -> Result<(), Fail> {
    let mut happen = Happen::new(rt.alloc())?;
    assert!(rt; happen.reserve(1, 0).is_ok());
    assert!(rt; is_refused(happen.timeout(-1, 0), TimeoutFault::NegativeDelay));
    assert!(rt; is_refused(happen.timeout(LAST_TIME + 1, 0), TimeoutFault::TimeLimit));
    assert!(rt; happen.timeout(LAST_TIME, 0).is_ok());
    Ok(())
}

// An event succeeds, is processed at its time, and calls whom it has to call; then it goes.
#[test]
fn an_event_is_processed(rt: HostRuntime) -> Result<(), Fail> {
    let mut happen = Happen::new(rt.alloc())?;
    assert!(rt; happen.reserve(1, 1).is_ok());
    let event = happen.make(EventKind::Plain);
    happen.register(event, Callback::Resume(ProcId(4)));
    assert!(rt; happen.succeed(event, 7).is_ok());
    assert_eq!(rt; happen.step(), Some(line(0, EventKind::Plain, event, 7)));
    assert_eq!(rt; happen.next(), Some(Callback::Resume(ProcId(4))));
    assert!(rt; happen.next().is_none());
    assert!(rt; !happen.settle(event));
    assert_eq!(rt; (happen.now(), happen.table().slots()), (0, 1));
    Ok(())
}

// An event that is taken out of its queue goes with its last holder, and leaves its slot to the next one, for which no more
// room is made.
#[test]
fn a_slot_is_used_again(rt: HostRuntime) -> Result<(), Fail> {
    let mut happen = Happen::new(rt.alloc())?;
    assert!(rt; happen.reserve(1, 0).is_ok());
    let gone = happen.make(EventKind::Get);
    happen.hold(gone);
    happen.shut(gone);
    assert_eq!(rt; happen.table().slots(), 2);
    happen.unhold(gone);
    assert_eq!(rt; happen.table().slots(), 1);
    let later = happen.make(EventKind::Get);
    assert_eq!(rt; (later.0, happen.table().slots()), (2, 2));
    assert!(rt; !happen.table().is_kept(gone) && happen.table().is_kept(later));
    Ok(())
}
