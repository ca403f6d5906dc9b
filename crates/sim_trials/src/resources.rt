//! Slots that requests wait for and use.

use sim_resource::Desk;
use sim_shared_model::{DeskKind, Grant};
use sim_types::{EventId, ProcId, RequestKey};
use std::process::Abort;
use std::test::Fail;

/// A request more, which neither waits nor is a user.
#[tactic(auto, using(crate::proofs::Absent::none_of_queue, crate::proofs::Absent::none_of_users))]
fn joins(rt: &impl Abort, desk: &mut Desk, request: EventId, key: RequestKey, process: ProcId) {
    assert!(rt; desk.reserve().is_ok());
    assert!(rt; !desk.leave(request));
    assert!(rt; !desk.release(request));
    desk.join(request, key, process);
}

/// What a request made at a time waits by.
fn key_of(priority: i64, time: i64) -> RequestKey {
    RequestKey {
        priority,
        time,
        wait: false,
    }
}

/// Whether a free slot is given to this request.
fn is_granted(grant: Grant, request: EventId) -> bool {
    match grant {
        Grant::Granted { request: granted } => granted.0 == request.0,
        _ => false,
    }
}

/// Whether the slot of this request of process 9 is given, which was granted at this time.
fn is_slot_of(grant: Grant, request: EventId, granted_at: i64) -> bool {
    match grant {
        Grant::Preempted {
            victim,
            process,
            since,
            ..
        } => victim.0 == request.0 && process.0 == 9 && since == granted_at,
        _ => false,
    }
}

/// Whether no slot is given.
fn is_none(grant: Grant) -> bool {
    match grant {
        Grant::None => true,
        _ => false,
    }
}

// Two requests join a desk with one slot: the first is granted, the second waits, and so its release is none.
#[test]
fn the_second_request_waits(rt: HostRuntime) -> Result<(), Fail> {
    let mut desk = Desk::new(rt.alloc(), DeskKind::Plain, 1)?;
    let (first, second) = (EventId(21), EventId(22));
    joins(&rt, &mut desk, first, key_of(0, 3), ProcId(9));
    joins(&rt, &mut desk, second, key_of(0, 3), ProcId(8));
    assert_eq!(rt; desk.waiting(), 2);
    assert!(rt; is_granted(desk.attempt(3), first));
    assert!(rt; is_none(desk.attempt(3)));
    assert!(rt; !desk.release(second));
    assert_eq!(rt; desk.count(), 1);
    assert_eq!(rt; desk.waiting(), 1);
    Ok(())
}

// A request of a smaller priority takes the slot of one that was made at 3 and granted at 4.
#[test]
fn a_smaller_priority_takes_the_slot(rt: HostRuntime) -> Result<(), Fail> {
    let mut desk = Desk::new(rt.alloc(), DeskKind::Preemptive, 1)?;
    let (first, second) = (EventId(21), EventId(22));
    joins(&rt, &mut desk, first, key_of(2, 3), ProcId(9));
    assert!(rt; is_granted(desk.attempt(4), first));
    assert!(rt; desk.own_victim(key_of(1, 5), ProcId(9)));
    assert!(rt; !desk.own_victim(key_of(1, 5), ProcId(8)));
    joins(&rt, &mut desk, second, key_of(1, 5), ProcId(8));
    assert!(rt; is_slot_of(desk.attempt(6), first, 4));
    assert_eq!(rt; desk.count(), 1);
    Ok(())
}
