//! The lines of a trace, as the tests write them.
use sim_types::{End, EventId, EventKind, Line, Outcome, ProcId};

pub(super) fn line(
    time: i64,
    priority: u8,
    number: u64,
    kind: EventKind,
    event: u64,
    outcome: Outcome,
) -> Line {
    Line::Event {
        time,
        priority,
        number,
        kind,
        event: EventId(event),
        outcome,
    }
}

pub(super) fn init(number: u64, event: u64) -> Line {
    line(0, 0, number, EventKind::Init, event, Outcome::Ok(0))
}

pub(super) fn timeout(time: i64, number: u64, event: u64, value: i64) -> Line {
    line(
        time,
        1,
        number,
        EventKind::Timeout,
        event,
        Outcome::Ok(value),
    )
}

pub(super) fn finished(time: i64, number: u64, process: u64, value: i64) -> Line {
    line(
        time,
        1,
        number,
        EventKind::Process,
        process,
        Outcome::Ok(value),
    )
}

pub(super) fn request(time: i64, number: u64, event: u64) -> Line {
    line(time, 1, number, EventKind::Request, event, Outcome::Ok(0))
}

pub(super) fn release(time: i64, number: u64, event: u64) -> Line {
    line(time, 1, number, EventKind::Release, event, Outcome::Ok(0))
}

pub(super) fn log(time: i64, process: u64, value: i64) -> Line {
    Line::Log {
        time,
        process: ProcId(process),
        value,
    }
}

pub(super) fn arrive(after: u64, value: i64) -> Line {
    Line::Arrive {
        after,
        port: 0,
        value,
    }
}

pub(super) fn end(end: End, time: i64, processed: u64) -> Line {
    Line::Finish {
        end,
        time,
        processed,
    }
}
