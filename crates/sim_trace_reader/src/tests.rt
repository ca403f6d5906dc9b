//! Texts of lines, and texts that are close to them.
ghost use Rattle.sim_trace.specs.Texts.{AreNamesShort};

use crate::parse_line;
use sim_types::{End, EventId, EventKind, Line, Name, Outcome, ProcId, Throw};
use std::process::Abort;
use std::test::Fail;

/// An event of this kind.
fn event(kind: EventKind) -> Line {
    Line::Event {
        time: 5,
        priority: 1,
        number: 2,
        kind,
        event: EventId(7),
        outcome: Outcome::Ok(-3),
    }
}

fn least_event() -> Line {
    Line::Event {
        time: i64::MIN,
        priority: 0,
        number: 0,
        kind: EventKind::Init,
        event: EventId(0),
        outcome: Outcome::Fail(Throw {
            kind: 0,
            value: i64::MIN,
        }),
    }
}

fn greatest_event() -> Line {
    Line::Event {
        time: i64::MAX,
        priority: 255,
        number: u64::MAX,
        kind: EventKind::Interrupt,
        event: EventId(u64::MAX),
        outcome: Outcome::Fail(Throw {
            kind: 255,
            value: i64::MAX,
        }),
    }
}

fn finish(end: End) -> Line {
    Line::Finish {
        end,
        time: 10,
        processed: 8,
    }
}

fn arrival(after: u64, port: u32, value: i64) -> Option<Line> {
    Some(Line::Arrive { after, port, value })
}

#[test]
fn reads_events(rt: HostRuntime) {
    for (text, kind) in [
        ("@5 1 2 init 7 ok -3", EventKind::Init),
        ("@5 1 2 timeout 7 ok -3", EventKind::Timeout),
        ("@5 1 2 event 7 ok -3", EventKind::Plain),
        ("@5 1 2 process 7 ok -3", EventKind::Process),
        ("@5 1 2 interrupt 7 ok -3", EventKind::Interrupt),
        ("@5 1 2 cond 7 ok -3", EventKind::Cond),
        ("@5 1 2 request 7 ok -3", EventKind::Request),
        ("@5 1 2 release 7 ok -3", EventKind::Release),
        ("@5 1 2 put 7 ok -3", EventKind::Put),
        ("@5 1 2 get 7 ok -3", EventKind::Get),
        ("@5 1 2 stop 7 ok -3", EventKind::Stop),
    ] {
        assert_eq!(rt;
            parse_line(text.as_bytes(), &[]),
            Some(event(kind)),
            "{text}"
        );
    }
    for (text, want) in [
        (
            "@-9223372036854775808 0 0 init 0 fail 0 -9223372036854775808",
            least_event(),
        ),
        (
            "@9223372036854775807 255 18446744073709551615 interrupt 18446744073709551615 fail 255 9223372036854775807",
            greatest_event(),
        ),
    ] {
        assert_eq!(rt; parse_line(text.as_bytes(), &[]), Some(want), "{text}");
    }
}

#[test]
fn reads_logs_and_ends(rt: HostRuntime) {
    let least = Line::Log {
        time: i64::MIN,
        process: ProcId(0),
        value: i64::MIN,
    };
    let greatest = Line::Log {
        time: i64::MAX,
        process: ProcId(u64::MAX),
        value: i64::MAX,
    };
    let last = Line::Finish {
        end: End::Limit,
        time: i64::MIN,
        processed: u64::MAX,
    };
    for (text, want) in [
        ("log -9223372036854775808 0 -9223372036854775808", least),
        (
            "log 9223372036854775807 18446744073709551615 9223372036854775807",
            greatest,
        ),
        ("end empty 10 8", finish(End::Empty)),
        ("end until 10 8", finish(End::Until)),
        ("end crash 10 8", finish(End::Crash)),
        ("end limit 10 8", finish(End::Limit)),
        ("end starved 10 8", finish(End::Starved)),
        ("end limit -9223372036854775808 18446744073709551615", last),
    ] {
        assert_eq!(rt; parse_line(text.as_bytes(), &[]), Some(want), "{text}");
    }
}

/// Compares what is read of arrivals at four ports, of which two have the same name.
fn read_arrivals(rt: &impl Abort, ports: &[Name])
    requires { AreNamesShort ports.now }
{
    for (text, want) in [
        ("arrive 3 door 5", arrival(3, 0, 5)),
        (
            "arrive 0 door -9223372036854775808",
            arrival(0, 0, i64::MIN),
        ),
        (
            "arrive 18446744073709551615 7 a door 5",
            arrival(u64::MAX, 1, 5),
        ),
        ("arrive 3    5", arrival(3, 2, 5)),
        ("arrive 3  5", arrival(3, 4, 5)),
        ("arrive 3 5", None),
        ("arrive 3   5", None),
        ("arrive 3 gate 5", None),
        ("arrive 3 a door 5", None),
        ("arrive 3 door  5", None),
        ("arrive 3  door 5", None),
        ("arrive 3 door 5 ", None),
        ("arrive 03 door 5", None),
        ("arrive -3 door 5", None),
        ("arrive 3 door 9223372036854775808", None),
        ("arrive 18446744073709551616 door 5", None),
        ("arrive door 5", None),
        ("arrive", None),
    ] {
        assert_eq!(rt; parse_line(text.as_bytes(), ports), want, "{text}");
    }
}

#[test]
fn reads_arrivals(rt: HostRuntime) -> Result<(), Fail> {
    let ports = [
        Name::new(rt.alloc(), b"door")?,
        Name::new(rt.alloc(), b"7 a door")?,
        Name::new(rt.alloc(), b"  ")?,
        Name::new(rt.alloc(), b"door")?,
    ];
    read_arrivals(&rt, &ports);
    let unnamed = [Name::new(rt.alloc(), b"")?];
    assert_eq!(rt; parse_line(b"arrive 3  5", &unnamed), arrival(3, 0, 5));
    Ok(())
}

#[test]
fn reads_nothing_else(rt: HostRuntime) {
    for text in [
        "",
        " ",
        "@",
        "@05 1 1 timeout 3 ok 0",
        "@5  1 1 timeout 3 ok 0",
        "@5 1 1 timeout 3 ok 0 ",
        " @5 1 1 timeout 3 ok 0",
        "@ 5 1 1 timeout 3 ok 0",
        "@5\t1 1 timeout 3 ok 0",
        "@5 1 1 timeout 3 ok 0\n",
        "@5 1 1 timeout 3 ok 0\r",
        "@-0 1 1 timeout 3 ok 0",
        "@+5 1 1 timeout 3 ok 0",
        "@9223372036854775808 1 1 timeout 3 ok 0",
        "@-9223372036854775809 1 1 timeout 3 ok 0",
        "@5 256 1 timeout 3 ok 0",
        "@5 -1 1 timeout 3 ok 0",
        "@5 1 18446744073709551616 timeout 3 ok 0",
        "@5 1 1 timer 3 ok 0",
        "@5 1 1 Timeout 3 ok 0",
        "@5 1 1  3 ok 0",
        "@5 1 1 timeout 3.0 ok 0",
        "@5 1 1 timeout 3 good 0",
        "@5 1 1 timeout 3 ok",
        "@5 1 1 timeout 3 ok ",
        "@5 1 1 timeout 3 ok 0 0",
        "@5 1 1 timeout 3 fail 0",
        "@5 1 1 timeout 3 fail 256 0",
        "@5 1 1 timeout 3",
        "5 1 1 timeout 3 ok 0",
        "log 1 2",
        "log 1 2 3 4",
        "log 1 -2 3",
        "log 1 2 00",
        "logs 1 2 3",
        "Log 1 2 3",
        "end",
        "end empty 0",
        "end done 0 0",
        "end empty 0 -0",
        "end empty 0 0 0",
        "batch 2 0 0",
        "fault 1 BadHeader",
        "ok",
    ] {
        assert_eq!(rt; parse_line(text.as_bytes(), &[]), None, "{text}");
    }
    assert_eq!(rt; parse_line(&[b'1'; 300], &[]), None);
}
