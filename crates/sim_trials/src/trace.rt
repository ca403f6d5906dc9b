//! Written lines.
ghost use Rattle.sim_trace.specs.Texts.{AreNamesShort};

use sim_trace::{LineBuf, render};
use sim_types::{End, EventId, EventKind, Line, Name, Outcome, ProcId, Throw};
use std::process::Abort;
use std::test::Fail;

/// Whether the line is rendered so into a buffer that was used before.
fn renders(out: &mut LineBuf, line: Line, ports: &[Name], text: &str) -> bool
    requires { AreNamesShort ports.now }
{
    render(&line, ports, out);
    out.bytes() == text.as_bytes()
}

fn plain_event() -> Line {
    Line::Event {
        time: 5,
        priority: 1,
        number: 2,
        kind: EventKind::Plain,
        event: EventId(7),
        outcome: Outcome::Ok(-3),
    }
}

/// A line of the widest numbers.
fn widest_event() -> Line {
    let thrown = Throw {
        kind: 255,
        value: i64::MIN,
    };
    Line::Event {
        time: i64::MIN,
        priority: 255,
        number: u64::MAX,
        kind: EventKind::Interrupt,
        event: EventId(u64::MAX),
        outcome: Outcome::Fail(thrown),
    }
}

const PLAIN_EVENT: &str = "@5 1 2 event 7 ok -3\n";

const WIDEST_EVENT: &str =
    "@-9223372036854775808 255 18446744073709551615 interrupt 18446744073709551615 fail 255 -9223372036854775808\n";

fn render_lines(rt: &impl Abort, out: &mut LineBuf, ports: &[Name])
    requires { AreNamesShort ports.now }
{
    assert!(rt; renders(out, plain_event(), ports, PLAIN_EVENT));
    assert!(rt; renders(out, widest_event(), ports, WIDEST_EVENT));
    let log = Line::Log {
        time: 5,
        process: ProcId(1),
        value: 9,
    };
    assert!(rt; renders(out, log, ports, "log 5 1 9\n"));
    let arrive = Line::Arrive {
        after: 4,
        port: 1,
        value: -2,
    };
    assert!(rt;
        renders(
            out,
            arrive,
            ports,
            "arrive 4 a_gate_with_the_longest_name____ -2\n"
        )
    );
    let finish = Line::Finish {
        end: End::Starved,
        time: 5,
        processed: 3,
    };
    assert!(rt; renders(out, finish, ports, "end starved 5 3\n"));
}

#[test]
fn writes_lines(rt: HostRuntime) -> Result<(), Fail> {
    let ports = [
        Name::new(rt.alloc(), b"door")?,
        Name::new(rt.alloc(), b"a_gate_with_the_longest_name____")?,
    ];
    render_lines(&rt, &mut LineBuf::new(), &ports);
    Ok(())
}
