//! Traces that are right and traces that differ, and texts in two parts. The traces are by hand, from the rules of the
//! machine.
use crate::{Verdict, Why, read_with_trace, verify, write_verdict};
use sim_code::{ReadError, read};
use sim_outside::MemSink;
use sim_types::FaultKind;
use std::alloc::{AllocError, Global};
use std::test::Fail;

/// A process that sleeps and logs a number.
const PROCESS: &str = "scenario 1\nuntil empty\nprocess p\ntimeout 5\nlog 5\nend\nstart p\n";

/// Its trace.
const TRACE: &[u8] = b"@0 0 0 init 2 ok 0\n\
    @5 1 1 timeout 3 ok 0\n\
    log 5 1 5\n\
    @5 1 2 process 1 ok 0\n\
    end empty 5 3\n";

/// A scenario with a port, by which nothing comes in.
const PORT: &str = "scenario 1\nuntil empty\nport inn job\nprocess job v\nlog v\nend\n";

/// More units than each of these runs makes.
const ENOUGH: u32 = 1000;

const fn no(line: u64, why: Why) -> Verdict {
    Verdict::No { line, why }
}

/// Checks the trace, where the scenario makes at most `limit` units.
fn said(alloc: Global, scenario: &str, limit: u32, trace: &[u8]) -> Option<Verdict> {
    let scenario = read(alloc, scenario.as_bytes()).ok()?;
    verify(alloc, &scenario, scenario.seed(), &[], limit, trace).ok()
}

/// Traces that differ, the first line that does, and how.
const TRACES: [(&str, u64, Why); 17] = [
    (
        "@0 0 0 init 2 ok 0\n@5 1 1 timeout 3 ok 1\nlog 5 1 5\n@5 1 2 process 1 ok 0\nend empty 5 3\n",
        2,
        Why::Step,
    ),
    (
        "@0 0 0 init 2 ok 0\n@05 1 1 timeout 3 ok 0\nlog 5 1 5\n@5 1 2 process 1 ok 0\nend empty 5 3\n",
        2,
        Why::Shape,
    ),
    (
        "@0 0 0 init 2 ok 0\n@5 1 1 timeout 3 ok 0\n@5 1 2 process 1 ok 0\nlog 5 1 5\nend empty 5 3\n",
        3,
        Why::Step,
    ),
    (
        "@0 0 0 init 2 ok 0\n@5 1 1 timeout 3 ok 0\nlog 5 1 5\nlog 5 1 5\n@5 1 2 process 1 ok 0\nend empty 5 3\n",
        4,
        Why::Step,
    ),
    (
        "@0 0 0 init 2 ok 0\n@5 1 1 timeout 3 ok 0\nlog 5 1 5\n@5 1 2 process 1 ok 0\nend empty 5 4\n",
        5,
        Why::Step,
    ),
    (
        "@0 0 0 init 2 ok 0\n@5 1 1 timeout 3 ok 0\nlog 5 1 5\n@5 1 2 process 1 ok 0\n",
        5,
        Why::Short,
    ),
    (
        "@0 0 0 init 2 ok 0\n@5 1 1 timeout 3 ok 0\nlog 5 1 5\n@5 1 2 process 1 ok 0\nend empty 5 3",
        5,
        Why::Shape,
    ),
    (
        "@0 0 0 init 2 ok 0\n@5 1 1 timeout 3 ok 0\nlog 5 1 5\n@5 1 2 process 1 ok 0\nend empty 5 3\nok\n",
        6,
        Why::Extra,
    ),
    (
        "@0 0 0 init 2 ok 0\n@5 1 1 timeout 3 ok 0\nlog 5 1 5\n@5 1 2 process 1 ok 0\nend empty 5 3\n\n",
        6,
        Why::Extra,
    ),
    ("", 1, Why::Short),
    ("\n", 1, Why::Shape),
    ("\n@0 0 0 init 2 ok 0\n", 1, Why::Shape),
    (
        "@0 0 0 init 2 ok 0\r\n@5 1 1 timeout 3 ok 0\r\n",
        1,
        Why::Shape,
    ),
    (
        "@0 0 0 init 2 ok 0\n@5 1 1 timeout 3 ok 0\r\n",
        2,
        Why::Shape,
    ),
    ("trace\n@0 0 0 init 2 ok 0\n", 1, Why::Shape),
    ("log 5 1 5\n", 1, Why::Step),
    ("end empty 5 3\n", 1, Why::Step),
];

#[test]
fn compares_each_line(rt: HostRuntime) {
    assert_eq!(rt;
        said(rt.alloc(), PROCESS, ENOUGH, TRACE),
        Some(Verdict::Yes)
    );
    for (trace, line, why) in TRACES {
        let said = said(rt.alloc(), PROCESS, ENOUGH, trace.as_bytes());
        assert_eq!(rt; said, Some(no(line, why)), "{trace}");
    }
}

/// Compares a line with the names of the ports. A line of a port that there is not has the empty word.
#[test]
fn knows_the_ports(rt: HostRuntime) {
    for (trace, verdict) in [
        ("end empty 0 0\n", Verdict::Yes),
        ("arrive 0 inn 5\n", no(1, Why::Step)),
        ("arrive 0 out 5\n", no(1, Why::Shape)),
        ("arrive 0  5\n", no(1, Why::Step)),
        ("end empty 0 0\narrive 0 inn 5\n", no(2, Why::Extra)),
    ] {
        assert_eq!(rt;
            said(rt.alloc(), PORT, ENOUGH, trace.as_bytes()),
            Some(verdict),
            "{trace}"
        );
    }
}

/// The traces of runs that are stopped: after the first pop, after the second, after the log, and after the third pop.
const BEGUN: &str = "@0 0 0 init 2 ok 0\nend limit 0 1\n";

const WOKEN: &str = "@0 0 0 init 2 ok 0\n@5 1 1 timeout 3 ok 0\nend limit 5 2\n";

const LOGGED: &str = "@0 0 0 init 2 ok 0\n@5 1 1 timeout 3 ok 0\nlog 5 1 5\nend limit 5 2\n";

const ENDED: &str =
    "@0 0 0 init 2 ok 0\n@5 1 1 timeout 3 ok 0\nlog 5 1 5\n@5 1 2 process 1 ok 0\nend limit 5 3\n";

const WHOLE: &str =
    "@0 0 0 init 2 ok 0\n@5 1 1 timeout 3 ok 0\nlog 5 1 5\n@5 1 2 process 1 ok 0\nend empty 5 3\n";

/// A unit is a pop, the call of a callback, an operation of a process or the settling of an event.
#[test]
fn stops_at_the_limit(rt: HostRuntime) {
    for (limit, trace, verdict) in [
        (0, "end limit 0 0\n", Verdict::Yes),
        (1, BEGUN, Verdict::Yes),
        (2, BEGUN, Verdict::Yes),
        (3, BEGUN, Verdict::Yes),
        (4, BEGUN, Verdict::Yes),
        (5, WOKEN, Verdict::Yes),
        (6, WOKEN, Verdict::Yes),
        (7, LOGGED, Verdict::Yes),
        (9, LOGGED, Verdict::Yes),
        (10, ENDED, Verdict::Yes),
        (11, WHOLE, Verdict::Yes),
        (0, BEGUN, no(1, Why::Step)),
        (1, "end limit 0 0\n", no(1, Why::Step)),
        (3, WHOLE, no(2, Why::Step)),
        (5, BEGUN, no(2, Why::Step)),
        (10, WHOLE, no(5, Why::Step)),
        (11, ENDED, no(5, Why::Step)),
    ] {
        let said = said(rt.alloc(), PROCESS, limit, trace.as_bytes());
        assert_eq!(rt; said, Some(verdict), "{limit}: {trace}");
    }
}

/// Finds that a line is missing where the trace is cut before it. A part of a line is no line.
#[test]
fn finds_each_cut(rt: HostRuntime) {
    let mut line = 1;
    let mut why = Why::Short;
    for (at, byte) in TRACE.iter().enumerate() {
        let cut = TRACE.get(..at).unwrap_or(TRACE);
        assert_eq!(rt;
            said(rt.alloc(), PROCESS, ENOUGH, cut),
            Some(no(line, why)),
            "at {at}"
        );
        if *byte == b'\n' && line < 5 {
            line += 1;
            why = Why::Short;
        } else {
            why = Why::Shape;
        }
    }
}

/// Finds each byte that is another, in its line.
#[test]
fn finds_each_byte(rt: HostRuntime) -> Result<(), Fail> {
    let mut line = 1;
    for (at, byte) in TRACE.iter().enumerate() {
        let mut changed = Vec::from_slice(rt.alloc(), TRACE)?;
        if let Some(place) = changed.get_mut(at) {
            *place = byte ^ 1;
        }
        let said = said(rt.alloc(), PROCESS, ENOUGH, changed.as_slice());
        let found = said == Some(no(line, Why::Step)) || said == Some(no(line, Why::Shape));
        assert!(rt; found, "at {at}: {said:?}");
        if *byte == b'\n' && line < 5 {
            line += 1;
        }
    }
    Ok(())
}

/// Says whether this trace is read from a text that has this line before it.
fn is_parted(alloc: Global, line: &str, trace: &str) -> Result<bool, AllocError> {
    let text = format!(in alloc; "{PROCESS}{line}{trace}")?;
    let given = read_with_trace(alloc, text.as_bytes());
    Ok(matches!(&given, Ok(given) if given.trace == trace.as_bytes()))
}

#[test]
fn parts_a_text_at_its_line(rt: HostRuntime) -> Result<(), Fail> {
    for line in [
        "trace\n",
        "trace # x\n",
        " trace\n",
        "\ttrace \t\n",
        "trace\r\n",
        "trace#\n",
    ] {
        for trace in ["", "end empty 5 3\n", "trace\n", "\n\n", "x"] {
            assert!(rt; is_parted(rt.alloc(), line, trace)?, "{line}{trace}");
        }
    }
    assert!(rt; is_parted(rt.alloc(), "trace", "")?);
    Ok(())
}

/// Runs the scenario of the text.
#[test]
fn reads_the_scenario_before_it(rt: HostRuntime) -> Result<(), Fail> {
    let text = format!(in rt.alloc(); "{PROCESS}trace\nend limit 0 0\n")?;
    let given = read_with_trace(rt.alloc(), text.as_bytes());
    let verdict = match &given {
        Ok(given) => verify(rt.alloc(), &given.scenario, 0, &[], 0, given.trace).ok(),
        Err(_) => None,
    };
    assert_eq!(rt; verdict, Some(Verdict::Yes));
    Ok(())
}

/// Gives the line and the word of the fault.
fn fault(alloc: Global, text: &str) -> Option<(u32, &'static str)> {
    let Err(ReadError::Fault(fault)) = read_with_trace(alloc, text.as_bytes()) else {
        return None;
    };
    let word = match fault.kind {
        FaultKind::BadHeader => "BadHeader",
        FaultKind::UnknownWord => "UnknownWord",
        FaultKind::Unclosed => "Unclosed",
        _ => "",
    };
    Some((fault.line, word))
}

#[test]
fn gives_each_fault(rt: HostRuntime) -> Result<(), Fail> {
    for (end, line, word) in [
        ("", 8, "Unclosed"),
        ("\n# trace\n", 10, "Unclosed"),
        ("# no line feed", 9, "Unclosed"),
        ("trace x\n", 8, "UnknownWord"),
        ("Trace\n", 8, "UnknownWord"),
        ("traces\n", 8, "UnknownWord"),
        ("lgo 5\ntrace\n", 8, "UnknownWord"),
    ] {
        let text = format!(in rt.alloc(); "{PROCESS}{end}")?;
        assert_eq!(rt; fault(rt.alloc(), &text), Some((line, word)), "{end}");
    }
    for (text, line, word) in [
        ("", 1, "BadHeader"),
        ("trace\n", 1, "BadHeader"),
        ("scenario 1\nuntil empty\nlgo 5\n", 3, "UnknownWord"),
        (
            "scenario 1\nuntil empty\nlgo 5\ntrace\nend empty 0 0\n",
            3,
            "UnknownWord",
        ),
        (
            "scenario 1\nuntil empty\nprocess p\nlog 5\ntrace\n",
            5,
            "Unclosed",
        ),
    ] {
        assert_eq!(rt; fault(rt.alloc(), text), Some((line, word)), "{text}");
    }
    Ok(())
}

/// Says whether this is written of the verdict into a sink with this much room.
fn is_written(alloc: Global, verdict: Verdict, room: u64, text: &str) -> Result<bool, AllocError> {
    let mut sink = MemSink::new(alloc, room)?;
    let answer = write_verdict(verdict, &mut sink);
    Ok(sink.bytes() == text.as_bytes() && answer.is_ok() == text.ends_with('\n'))
}

#[test]
fn writes_a_line(rt: HostRuntime) -> Result<(), Fail> {
    for (verdict, room, text) in [
        (Verdict::Yes, 100, "yes\n"),
        (Verdict::Yes, 4, "yes\n"),
        (Verdict::Yes, 3, "yes"),
        (no(1, Why::Short), 100, "no 1 short\n"),
        (no(20, Why::Extra), 100, "no 20 extra\n"),
        (no(300, Why::Shape), 100, "no 300 shape\n"),
        (
            no(u64::MAX, Why::Step),
            100,
            "no 18446744073709551615 step\n",
        ),
        (no(20, Why::Extra), 4, "no 2"),
        (no(20, Why::Extra), 11, "no 20 extra"),
    ] {
        assert!(rt; is_written(rt.alloc(), verdict, room, text)?, "{text}");
    }
    Ok(())
}
