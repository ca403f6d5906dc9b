//! Whole answers by the top call, however the text comes in and however little room there is.
ghost use Rattle.std.specs.Prelude.{◌<◌};

use crate::calls::{Meeting, source_of, words_of};
use sim_batch::FreeGate;
use sim_command::Word;
use sim_desk::desk;
use sim_outside::{Gathering, MemSink, MemSource};
use std::alloc::{AllocError, Global};
use std::str;
use std::test::Fail;
use std::thread::Threads;

/// Room for each whole answer of these tests.
const ENOUGH: usize = 20_000;

const ONE_TIMEOUT: &str = "scenario 1\nuntil empty\nprocess p\ntimeout 5\nlog now\nend\nstart p\n";

/// An exit status and what was written.
#[derive(Clone, Copy)]
struct Answer<'t> {
    code: u8,
    bytes: &'t [u8],
}

const TWO_RUNS: Answer<'static> = Answer {
    code: 0,
    bytes: b"rep 0 empty 5 3 1 5\nrep 1 empty 5 3 1 5\nbatch 2 2 10\n",
};

const ONE_TIMEOUT_TRACE: Answer<'static> = Answer {
    code: 0,
    bytes: b"@0 0 0 init 2 ok 0\n@5 1 1 timeout 3 ok 0\nlog 5 1 5\n@5 1 2 process 1 ok 0\nend empty 5 3\n",
};

/// Whether the program answers so to these words, by way of a sink that gathers for one of so much room.
fn answers<R: Threads + Sync>(
    rt: &R,
    alloc: Global,
    words: &[Word],
    source: &mut MemSource,
    room: usize,
    want: Answer<'_>,
) -> bool {
    match MemSink::new(alloc, room as u64) {
        Ok(sink) => {
            let mut out = Gathering::new(sink);
            let status = desk(rt, alloc, &FreeGate, words, source, &mut out);
            status.code() == want.code && out.into_inner().bytes() == want.bytes
        }
        Err(AllocError) => false,
    }
}

/// Whether a run of the text answers so where it comes in by pieces of this size, and the read of this number fails.
fn reads<R: Threads + Sync>(
    rt: &R,
    alloc: Global,
    words: &[Word],
    piece: u32,
    number: u64,
    want: Answer<'_>,
) -> bool
    requires { 0 < piece }
{
    match source_of(alloc, ONE_TIMEOUT, piece, &[number]) {
        Ok(mut source) => answers(rt, alloc, words, &mut source, ENOUGH, want),
        Err(AllocError) => false,
    }
}

/// Whether the program answers so to words and a text, with a sink of so much room.
fn writes<R: Threads + Sync>(
    rt: &R,
    alloc: Global,
    words: &[Word],
    text: &str,
    room: usize,
    want: Answer<'_>,
) -> bool {
    match source_of(alloc, text, 8192, &[]) {
        Ok(mut source) => answers(rt, alloc, words, &mut source, room, want),
        Err(AllocError) => false,
    }
}

/// Whether a run of the text answers the same however the text comes in, and nothing where a read fails.
fn reads_by_pieces_of<R: Threads + Sync>(rt: &R, alloc: Global, words: &[Word], piece: u32) -> bool
    requires { 0 < piece }
{
    let all = ONE_TIMEOUT.len().div_ceil(piece as usize) as u64 + 1;
    for number in 0..all {
        let none = Answer {
            code: 6,
            bytes: &[],
        };
        if !reads(rt, alloc, words, piece, number, none) {
            return false;
        }
    }
    reads(rt, alloc, words, piece, all, ONE_TIMEOUT_TRACE)
}

/// Whether a sink with too little room holds the front of this answer, and one with just enough the whole.
fn writes_fronts<R: Threads + Sync>(
    rt: &R,
    alloc: Global,
    words: &[Word],
    text: &str,
    whole: Answer<'_>,
) -> bool {
    for room in 0..whole.bytes.len() {
        let front = Answer {
            code: 7,
            bytes: &whole.bytes[..room],
        };
        if !writes(rt, alloc, words, text, room, front) {
            return false;
        }
    }
    writes(rt, alloc, words, text, whole.bytes.len(), whole)
}

/// The same for the words of a line.
fn writes_fronts_for<R: Threads + Sync>(
    rt: &R,
    alloc: Global,
    line: &str,
    text: &str,
    whole: Answer<'_>,
) -> bool {
    match words_of(alloc, line) {
        Ok(words) => writes_fronts(rt, alloc, words.as_slice(), text, whole),
        Err(AllocError) => false,
    }
}

/// The answer is the same however the text comes in, and where a read fails nothing is written.
#[test]
fn reads_by_pieces(rt: HostRuntime) -> Result<(), Fail> {
    let words = words_of(rt.alloc(), "run 1000")?;
    for piece in 1..10u32 {
        assert!(rt;
            reads_by_pieces_of(&rt, rt.alloc(), words.as_slice(), piece),
            "piece {piece}"
        );
    }
    Ok(())
}

/// A sink with too little room holds the front of the answer.
#[test]
fn writes_what_fits(rt: HostRuntime) {
    let alloc = rt.alloc();
    let bad_header = Answer {
        code: 3,
        bytes: b"fault 1 BadHeader\n",
    };
    let ok = Answer {
        code: 0,
        bytes: b"ok\n",
    };
    assert!(rt; writes_fronts_for(&rt, alloc, "run 1000", ONE_TIMEOUT, ONE_TIMEOUT_TRACE));
    assert!(rt; writes_fronts_for(&rt, alloc, "run 1000", "scenario 3\n", bad_header));
    assert!(rt; writes_fronts_for(&rt, alloc, "batch 2 1000", ONE_TIMEOUT, TWO_RUNS));
    assert!(rt; writes_fronts_for(&rt, alloc, "check", ONE_TIMEOUT, ok));
    assert!(rt; writes_fronts_for(&rt, alloc, "check", "scenario 3\n", bad_header));
}

/// One process loses its slot to another one.
const PREEMPTION: &str =
    "scenario 1\nuntil empty\npreemptive m 1\nprocess holder\nwith r = request m 1 preempt\nwait r\ntry\ntimeout 10\ncatch k v\nlog k\nlog v\nend\nend\nend\nprocess rush\ntimeout 4\nwith r = request m 0 preempt\nwait r\ntimeout 1\nend\nend\nstart holder\nstart rush\n";

/// Each trace without its last line begins that of one unit more, until the run ends.
#[test]
fn a_trace_begins_the_next_longer_one(rt: HostRuntime) -> Result<(), Fail> {
    let alloc = rt.alloc();
    let mut front = String::new(alloc);
    for limit in 1..1000u32 {
        let line = format!(in alloc; "run {limit}")?;
        let words = words_of(alloc, line.as_str())?;
        let mut source = source_of(alloc, PREEMPTION, 8192, &[])?;
        let mut sink = MemSink::new(alloc, ENOUGH as u64)?;
        let status = desk(
            &rt,
            alloc,
            &FreeGate,
            words.as_slice(),
            &mut source,
            &mut sink,
        );
        let Ok(trace) = str::from_utf8(sink.bytes()) else {
            panic!(rt; "limit {limit}: no text");
        };
        assert!(rt; trace.starts_with(front.as_str()), "limit {limit}");
        if status.code() != 5 {
            assert_eq!(rt; status.code(), 0);
            assert_eq!(rt; trace.lines().count(), 15);
            return Ok(());
        }
        let (lines, _end) = trace.rsplit_once("end ").unwrap_or(("", ""));
        front = String::from_str(alloc, lines)?;
    }
    panic!(rt; "the run goes on after 1,000 units");
}

/// A flush that fails is told. All was written by then.
#[test]
fn a_flush_fails(rt: HostRuntime) -> Result<(), Fail> {
    let alloc = rt.alloc();
    let words = words_of(alloc, "run 1000")?;
    let mut source = source_of(alloc, "scenario 1\nuntil empty\n", 8192, &[])?;
    let mut sink = MemSink::new(alloc, ENOUGH as u64)?;
    sink.fail_flush();
    let status = desk(
        &rt,
        alloc,
        &FreeGate,
        words.as_slice(),
        &mut source,
        &mut sink,
    );
    assert_eq!(rt; status.code(), 7);
    assert_eq!(rt; sink.bytes(), b"end empty 0 0\n".as_slice());
    Ok(())
}

/// A run that logs without end stops where its sink is full.
#[test]
fn a_full_sink_ends_a_run(rt: HostRuntime) {
    let text = "scenario 1\nuntil empty\nprocess p\nloop\nlog 1\nend\nend\nstart p\n";
    let front = Answer {
        code: 7,
        bytes: b"@0 0 0 init 2 ok 0\nlog 0 1 1\nlo",
    };
    match words_of(rt.alloc(), "run 10000000") {
        Ok(words) => assert!(rt; writes(&rt, rt.alloc(), words.as_slice(), text, 31, front)),
        Err(AllocError) => panic!(rt; "memory is found"),
    }
}

/// The runs of a batch are made at once: each sees the other pass the gate.
#[test]
fn runs_of_a_batch_meet(rt: HostRuntime) -> Result<(), Fail> {
    let alloc = rt.alloc();
    let gate = Meeting::new();
    let words = words_of(alloc, "batch 2 1000")?;
    let mut source = source_of(alloc, ONE_TIMEOUT, 8192, &[])?;
    let mut sink = MemSink::new(alloc, ENOUGH as u64)?;
    let status = desk(&rt, alloc, &gate, words.as_slice(), &mut source, &mut sink);
    assert_eq!(rt; status.code(), TWO_RUNS.code);
    assert_eq!(rt; sink.bytes(), TWO_RUNS.bytes);
    assert_eq!(rt; gate.met(), 2, "each saw the other come");
    Ok(())
}

/// How often the process of a long trace sleeps.
const SLEEPS: u32 = 350;

/// The trace of a process that sleeps 1 and logs the time, again and again: longer than the room in which lines are gathered.
fn long_trace(alloc: Global) -> Result<String, AllocError> {
    let mut trace = String::new(alloc);
    trace.push_str("@0 0 0 init 2 ok 0\n")?;
    for time in 1..=SLEEPS {
        let event = time + 2;
        trace.push_str(format!(in alloc; "@{time} 1 {time} timeout {event} ok 0\n")?.as_str())?;
        trace.push_str(format!(in alloc; "log {time} 1 {time}\n")?.as_str())?;
    }
    let number = SLEEPS + 1;
    let processed = SLEEPS + 2;
    trace.push_str(format!(in alloc; "@{SLEEPS} 1 {number} process 1 ok 0\n")?.as_str())?;
    trace.push_str(format!(in alloc; "end empty {SLEEPS} {processed}\n")?.as_str())?;
    Ok(trace)
}

/// A sink that fails at any byte of a long trace holds the front of it.
#[test]
fn writes_what_fits_of_a_long_trace(rt: HostRuntime) -> Result<(), Fail> {
    let alloc = rt.alloc();
    let text = format!(in alloc;
        "scenario 1\nuntil empty\nprocess p\nrepeat {SLEEPS}\ntimeout 1\nlog now\nend\nend\nstart p\n"
    )?;
    let trace = long_trace(alloc)?;
    assert!(rt; trace.len() > 9000);
    let whole = Answer {
        code: 0,
        bytes: trace.as_bytes(),
    };
    assert!(rt; writes_fronts_for(&rt, alloc, "run 100000", text.as_str(), whole));
    Ok(())
}
