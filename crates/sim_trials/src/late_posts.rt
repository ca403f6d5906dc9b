//! Live runs whose posters wait until something is written: they post while the scenario runs, or after its end.
use crate::calls::MOST_TURNS;
use crate::lived::{LOGGING, Lived, THREE_EACH, live, with_posters};
use sim_batch::Gate;
use sim_lanes::LaneInbox;
use sim_outside::{Gathering, StdSink};
use std::alloc::{AllocError, Global};
use std::io::{self, Write};
use std::sync::Wait;
use std::sync::atomic::{AtomicU64, Ordering};
use std::test::Fail;
use std::thread::Threads;

/// A writer that keeps what is written, and counts the writes.
#[derive(Drop)]
struct Telling<'a> {
    bytes: Vec<u8>,
    writes: &'a AtomicU64,
}

impl<'a> Write for Telling<'a> {
    fn write(&mut self, piece: &[u8]) -> io::Result<usize> {
        self.bytes.extend_from_slice(piece)?;
        self.writes.fetch_add(1, Ordering::SeqCst);
        Ok(piece.len())
    }

    fn flush(&mut self) -> io::Result<()> {
        Ok(())
    }
}

/// A gate whose passes, from the index `from` on, wait until `wanted` writes were made.
#[derive(Drop)]
struct Awaiting<'a> {
    from: u32,
    wanted: u64,
    writes: &'a AtomicU64,
    saw: AtomicU64,
}

impl<'a> Awaiting<'a> {
    fn new(from: u32, wanted: u64, writes: &'a AtomicU64) -> Awaiting<'a> {
        Awaiting {
            from,
            wanted,
            writes,
            saw: AtomicU64::new(0),
        }
    }
}

impl<'a> Gate for Awaiting<'a> {
    fn pass(&self, index: u32) {
        if index < self.from {
            return;
        }
        for _ in 0..MOST_TURNS {
            if self.writes.load(Ordering::SeqCst) >= self.wanted {
                self.saw.fetch_add(1, Ordering::SeqCst);
                return;
            }
        }
    }
}

/// How many posters, from this one on, see something written before they post. Lines are gathered.
fn sees_written<R: Threads + Wait + Sync>(
    rt: &R,
    alloc: Global,
    from: u32,
    front: &str,
) -> Result<u64, AllocError> {
    let writes = AtomicU64::new(0);
    let gate = Awaiting::new(from, 1, &writes);
    let telling = Telling {
        bytes: Vec::new(alloc),
        writes: &writes,
    };
    let text = with_posters(alloc, front, THREE_EACH)?;
    let mut sink = Gathering::new(StdSink::new(telling));
    let _code = live(
        rt,
        alloc,
        &gate,
        &LaneInbox,
        "live 1000",
        text.as_str(),
        &mut sink,
    )?;
    Ok(gate.saw.load(Ordering::SeqCst))
}

/// The scenario runs, and its trace is written, before the posters post anything.
#[test]
fn the_scenario_runs_before_the_posters_end(rt: HostRuntime) -> Result<(), Fail> {
    let front = with_posters(rt.alloc(), LOGGING, "start job 9\n")?;
    assert_eq!(rt; sees_written(&rt, rt.alloc(), 0, front.as_str())?, 2);
    Ok(())
}

/// The posts of one poster come in, and the trace of what they start is written, before another one posts anything.
#[test]
fn posts_come_in_before_all_posters_end(rt: HostRuntime) -> Result<(), Fail> {
    assert_eq!(rt; sees_written(&rt, rt.alloc(), 1, LOGGING)?, 1);
    Ok(())
}

/// Runs these lines live, with posters that post once `lines` lines of the trace were written.
fn posted_late<R: Threads + Wait + Sync>(
    rt: &R,
    alloc: Global,
    lines: u64,
    front: &str,
) -> Result<Lived, AllocError> {
    let writes = AtomicU64::new(0);
    let gate = Awaiting::new(0, lines, &writes);
    let mut telling = Telling {
        bytes: Vec::new(alloc),
        writes: &writes,
    };
    let text = with_posters(alloc, front, THREE_EACH)?;
    let mut sink = StdSink::new(&mut telling);
    let code = live(
        rt,
        alloc,
        &gate,
        &LaneInbox,
        "live 1000",
        text.as_str(),
        &mut sink,
    )?;
    Ok(Lived {
        code,
        bytes: telling.bytes,
    })
}

/// Posts that come when the time is over, or after a failure that nobody caught, are in the journal, each with the number of
/// events that were processed, and do not come in.
#[test]
fn posts_after_the_end_do_not_come_in(rt: HostRuntime) -> Result<(), Fail> {
    let until = (
        "scenario 1\nuntil 5\nport inn job\nprocess job v\nlog v\nend\nstart job 9\n",
        "@0 0 0 init 2 ok 0\nlog 0 1 9\n@0 1 2 process 1 ok 0\n@5 0 1 stop 3 ok 0\nend until 5 3\n",
        "after 3 ",
        0,
    );
    let crash = (
        "scenario 1\nuntil empty\nport inn job\nprocess job v\nraise v\nend\nstart job 9\n",
        "@0 0 0 init 2 ok 0\n@0 1 1 process 1 fail 3 9\nend crash 0 2\n",
        "after 2 ",
        4,
    );
    for (front, wanted, after, code) in [until, crash] {
        let lines = wanted.lines().count() as u64 - 1;
        let lived = posted_late(&rt, rt.alloc(), lines, front)?;
        assert_eq!(rt; lived.code, code);
        let (trace, entries) = lived.parts();
        assert_eq!(rt; trace, wanted);
        assert!(rt; entries.lines().all(|line| line.starts_with(after)));
        assert!(rt; lived.has_three_each(rt.alloc())?);
        assert!(rt; lived.runs_again(&rt, rt.alloc(), 1000, front)?);
    }
    Ok(())
}
