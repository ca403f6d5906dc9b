//! That a batch succeeds where memory is found, that each index passes the gate, and that replications run at once, is in
//! no clause.
use crate::{FreeGate, Gate, Job, batch};
use sim_types::{End, Summary};
use std::alloc::{AllocError, Global};
use std::sync::atomic::{AtomicBool, AtomicU64, Ordering};
use std::test::Fail;

/// A job whose summaries are like one that is lent, but that as many events are processed as the index says.
#[derive(Drop)]
struct Counting<'a> {
    like: &'a Summary,
}

impl<'a> Job for Counting<'a> {
    ghost answer = { λ job index. record job.like.now { processed = index } };

    ghost keeps = { λ _ _. Unit {0} };

    fn one(&self, _alloc: Global, index: u32) -> Result<Summary, AllocError> {
        Ok(Summary {
            processed: u64::from(index),
            ..*self.like
        })
    }
}

const LIKE: Summary = Summary {
    end: End::Empty,
    time: 5,
    processed: 0,
    logs: 1,
    total: -5,
};

#[test]
fn each_index_is_answered_in_its_place(rt: HostRuntime) -> Result<(), Fail> {
    let job = Counting { like: &LIKE };
    for count in [0, 1, 16, 17, 40] {
        let summaries = batch(&rt, rt.alloc(), &job, count, &FreeGate)?;
        assert_eq!(rt; summaries.len(), count as usize);
        for (index, summary) in summaries.as_slice().iter().enumerate() {
            assert_eq!(rt; summary.processed, index as u64, "of {count}");
        }
    }
    Ok(())
}

/// A gate that counts passes, and adds up a power of two for each, by its index.
#[derive(Drop)]
struct Turnstile {
    passes: AtomicU64,
    powers: AtomicU64,
    /// How many jobs began before their index passed.
    early: AtomicU64,
}

impl Turnstile {
    /// Counts a job that begins before its index has passed.
    fn look(&self, index: u32) {
        let powers = self.powers.load(Ordering::SeqCst);
        if index < 64 && powers & (1 << index) == 0 {
            self.early.fetch_add(1, Ordering::SeqCst);
        }
    }
}

impl Gate for Turnstile {
    fn pass(&self, index: u32) {
        self.passes.fetch_add(1, Ordering::SeqCst);
        if index < 64 {
            self.powers.fetch_add(1 << index, Ordering::SeqCst);
        }
    }
}

/// A job that looks whether its index has passed the gate.
#[derive(Drop)]
struct Looking<'a> {
    inner: Counting<'a>,
    gate: &'a Turnstile,
}

impl<'a> Job for Looking<'a> {
    ghost answer = { λ job index. record job.inner.like.now { processed = index } };

    ghost keeps = { λ _ _. Unit {0} };

    fn one(&self, alloc: Global, index: u32) -> Result<Summary, AllocError> {
        self.gate.look(index);
        self.inner.one(alloc, index)
    }
}

// Forty powers of two that make 2^40 - 1 together are the first forty, each once.
#[test]
fn each_index_passes_the_gate_once_before_its_job(rt: HostRuntime) -> Result<(), Fail> {
    let gate = Turnstile {
        passes: AtomicU64::new(0),
        powers: AtomicU64::new(0),
        early: AtomicU64::new(0),
    };
    let job = Looking {
        inner: Counting { like: &LIKE },
        gate: &gate,
    };
    let summaries = batch(&rt, rt.alloc(), &job, 40, &gate)?;
    assert_eq!(rt; summaries.len(), 40);
    assert_eq!(rt; gate.passes.load(Ordering::SeqCst), 40);
    assert_eq!(rt; gate.powers.load(Ordering::SeqCst), (1 << 40) - 1);
    assert_eq!(rt; gate.early.load(Ordering::SeqCst), 0);
    Ok(())
}

/// How often a pass looks whether the other has come.
const MOST_TURNS: u32 = 200_000_000;

/// A gate where indices 0 and 1 wait for each other.
#[derive(Drop)]
struct Meeting {
    came: [AtomicBool; 2],
    met: AtomicU64,
}

impl Gate for Meeting {
    fn pass(&self, index: u32) {
        let (own, other) = match index {
            0 => (&self.came[0], &self.came[1]),
            _ => (&self.came[1], &self.came[0]),
        };
        own.store(true, Ordering::SeqCst);
        for _ in 0..MOST_TURNS {
            if other.load(Ordering::SeqCst) {
                self.met.fetch_add(1, Ordering::SeqCst);
                return;
            }
        }
    }
}

#[test]
fn two_replications_run_at_once(rt: HostRuntime) -> Result<(), Fail> {
    let gate = Meeting {
        came: [AtomicBool::new(false), AtomicBool::new(false)],
        met: AtomicU64::new(0),
    };
    let job = Counting { like: &LIKE };
    let summaries = batch(&rt, rt.alloc(), &job, 2, &gate)?;
    assert_eq!(rt; summaries.len(), 2);
    assert_eq!(rt;
        gate.met.load(Ordering::SeqCst),
        2,
        "each saw the other come"
    );
    Ok(())
}
