//! An inbox of lanes that counts what goes through it, and may refuse to close.
ghost use Rattle.std.specs.Prelude.{◌≡◌, ℕ, ◌<◌, ◌≤◌, [], length, map, slice_get, slice_index, vec_len, vec_capacity, All, Some, false, IfOk, IfErr, OnOk};
ghost use Rattle.sim_inbox.specs.Lists.{Begins, untaken};
ghost use Rattle.sim_lanes.specs.Ends.{AreInOrder, PosterOf, posted_of, taken_of};
ghost use Rattle.sim_lanes.specs.Takes.{FoundNoneAnywhere};

use sim_batch::Gate;
use sim_inbox::{CloseRefused, Inbox, PostFault, Posting, Taken, Taking};
use sim_lanes::{LaneInbox, LanePoster, LaneTaker};
use sim_types::{List, Post};
use std::alloc::{AllocError, Global};
use std::marker::Model;
use std::sync::atomic::{AtomicU64, Ordering};

/// How many posts were made, and how many items a taker gave before its close and by it.
#[derive(Drop)]
pub(crate) struct Counts {
    posted: AtomicU64,
    taken: AtomicU64,
    left: AtomicU64,
    /// How often a gate was passed, and how many posts were made before that.
    passed: AtomicU64,
    early: AtomicU64,
    /// Whether the taker refuses to close.
    refuses: bool,
}

impl Counts {
    pub(crate) fn new() -> Counts {
        Counts {
            posted: AtomicU64::new(0),
            taken: AtomicU64::new(0),
            left: AtomicU64::new(0),
            passed: AtomicU64::new(0),
            early: AtomicU64::new(0),
            refuses: false,
        }
    }

    /// The same, for an inbox that refuses to close.
    pub(crate) fn refusing() -> Counts {
        let mut counts = Counts::new();
        counts.refuses = true;
        counts
    }

    /// How many posts were made before the gate was passed.
    pub(crate) fn early(&self) -> u64 {
        self.early.load(Ordering::SeqCst)
    }

    pub(crate) fn posted(&self) -> u64 {
        self.posted.load(Ordering::SeqCst)
    }

    /// How many items the taker gave, by its close too.
    pub(crate) fn given(&self) -> u64 {
        let taken = self.taken.load(Ordering::SeqCst);
        taken.saturating_add(self.left.load(Ordering::SeqCst))
    }
}

/// A gate that counts who passes.
impl Gate for Counts {
    fn pass(&self, _index: u32) {
        self.passed.fetch_add(1, Ordering::SeqCst);
    }
}

/// A poster over a lane that counts each post that is made. Contracts see the lane's poster alone.
#[derive(Drop)]
pub(crate) struct CountingPoster<'c> {
    inner: LanePoster,
    counts: &'c Counts,
}

impl<'c> Model for CountingPoster<'c> {
    ghost use Rattle.sim_lanes.specs.Ends.{PosterOf};

    ghost Value = { PosterOf };

    ghost view = { λ a. a.inner };
}

impl<'c> Posting for CountingPoster<'c> {
    ghost inbox = { λ x. x.inbox };

    ghost number = { λ x. x.knows.number };

    ghost capacity = { λ x. x.knows.capacity };

    ghost posted = { posted_of };

    ghost loads = { λ x. x.knows.loads };

    ghost taken_seen = { λ x. x.knows.taken_seen };

    ghost takes_memory = { false };

    fn post(&mut self, item: Post) -> Result<(), PostFault> {
        if self.counts.passed.load(Ordering::SeqCst) == 0 {
            self.counts.early.fetch_add(1, Ordering::SeqCst);
        }
        let answer = self.inner.post(item);
        if answer.is_ok() {
            self.counts.posted.fetch_add(1, Ordering::SeqCst);
        }
        answer
    }
}

/// The posters, each of which counts from now on, in their order.
#[tactic(auto, using(crate::proofs::Moved::moved_none, crate::proofs::Moved::moved_more, crate::proofs::Moved::moved_all))]
fn count_all<'c>(from: &mut Vec<LanePoster>, counts: &'c Counts, into: &mut Vec<CountingPoster<'c>>)
    requires empty { into.old.items ≡ [] }
    requires room { vec_len from.old ≤ vec_capacity into.old }
    ensures { into.new.items ≡ from.old.items }
{
    while let Some(inner) = from.pop() {
        into.push_reserved(CountingPoster { inner, counts });
    }
    into.reverse();
}

/// The posters, none of which counts any more, in their order.
#[tactic(auto, using(crate::proofs::Moved::moved_none, crate::proofs::Moved::moved_more, crate::proofs::Moved::moved_all))]
fn uncount_all<'c>(from: &mut Vec<CountingPoster<'c>>, into: &mut Vec<LanePoster>)
    requires empty { into.old.items ≡ [] }
    requires room { vec_len from.old ≤ vec_capacity into.old }
    ensures moved { into.new.items ≡ from.old.items }
    ensures empty { from.new.items ≡ [] }
    ensures capacity { vec_capacity from.new ≡ vec_capacity from.old }
{
    while let Some(poster) = from.pop() {
        let CountingPoster { inner, .. } = poster;
        into.push_reserved(inner);
    }
    into.reverse();
}

/// The taker of lanes that counts each item that it gives. Contracts see the lanes' taker alone.
#[derive(Drop)]
pub(crate) struct CountingTaker<'c> {
    inner: LaneTaker,
    counts: &'c Counts,
}

impl<'c> Model for CountingTaker<'c> {
    ghost use Rattle.sim_lanes.specs.Ends.{TakerOf};

    ghost Value = { TakerOf };

    ghost view = { λ a. a.inner };
}

impl<'c> Taking for CountingTaker<'c> {
    type Poster = CountingPoster<'c>;

    ghost inbox = { λ t. t.inbox };

    ghost count = { λ t. length t.lanes };

    ghost taken = { taken_of };

    ghost found_none = { FoundNoneAnywhere };

    fn take(&mut self) -> Option<Taken> {
        let taken = self.inner.take();
        if taken.is_some() {
            self.counts.taken.fetch_add(1, Ordering::SeqCst);
        }
        taken
    }

    fn close(
        self,
        alloc: Global,
        posters: List<CountingPoster<'c>>,
    ) -> Result<List<Taken>, CloseRefused<CountingTaker<'c>, CountingPoster<'c>>>
        requires all { length posters ≡ length self.lanes }
        requires own { AreInOrder self.inbox posters }
        ensures left { IfOk result (λ left.
            left ≡ untaken (taken_of self.entry) 0 (map posted_of posters.entry)) }
        ensures whole { OnOk result ((p : ℕ) (x : PosterOf) → slice_get posters.entry p ≡ Some x →
            Begins (taken_of self.entry p) (posted_of x)) }
        ensures refused { IfErr result (λ r. (r.taker ≡ self.entry) × (r.posters ≡ posters.entry)) }
    {
        let CountingTaker { inner, counts } = self;
        if counts.refuses {
            return Err(CloseRefused {
                taker: CountingTaker { inner, counts },
                posters,
            });
        }
        let mut counting = posters.into_vec();
        let mut bare = Vec::new(alloc);
        if bare.reserve(counting.len()).is_err() {
            return Err(CloseRefused {
                taker: CountingTaker { inner, counts },
                posters: List::from_vec(counting),
            });
        }
        uncount_all(&mut counting, &mut bare);
        match inner.close(alloc, List::from_vec(bare)) {
            Ok(left) => {
                counts.left.fetch_add(left.len() as u64, Ordering::SeqCst);
                Ok(left)
            }
            Err(CloseRefused { taker, posters }) => {
                let mut bare = posters.into_vec();
                count_all(&mut bare, counts, &mut counting);
                Err(CloseRefused {
                    taker: CountingTaker {
                        inner: taker,
                        counts,
                    },
                    posters: List::from_vec(counting),
                })
            }
        }
    }
}

/// Opens lanes whose ends count.
#[derive(Drop)]
pub(crate) struct CountingInbox<'c> {
    pub(crate) counts: &'c Counts,
}

impl<'c> Inbox for CountingInbox<'c> {
    type Taker = CountingTaker<'c>;

    fn open(
        &self,
        alloc: Global,
        capacities: &[u32],
    ) -> Result<(CountingTaker<'c>, List<CountingPoster<'c>>), AllocError>
        requires few { length capacities.now ≤ 16 }
        requires each { All (λ c. 0 < c) capacities.now }
        ensures taker { IfOk result (λ r. (length r.0.lanes ≡ length capacities.now)
            × ((p : ℕ) → taken_of r.0 p ≡ [])) }
        ensures many { IfOk result (λ r. length r.1 ≡ length capacities.now) }
        ensures own { IfOk result (λ r. AreInOrder r.0.inbox r.1) }
        ensures fresh { IfOk result (λ r. (p : ℕ) (x : PosterOf) → slice_get r.1 p ≡ Some x →
            (posted_of x ≡ []) × (slice_index capacities.now p ≤ x.knows.capacity)) }
    {
        let (inner, posters) = LaneInbox.open(alloc, capacities)?;
        let mut bare = posters.into_vec();
        let mut counting = Vec::with_capacity(alloc, bare.len())?;
        count_all(&mut bare, self.counts, &mut counting);
        let taker = CountingTaker {
            inner,
            counts: self.counts,
        };
        Ok((taker, List::from_vec(counting)))
    }
}
