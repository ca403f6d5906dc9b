//! An inbox over a queue: its two ends.
ghost use Rattle.std.specs.Prelude.{◌≡◌, ◌^◌, ◌-◌, true, length, map, IfOk, OnOk, IfErr, IfSome, IfNone};
ghost use Rattle.sim_inbox.specs.Closing.{IsNextTaken};
ghost use Rattle.sim_inbox.specs.Lists.{untaken};
ghost use Rattle.sim_inbox.specs.QueueEnds.{ArePostersOf, BeginWithTaken, NoneLeft, posted_by, taken_from};

use crate::posting::{CloseRefused, PostFault, Posting, Taking};
use crate::rule::{InOrder, Popped, Pushed, View};
use crate::taken::Taken;
use crossbeam_queue::{RuledSegQueue, SegPass};
use sim_types::{List, Post};
use std::alloc::Global;
use std::marker::Model;
use std::sync::{Arc, Wait};

mod closing;
mod opening;

pub use opening::{QueueInbox, new_queue};

/// The queue that the ends share.
struct Line {
    queue: RuledSegQueue<Taken, View, InOrder>,
}

impl Drop for Line {
    fn drop(self) {
        let Self { queue } = self;
        queue.destroy();
    }
}

/// The end of a queue by which one thread posts.
#[derive(Drop)]
pub struct QueuePoster<R: Wait + Clone + Drop> {
    rt: R,
    line: Arc<Line, Global>,
    pass: SegPass<Taken, View>,
    number: u32,
    /// How many items were posted.
    count: u32,
}

impl<R: Wait + Clone + Drop> Model for QueuePoster<R> {
    ghost use Rattle.crossbeam_queue.specs.SegTies.{IsSegPassOf};
    ghost use Rattle.sim_inbox.specs.QueueEnds.{QueuePosterOf, poster_of, IsPosting};
    ghost use Rattle.std.specs.Arc.{arc_value};

    ghost Value = { QueuePosterOf };

    ghost view = { λ a. poster_of a.pass.web a.pass.me.view.client };

    ghost invariant = { λ a. IsSegPassOf (arc_value a.line).queue a.pass
        × IsPosting a.pass.me.view.client a.number a.count };
}

impl<R: Wait + Clone + Drop> Posting for QueuePoster<R> {
    ghost inbox = { λ p. p.inbox };

    ghost number = { λ p. p.number };

    ghost capacity = { λ p. 2 ^ 32 - 1 };

    ghost posted = { posted_by };

    ghost loads = { λ p. 0 };

    ghost taken_seen = { λ p. 0 };

    ghost takes_memory = { true };

    fn post(&mut self, item: Post) -> Result<(), PostFault> {
        let entry = Taken {
            poster: self.number,
            serial: self.count,
            item,
        };
        match self
            .line
            .queue
            .push_as::<Pushed, R>(&self.rt, &mut self.pass, entry)
        {
            Ok(()) => {
                self.count += 1;
                Ok(())
            }
            Err(_) => Err(PostFault::Memory),
        }
    }
}

/// The end of a queue by which one thread takes.
#[derive(Drop)]
pub struct QueueTaker<R: Wait + Clone + Drop> {
    rt: R,
    line: Arc<Line, Global>,
    pass: SegPass<Taken, View>,
}

impl<R: Wait + Clone + Drop> Model for QueueTaker<R> {
    ghost use Rattle.crossbeam_queue.specs.SegTies.{IsSegPassOf};
    ghost use Rattle.sim_inbox.specs.Delivery.{IsTaker};
    ghost use Rattle.sim_inbox.specs.QueueEnds.{QueueTakerOf, taker_of};
    ghost use Rattle.std.specs.Arc.{arc_value};

    ghost Value = { QueueTakerOf };

    ghost view = { λ a. taker_of a.pass.web a.pass.me.view.client };

    ghost invariant = { λ a. IsSegPassOf (arc_value a.line).queue a.pass
        × IsTaker a.pass.me.view.client };
}

impl<R: Wait + Clone + Drop> QueueTaker<R> {
    /// Takes the entry that the queue has held the longest.
    fn next(&mut self) -> Option<Taken>
        ensures some { IfSome result (IsNextTaken self.old self.new) }
        ensures none { IfNone result ((self.new ≡ self.old) × NoneLeft self.new) }
    {
        self.line
            .queue
            .pop_as::<Popped, R>(&self.rt, &mut self.pass)
    }
}

impl<R: Wait + Clone + Drop + Send> Taking for QueueTaker<R> {
    type Poster = QueuePoster<R>;

    ghost inbox = { λ t. t.inbox };

    ghost count = { λ t. length t.wholes };

    ghost taken = { taken_from };

    ghost found_none = { λ before after. NoneLeft after };

    fn take(&mut self) -> Option<Taken> {
        self.next()
    }

    fn close(
        self,
        alloc: Global,
        posters: List<QueuePoster<R>>,
    ) -> Result<List<Taken>, CloseRefused<QueueTaker<R>, QueuePoster<R>>>
        requires all { length posters ≡ length self.wholes }
        requires own { ArePostersOf self.inbox posters }
        ensures left { IfOk result (λ left.
            left ≡ untaken (taken_from self) 0 (map posted_by posters)) }
        ensures whole { OnOk result (BeginWithTaken self posters) }
        ensures refused { IfErr result (λ r. (r.taker ≡ self) × (r.posters ≡ posters)) }
    {
        let mut entries = Vec::new(alloc);
        let mut left = Vec::new(alloc);
        let total = closing::total_posted(posters.as_slice());
        if entries.reserve(total).is_err() || left.reserve(total).is_err() {
            return Err(CloseRefused {
                taker: self,
                posters,
            });
        }
        let count = posters.len();
        let mut taker = self;
        taker.join_all(posters.into_vec());
        taker.drain(&mut entries);
        closing::put_in_order(count, entries.as_slice(), &mut left);
        Ok(List::from_vec(left))
    }
}
