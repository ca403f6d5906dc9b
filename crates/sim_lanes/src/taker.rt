//! The end of all lanes, by which one thread takes.
ghost use Rattle.std.specs.Prelude.{◌≡◌, ℕ, ◌+◌, ◌<◌, ◌≤◌, ◌^◌, List, length, map, slice_get, Some, IfSome, IfNone, IfOk, OnOk, IfErr};
ghost use Rattle.sim_inbox.specs.Lists.{Begins, untaken};
ghost use Rattle.sim_lanes.specs.Places.{width};
ghost use Rattle.sim_lanes.specs.Views.{lane};
ghost use Rattle.sim_lanes.specs.Steps.{saw_tail, read_port, read_value, took_next, AreKnown, HasWaiting, TailFound};
ghost use Rattle.sim_lanes.specs.Ends.{PosterOf, AreInOrder, taken_of, posted_of, with_lane};
ghost use Rattle.sim_lanes.specs.Takes.{TookFrom, FoundNone, FoundNoneAnywhere};

use crate::lane_end::LaneEnd;
use crate::poster::LanePoster;
use crate::rule::{LaneSeat, LaneTable};
use crate::steps::{LoadPort, LoadTail, LoadValue, StoreHead};
use sim_inbox::{CloseRefused, Taken, Taking};
use sim_types::{List, Post};
use std::alloc::Global;
use std::marker::Model;
use std::sync::Arc;

/// The taker of all lanes. Contracts see what its seat knows of each.
#[derive(Drop)]
pub struct LaneTaker {
    pub(crate) table: Arc<LaneTable, Global>,
    pub(crate) seat: LaneSeat,
    pub(crate) ends: Vec<LaneEnd>,
}

impl Model for LaneTaker {
    ghost use Rattle.sim_lanes.specs.Ends.{TakerOf, taker_of, IsTaking};
    ghost use Rattle.std.specs.Arc.{arc_value};

    ghost Value = { TakerOf };

    ghost view = { λ a. taker_of a.seat.table_id a.seat.me.0 };

    ghost invariant = { λ a. IsTaking (arc_value a.table).shared.key
        (arc_value a.table).shared.table_id a.seat.table_id a.seat.me a.ends.items };
}

impl LaneTaker {
    /// How many lanes there are.
    pub(crate) fn lane_count(&self) -> usize
        ensures count { result ≡ length self.now.lanes }
        ensures few { result ≤ 16 }
    {
        self.ends.len()
    }

    /// This end of a lane: where it lies, and how many posts of it were taken.
    fn end(&self, p: usize) -> LaneEnd
        requires { p < length self.now.lanes }
        ensures number { p < 16 }
        ensures place { result.place ≡ (lane self.now.lanes p).place }
        ensures capacity { result.capacity ≡ (lane self.now.lanes p).capacity }
        ensures count { result.count ≡ length (taken_of self.now p) }
        ensures some_room { 0 < result.capacity }
        ensures small { result.place + width result.capacity < 2 ^ 63 }
    {
        self.ends[p]
    }

    /// How many posts of a lane were taken.
    pub(crate) fn taken_count(&self, p: usize) -> u64
        requires { p < length self.now.lanes }
        ensures { result ≡ length (taken_of self.now p) }
    {
        self.end(p).count
    }

    /// Kind 4: how many were posted on a lane.
    fn load_tail(&mut self, p: usize) -> u64
        requires { p < length self.old.lanes }
        ensures knows { self.new ≡ with_lane self.old p (saw_tail (lane self.old.lanes p) result) }
        ensures found { TailFound (lane self.old.lanes p) result }
    {
        let tail = self.end(p).place + 1;
        self.table.shared.load::<LoadTail>(&mut self.seat, tail)
    }

    /// Kind 5: the port of a lane's next post.
    fn load_port(&mut self, p: usize) -> u32
        requires lane { p < length self.old.lanes }
        requires waiting { HasWaiting (lane self.old.lanes p) }
        ensures { self.new ≡ with_lane self.old p (read_port (lane self.old.lanes p) result) }
    {
        let cell = self.end(p).cell();
        self.table.shared.load::<LoadPort>(&mut self.seat, cell) as u32
    }

    /// Kind 5: the value of a lane's next post.
    fn load_value(&mut self, p: usize) -> i64
        requires lane { p < length self.old.lanes }
        requires waiting { HasWaiting (lane self.old.lanes p) }
        ensures { self.new ≡ with_lane self.old p (read_value (lane self.old.lanes p) result) }
    {
        let cell = self.end(p).cell();
        self.table
            .shared
            .load::<LoadValue>(&mut self.seat, cell + 1)
            .cast_signed()
    }

    /// Kind 6: one more is taken of a lane.
    fn store_head(&mut self, p: usize)
        requires lane { p < length self.old.lanes }
        requires few { length (taken_of self.old p) < 2 ^ 32 }
        requires read { AreKnown (lane self.old.lanes p).port (lane self.old.lanes p).value }
        ensures { self.new ≡ with_lane self.old p (took_next (lane self.old.lanes p)) }
    {
        let LaneEnd { place, count, .. } = self.end(p);
        self.table
            .shared
            .store::<StoreHead>(&mut self.seat, place, count + 1);
        self.ends[p].count = count + 1;
    }

    /// Takes the next post of a lane, if its tail tells of one.
    pub(crate) fn take_from(&mut self, p: usize) -> Option<Taken>
        requires { p < length self.old.lanes }
        ensures some { IfSome result (TookFrom self.old self.new p) }
        ensures none { IfNone result (FoundNone self.old self.new p) }
    {
        let count = self.end(p).count;
        if self.load_tail(p) == count {
            return None;
        }
        let port = self.load_port(p);
        let value = self.load_value(p);
        self.store_head(p);
        Some(Taken {
            poster: p as u32,
            serial: count as u32,
            item: Post { port, value },
        })
    }
}

impl Taking for LaneTaker {
    type Poster = LanePoster;

    ghost inbox = { λ t. t.inbox };

    ghost count = { λ t. length t.lanes };

    ghost taken = { taken_of };

    ghost found_none = { FoundNoneAnywhere };

    fn take(&mut self) -> Option<Taken> {
        for p in 0..self.lane_count() {
            if let Some(taken) = self.take_from(p) {
                return Some(taken);
            }
        }
        None
    }

    fn close(
        self,
        alloc: Global,
        posters: List<LanePoster>,
    ) -> Result<List<Taken>, CloseRefused<LaneTaker, LanePoster>>
        requires all { length posters ≡ length self.lanes }
        requires own { AreInOrder self.inbox posters }
        ensures left { IfOk result (λ left.
            left ≡ untaken (taken_of self) 0 (map posted_of posters)) }
        ensures whole { OnOk result ((p : ℕ) (x : PosterOf) → slice_get posters p ≡ Some x →
            Begins (taken_of self p) (posted_of x)) }
        ensures refused { IfErr result (λ r. (r.taker ≡ self) × (r.posters ≡ posters)) }
    {
        let mut left = Vec::new(alloc);
        let count = self.left_count(posters.as_slice());
        if left.reserve(count).is_err() {
            return Err(CloseRefused {
                taker: self,
                posters,
            });
        }
        let mut taker = self;
        taker.join_all(posters.into_vec());
        taker.drain_all(&mut left);
        Ok(List::from_vec(left))
    }
}
