//! The end of a lane by which one thread posts.
ghost use Rattle.std.specs.Prelude.{◌≡◌, ℕ, ◌+◌, ◌-◌, ◌<◌, ◌≤◌, ◌^◌, length, false, true, Some};
ghost use Rattle.sim_lanes.specs.Steps.{saw_head, wrote_port, wrote_value, posted_next, AreKnown, HasRoom, HeadFound};
ghost use Rattle.sim_lanes.specs.Ends.{PosterOf, posted_of};
ghost use Rattle.sim_types.specs.declared.setup.Post.{Post};

use crate::lane_end::LaneEnd;
use crate::rule::{LaneSeat, LaneTable};
use crate::steps::{LoadHead, StorePort, StoreTail, StoreValue};
use sim_inbox::{PostFault, Posting};
use sim_types::Post;
use std::alloc::Global;
use std::marker::Model;
use std::sync::Arc;

/// A poster over a lane. Contracts see what its seat knows.
#[derive(Drop)]
pub struct LanePoster {
    pub(crate) table: Arc<LaneTable, Global>,
    pub(crate) seat: LaneSeat,
    pub(crate) end: LaneEnd,
}

impl Model for LanePoster {
    ghost use Rattle.sim_lanes.specs.Ends.{PosterOf, poster_of, IsPosting};
    ghost use Rattle.std.specs.Arc.{arc_value};

    ghost Value = { PosterOf };

    ghost view = { λ a. poster_of a.seat.table_id a.seat.me.0 };

    ghost invariant = { λ a. IsPosting (arc_value a.table).shared.key
        (arc_value a.table).shared.table_id a.seat.table_id a.seat.me a.end };
}

impl LanePoster {
    /// Kind 1: how many of its posts are taken.
    fn load_head(&mut self) -> u64
        ensures knows { self.new ≡ record self.old { knows = saw_head self.old.knows result } }
        ensures found { HeadFound self.old.knows result }
    {
        self.table
            .shared
            .load::<LoadHead>(&mut self.seat, self.end.place)
    }

    /// Kind 2: the port of the next post.
    fn store_port(&mut self, port: u32)
        requires { HasRoom self.old.knows }
        ensures { self.new ≡ record self.old { knows = wrote_port self.old.knows port } }
    {
        self.table
            .shared
            .store::<StorePort>(&mut self.seat, self.end.cell(), u64::from(port));
    }

    /// Kind 2: the value of the next post.
    fn store_value(&mut self, value: i64)
        requires { HasRoom self.old.knows }
        ensures { self.new ≡ record self.old { knows = wrote_value self.old.knows value } }
    {
        self.table
            .shared
            .store::<StoreValue>(&mut self.seat, self.end.cell() + 1, value.cast_unsigned());
    }

    /// Kind 3: one more is posted.
    fn store_tail(&mut self)
        requires few { length (posted_of self.old) < 2 ^ 32 - 1 }
        requires written { AreKnown self.old.knows.port self.old.knows.value }
        ensures { self.new ≡ record self.old { knows = posted_next self.old.knows } }
    {
        self.end.count += 1;
        self.table
            .shared
            .store::<StoreTail>(&mut self.seat, self.end.place + 1, self.end.count);
    }

    /// Whether as many posts wait as there are cells, where so many are taken.
    fn is_full(&self, taken: u64) -> bool
        requires { HeadFound self.now.knows taken }
        ensures full { result ≡ true
            → length (posted_of self.now) ≡ taken + self.now.knows.capacity }
        ensures room { result ≡ false
            → length (posted_of self.now) < taken + self.now.knows.capacity }
    {
        self.end.count - taken == self.end.capacity
    }
}

impl Posting for LanePoster {
    ghost inbox = { λ x. x.inbox };

    ghost number = { λ x. x.knows.number };

    ghost capacity = { λ x. x.knows.capacity };

    ghost posted = { posted_of };

    ghost loads = { λ x. x.knows.loads };

    ghost taken_seen = { λ x. x.knows.taken_seen };

    ghost takes_memory = { false };

    fn post(&mut self, item: Post) -> Result<(), PostFault> {
        let taken_seen = self.load_head();
        if self.is_full(taken_seen) {
            return Err(PostFault::Full { taken_seen });
        }
        self.store_port(item.port);
        self.store_value(item.value);
        self.store_tail();
        Ok(())
    }
}
