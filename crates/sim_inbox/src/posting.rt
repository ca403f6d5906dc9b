//! What the two ends of an inbox promise, and how inboxes are opened.
ghost use Rattle.std.specs.Prelude.{◌≡◌, ℕ, Bool, true, ◌+◌, ◌-◌, ◌^◌, ◌<◌, ◌≤◌, List, [], ◌∷◌, ◌++◌, length, map, Some, Err, All, slice_get, slice_index, IfOk, IfErr, OnOk, OnErr, IfSome, IfNone};
ghost use Rattle.sim_types.specs.declared.setup.Post.{Post};
ghost use Rattle.sim_inbox.specs.Lists.{Begins, IsTaken, untaken};

use crate::taken::Taken;
use sim_types::{List, Post};
use std::alloc::{AllocError, Global};

/// Why a post was refused.
#[derive(Clone, Copy)]
pub enum PostFault {
    /// There is no room: the posts by this poster, less those that this call found to be taken, are the capacity.
    Full { taken_seen: u64 },
    /// Memory was wanting.
    Memory,
}

/// There was no memory for the list of what is left. Taker and posters come back as they were.
#[derive(Drop)]
pub struct CloseRefused<T, P> {
    pub taker: T,
    pub posters: List<P>,
}

/// The end of an inbox by which one thread posts.
pub trait Posting {
    /// The numbers that tell this inbox from every other one.
    ghost inbox: { Self → List ℕ };

    /// This poster's place among the posters of its inbox, from 0 on.
    ghost number: { Self → ℕ };

    /// How many posts may wait to be taken.
    ghost capacity: { Self → ℕ };

    /// What was posted, in order.
    ghost posted: { Self → List Post };

    /// How often this end looked how many of its posts were taken.
    ghost loads: { Self → ℕ };

    /// How many those were when it looked last.
    ghost taken_seen: { Self → ℕ };

    /// Whether a post may want memory.
    ghost takes_memory: { Bool };

    /// Posts an item behind all others of this poster.
    fn post(&mut self, item: Post) -> Result<(), PostFault>
        requires count { length (posted self.old) < 2 ^ 32 - 1 }
        ensures inbox { inbox self.new ≡ inbox self.old }
        ensures number { number self.new ≡ number self.old }
        ensures capacity { capacity self.new ≡ capacity self.old }
        ensures ok { OnOk result (posted self.new ≡ posted self.old ++ item ∷ []) }
        ensures err { OnErr result (posted self.new ≡ posted self.old) }
        ensures full { (seen : ℕ) → result ≡ Err (PostFault.Full seen) →
            (loads self.old < loads self.new) × (taken_seen self.new ≡ seen)
            × (length (posted self.old) ≡ seen + capacity self.old) }
        ensures memory { result ≡ Err PostFault.Memory → takes_memory ≡ true };
}

/// The end of an inbox by which one thread takes what the posters post.
pub trait Taking: Sized + Drop {
    type Poster: Posting + Send + Drop;

    /// The numbers that tell this inbox from every other one.
    ghost inbox: { Self → List ℕ };

    /// How many posters the inbox has.
    ghost count: { Self → ℕ };

    /// What was taken of the poster of each number, in order.
    ghost taken: { Self → ℕ → List Post };

    /// What a call that took nothing found, of the taker before and after it.
    ghost found_none: { Self → Self → Type 0 };

    /// Takes the next item of some poster.
    fn take(&mut self) -> Option<Taken>
        ensures inbox { inbox self.new ≡ inbox self.old }
        ensures count { count self.new ≡ count self.old }
        ensures some { IfSome result (λ t. (t.poster < count self.old)
            × IsTaken (taken self.old) (taken self.new) t) }
        ensures none { IfNone result (((p : ℕ) → taken self.new p ≡ taken self.old p)
            × found_none self.old self.new) };

    /// What is left of each poster's list, one poster after another, once all have come back, in order of number.
    fn close(
        self,
        alloc: Global,
        posters: List<Self::Poster>,
    ) -> Result<List<Taken>, CloseRefused<Self, Self::Poster>>
        requires all { length posters ≡ count self }
        requires own { (p : ℕ) (x : Self.Poster) → slice_get posters p ≡ Some x →
            (Self.Poster.number x ≡ p) × (Self.Poster.inbox x ≡ inbox self) }
        ensures left { IfOk result (λ left.
            left ≡ untaken (taken self) 0 (map Self.Poster.posted posters)) }
        ensures whole { OnOk result ((p : ℕ) (x : Self.Poster) → slice_get posters p ≡ Some x →
            Begins (taken self p) (Self.Poster.posted x)) }
        ensures refused { IfErr result (λ r. (r.taker ≡ self) × (r.posters ≡ posters)) };
}

/// A way to open inboxes.
pub trait Inbox {
    type Taker: Taking;

    /// An inbox with a poster for each capacity, which is how many of its posts may wait at least.
    fn open(
        &self,
        alloc: Global,
        capacities: &[u32],
    ) -> Result<(Self::Taker, List<<Self::Taker as Taking>::Poster>), AllocError>
        requires few { length capacities.now ≤ 16 }
        requires each { All (λ c. 0 < c) capacities.now }
        ensures taker { IfOk result (λ r. (Self.Taker.count r.0 ≡ length capacities.now)
            × ((p : ℕ) → Self.Taker.taken r.0 p ≡ [])) }
        ensures many { IfOk result (λ r. length r.1 ≡ length capacities.now) }
        ensures own { IfOk result (λ r.
            (p : ℕ) (x : Self.Taker.Poster) → slice_get r.1 p ≡ Some x →
            (Self.Taker.Poster.number x ≡ p)
            × (Self.Taker.Poster.inbox x ≡ Self.Taker.inbox r.0)) }
        ensures fresh { IfOk result (λ r.
            (p : ℕ) (x : Self.Taker.Poster) → slice_get r.1 p ≡ Some x →
            (Self.Taker.Poster.posted x ≡ [])
            × (slice_index capacities.now p ≤ Self.Taker.Poster.capacity x)) };
}
