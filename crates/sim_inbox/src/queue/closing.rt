//! The parts of a close: all posters join, what the queue holds is taken, and it is put in order of posters.
ghost use Rattle.std.specs.Prelude.{◌≡◌, ◌-◌, ◌<◌, ◌≤◌, ◌^◌, [], length, map, Some, min, sum_by, slice_set, vec_capacity};
ghost use Rattle.sim_inbox.specs.Closing.{AreLeft, HaveJoined, in_order, lists_of};
ghost use Rattle.sim_inbox.specs.Lists.{untaken};
ghost use Rattle.sim_inbox.specs.QueueEnds.{ArePostersOf, posted_by, taken_from};

use super::{QueuePoster, QueueTaker};
use crate::rule::Posters;
use crate::taken::Taken;
use std::sync::Wait;

impl<R: Wait + Clone + Drop> QueuePoster<R> {
    /// How many items were posted.
    fn count(&self) -> u32
        ensures { result ≡ length self.now.posted }
    {
        self.count
    }
}

/// How many items all posters posted, or 2^64 - 1 where there are more.
pub(super) fn total_posted<R: Wait + Clone + Drop>(posters: &[QueuePoster<R>]) -> usize
    ensures { result ≡ min (sum_by (λ x. length x.posted) posters.now) (2 ^ 64 - 1) }
{
    let mut total: usize = 0;
    for poster in posters {
        total = total.saturating_add(poster.count() as usize);
    }
    total
}

impl<R: Wait + Clone + Drop> QueueTaker<R> {
    /// Takes in what a poster knows.
    fn join(&mut self, poster: QueuePoster<R>)
        requires inbox { poster.inbox ≡ self.old.inbox }
        requires number { poster.number < length self.old.wholes }
        ensures { self.new ≡ record self.old {
          wholes = slice_set self.old.wholes poster.number (Some poster.posted);
        } }
    {
        let QueuePoster { rt, line, pass, .. } = poster;
        self.line.queue.absorb::<Posters>(&mut self.pass, pass);
        drop(line);
        drop(rt);
    }

    /// Takes in what all posters know.
    pub(super) fn join_all(&mut self, mut posters: Vec<QueuePoster<R>>)
        requires all { length posters.items ≡ length self.old.wholes }
        requires own { ArePostersOf self.old.inbox posters.items }
        ensures { self.new ≡ record self.old { wholes = map Some (map posted_by posters.items) } }
    {
        while let Some(poster) = posters.pop() {
            self.join(poster);
        }
    }

    /// Takes all that is left, once all posters have joined.
    pub(super) fn drain(&mut self, entries: &mut Vec<Taken>)
        requires joined { HaveJoined self.old }
        requires empty { entries.old.items ≡ [] }
        requires room { length (untaken (taken_from self.old) 0 (lists_of self.old))
            ≤ vec_capacity entries.old }
        ensures { AreLeft (taken_from self.old) (lists_of self.old) entries.new.items }
    {
        while let Some(entry) = self.next() {
            entries.push_reserved(entry);
        }
    }
}

/// The entries of so many posters, one poster after another.
#[tactic(auto, using(crate::proofs::InOrder::in_order_passed))]
pub(super) fn put_in_order(posters: usize, entries: &[Taken], into: &mut Vec<Taken>)
    requires empty { into.old.items ≡ [] }
    requires room { length (in_order posters entries.now) ≤ vec_capacity into.old }
    ensures { into.new.items ≡ in_order posters entries.now }
{
    for poster in 0..posters {
        for entry in entries {
            if entry.poster as usize == poster {
                into.push_reserved(*entry);
            }
        }
    }
}
