//! The close of the lanes: the posters' seats join the taker's, and all that is left is taken.
ghost use Rattle.std.specs.Prelude.{◌≡◌, ℕ, ◌+◌, ◌-◌, ◌<◌, ◌≤◌, ◌^◌, List, ◌++◌, length, drop, map, Some, vec_len, vec_capacity};
ghost use Rattle.sim_types.specs.declared.setup.Post.{Post};
ghost use Rattle.sim_inbox.specs.Lists.{numbered, untaken, Begins};
ghost use Rattle.sim_lanes.specs.Views.{lane};
ghost use Rattle.sim_lanes.specs.Plays.{with_whole};
ghost use Rattle.sim_lanes.specs.Ends.{AreInOrder, taken_of, posted_of, with_lane};
ghost use Rattle.sim_lanes.specs.Takes.{SameElsewhere};
ghost use Rattle.sim_lanes.specs.Closing.{whole_of, wholes_of, EachJoined, AllJoined};

use crate::poster::LanePoster;
use crate::steps::PosterSeat;
use crate::taker::LaneTaker;
use sim_inbox::Taken;

impl LanePoster {
    /// How many posts it posted.
    pub fn posted_count(&self) -> u64
        ensures count { result ≡ length (posted_of self.now) }
        ensures few { result < 2 ^ 32 }
    {
        self.end.count
    }
}

impl LaneTaker {
    /// How many posts are left of all these posters.
    pub(crate) fn left_count(&self, posters: &[LanePoster]) -> usize
        requires { length posters.now ≡ length self.now.lanes }
        ensures { result ≡ length (untaken (taken_of self.now) 0 (map posted_of posters.now)) }
    {
        let mut count = 0;
        for p in 0..self.lane_count() {
            let left = posters[p]
                .posted_count()
                .saturating_sub(self.taken_count(p));
            count += left as usize;
        }
        count
    }

    /// Kind 8: takes in what a poster knows.
    fn join(&mut self, poster: LanePoster)
        requires inbox { poster.inbox ≡ self.old.inbox }
        requires number { poster.knows.number < length self.old.lanes }
        ensures { self.new ≡ with_lane self.old poster.knows.number
            (with_whole (lane self.old.lanes poster.knows.number) (posted_of poster)) }
    {
        let LanePoster { table, seat, .. } = poster;
        self.table
            .shared
            .join_seat::<PosterSeat>(&mut self.seat, seat);
        drop(table);
    }

    /// Takes in what all posters know.
    pub(crate) fn join_all(&mut self, mut posters: Vec<LanePoster>)
        requires all { length posters.items ≡ length self.old.lanes }
        requires own { AreInOrder self.old.inbox posters.items }
        ensures { AllJoined self.old self.new (map posted_of posters.items) }
    {
        while let Some(poster) = posters.pop() {
            self.join(poster);
        }
    }

    /// Takes all that is left of a lane whose poster has joined.
    fn drain(&mut self, p: usize, left: &mut Vec<Taken>)
        requires lane { p < length self.old.lanes }
        requires joined { (lane self.old.lanes p).whole ≡ Some (whole_of (lane self.old.lanes p)) }
        requires room { vec_len left.old
            + (length (whole_of (lane self.old.lanes p)) - length (taken_of self.old p))
            ≤ vec_capacity left.old }
        ensures left { left.new.items ≡ left.old.items ++ numbered p (length (taken_of self.old p))
            (drop (length (taken_of self.old p)) (whole_of (lane self.old.lanes p))) }
        ensures whole { Begins (taken_of self.old p) (whole_of (lane self.old.lanes p)) }
        ensures capacity { vec_capacity left.new ≡ vec_capacity left.old }
        ensures others { SameElsewhere self.old self.new p }
    {
        while let Some(taken) = self.take_from(p) {
            left.push_reserved(taken);
        }
    }

    /// Takes all that is left, of one lane after another.
    pub(crate) fn drain_all(&mut self, left: &mut Vec<Taken>)
        requires joined { EachJoined self.old }
        requires room { vec_len left.old
            + length (untaken (taken_of self.old) 0 (wholes_of self.old)) ≤ vec_capacity left.old }
        ensures left { left.new.items
            ≡ left.old.items ++ untaken (taken_of self.old) 0 (wholes_of self.old) }
        ensures whole { (p : ℕ) → p < length self.old.lanes →
            Begins (taken_of self.old p) (whole_of (lane self.old.lanes p)) }
    {
        for p in 0..self.lane_count() {
            self.drain(p, left);
        }
    }
}
