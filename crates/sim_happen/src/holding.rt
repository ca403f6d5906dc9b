//! How a holder is given back, with what the event held as a condition.
ghost use Rattle.std.specs.Prelude.{◌≡◌, ◌⊎◌, [], IsTrue, IsFalse};
ghost use Rattle.sim_events.specs.States.{is_unhandled};
ghost use Rattle.sim_happen_model.specs.TableOf.{IsKept, is_needed, kept_at};
ghost use Rattle.sim_happen_model.specs.Changes.{without_holder};
ghost use Rattle.sim_happen_model.specs.HappenOf.{KeepsRoom};
ghost use Rattle.sim_happen_model.specs.Holders.{HasOwnHolder, members_in, unheld_within, unheld};

use crate::happen::Happen;
use sim_types::EventId;

impl Happen {
    // Whether an event is a condition that goes where it has one holder fewer, so that its members have one fewer too.
    #[inline(always)]
    fn goes_with_members(&self, event: EventId) -> bool
        requires kept { IsKept self.now.events event }
        ensures stays { IsFalse result → (let k = kept_at self.now.events event in
            IsTrue (is_needed (without_holder k)) ⊎ (members_in k ≡ [])) }
        ensures goes { IsTrue result
            → IsFalse (is_needed (without_holder (kept_at self.now.events event))) }
    {
        self.is_condition(event) && self.goes_without_holder(event)
    }

    // One holder fewer; where the event goes, each of its members has one fewer, and so on inwards.
    fn give_back(&mut self, depth: u64, event: EventId)
        requires held { HasOwnHolder self.old.events event }
        ensures events { self.new.events ≡ unheld_within depth event self.old.events }
        ensures rest { self.new
            ≡ record self.old { events = self.new.events; spare = self.new.spare } }
        ensures room { KeepsRoom self.old self.new }
    {
        if depth > 0 {
            if self.goes_with_members(event) {
                let members = self.members(event);
                self.release(event);
                for member in members.as_slice() {
                    self.give_back(depth - 1, *member);
                }
            } else {
                self.release(event);
            }
        }
    }

    // One holder fewer of a condition, as by `unhold`.
    fn unhold_condition(&mut self, event: EventId)
        requires held { HasOwnHolder self.old.events event }
        ensures events { self.new.events ≡ unheld event self.old.events }
        ensures rest { self.new
            ≡ record self.old { events = self.new.events; spare = self.new.spare } }
        ensures room { KeepsRoom self.old self.new }
    {
        // Members are copied, so what has none to give back goes another way.
        if self.goes_with_members(event) {
            self.give_back(self.depth_of(event), event);
        } else {
            self.release(event);
        }
    }

    /// One holder fewer, beside those that are conditions. Where the event is processed or cancelled and nobody else holds
    /// it, it goes, and where it is a condition each of its members has a holder fewer, and so on inwards.
    pub fn unhold(&mut self, event: EventId)
        requires held { HasOwnHolder self.old.events event }
        ensures events { self.new.events ≡ unheld event self.old.events }
        ensures rest { self.new
            ≡ record self.old { events = self.new.events; spare = self.new.spare } }
        ensures room { KeepsRoom self.old self.new }
    {
        // Most events are no conditions, and are looked up once.
        if self.release_plain(event).is_none() {
            self.unhold_condition(event);
        }
    }

    /// All callbacks of an event were called: the holder that it had while it was processed is given back. The answer is
    /// whether it failed and nobody defused it, so that it ends the run.
    #[inline(always)]
    pub fn settle(&mut self, event: EventId) -> bool
        requires held { HasOwnHolder self.old.events event }
        ensures unhandled { result ≡ is_unhandled (kept_at self.old.events event).event }
        ensures events { self.new.events ≡ unheld event self.old.events }
        ensures rest { self.new
            ≡ record self.old { events = self.new.events; spare = self.new.spare } }
        ensures room { KeepsRoom self.old self.new }
    {
        match self.release_plain(event) {
            Some(unhandled) => unhandled,
            None => {
                let unhandled = self.is_unhandled(event);
                self.unhold_condition(event);
                unhandled
            }
        }
    }
}
