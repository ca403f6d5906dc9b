//! Outcomes that are passed on from one event to another (SimPy's Event.trigger as a callback).
ghost use Rattle.std.specs.Prelude.{◌≡◌, ◌↔◌, ℕ, ◌+◌, ◌<◌, ◌≤◌, ◌^◌, Some, None, IsSome, IsFalse, IsTrue, IsErr, OnOk, OnErr};
ghost use Rattle.sim_types.specs.declared.event.Callback.TheVariants as callback;
ghost use Rattle.sim_machine.specs.Effect as effect;
ghost use Rattle.sim_machine.specs.Events as events;
ghost use Rattle.sim_happen_model.specs.TableOf.{IsKept, kept_at};
ghost use Rattle.sim_happen_model.specs.Changes.{more_callbacks};
ghost use Rattle.sim_happen_model.specs.HappenOf.{one_more, KeepsRoom};
ghost use Rattle.sim_happen_model.specs.Holders.{HasOwnHolder, SameMemberships, PassesOn};
ghost use Rattle.sim_happen_model.specs.Shows.{Turns, Follows};

use crate::fault::AlreadyTriggered;
use crate::happen::Happen;
use crate::triggering::NORMAL;
use sim_types::{Callback, EventId, Outcome};

impl Happen {
    // A pending event gets the outcome of another, if that has one. One that is not pending stays as it is.
    fn pass_on(&mut self, outcome: Option<Outcome>, event: EventId)
        requires kept { IsKept self.old.events event }
        requires not_cancelled { IsFalse (kept_at self.old.events event).event.cancelled }
        ensures follows { Follows (effect.pass_on outcome event) self.old self.new }
        ensures members { SameMemberships self.old.events self.new.events }
        ensures spare { self.new.spare ≡ self.old.spare }
    {
        match outcome {
            Some(x) => {
                let _triggered = self.put_now(event, x, NORMAL);
            }
            None => {}
        }
    }

    // Once an event is processed, it is to pass its outcome on to the other.
    fn append_trigger(&mut self, event: EventId, other: EventId)
        requires kept { IsKept self.old.events event }
        requires unprocessed { IsFalse (kept_at self.old.events event).event.processed }
        requires other { IsKept self.old.events other }
        requires few { (kept_at self.old.events other).holders < 2 ^ 60 }
        requires spare { 0 < self.old.spare.callbacks }
        ensures registered { Turns (events.register event (callback.Trigger other))
            (one_more other) self.old self.new }
        ensures spare { more_callbacks 1 self.new.spare ≡ self.old.spare }
    {
        self.register(event, Callback::Trigger(other));
        self.hold(other);
    }

    /// Once an event is processed, it passes its outcome on to the other, which has a holder more until then. A processed
    /// one does so at once, and then a refusal is the other having its outcome already.
    pub fn chain(&mut self, event: EventId, other: EventId) -> Result<(), AlreadyTriggered>
        requires kept { IsKept self.old.events event }
        requires other { IsKept self.old.events other }
        requires not_cancelled { IsFalse (kept_at self.old.events other).event.cancelled }
        requires few { (kept_at self.old.events other).holders < 2 ^ 60 }
        requires spare { 0 < self.old.spare.callbacks }
        ensures refused { IsErr result ↔ (IsTrue (kept_at self.old.events event).event.processed
            × IsSome (kept_at self.old.events other).event.outcome) }
        ensures registered { OnOk result
            (IsFalse (kept_at self.old.events event).event.processed
            → Turns (events.register event (callback.Trigger other)) (one_more other)
            self.old self.new) }
        ensures passed { OnOk result (let x = (kept_at self.old.events event).event in
            IsTrue x.processed → Follows (effect.pass_on x.outcome other) self.old self.new) }
        ensures err { OnErr result (self.new ≡ self.old) }
        ensures events { self.new.spare.events ≡ self.old.spare.events }
        ensures callbacks { self.old.spare.callbacks ≤ self.new.spare.callbacks + 1 }
        ensures conditions { self.new.spare.conditions ≡ self.old.spare.conditions }
        ensures one_callback { IsFalse (kept_at self.old.events event).event.processed
            → more_callbacks 1 self.new.spare ≡ self.old.spare }
        ensures no_callback { IsTrue (kept_at self.old.events event).event.processed
            → self.new.spare ≡ self.old.spare }
    {
        if !self.is_processed(event) {
            self.append_trigger(event, other);
            return Ok(());
        }
        match self.outcome(other) {
            Some(_) => Err(AlreadyTriggered),
            None => {
                self.pass_on(self.outcome(event), other);
                Ok(())
            }
        }
    }

    // A pending event gets the outcome of another. The other stays kept, and has its holders.
    fn pass_on_from(&mut self, event: EventId, from: EventId)
        requires kept { IsKept self.old.events event }
        requires not_cancelled { IsFalse (kept_at self.old.events event).event.cancelled }
        requires from { IsKept self.old.events from }
        requires held { HasOwnHolder self.old.events event }
        ensures follows { Follows
            (effect.pass_on (kept_at self.old.events from).event.outcome event)
            self.old self.new }
        ensures held { HasOwnHolder self.new.events event }
        ensures spare { self.new.spare ≡ self.old.spare }
    {
        self.pass_on(self.outcome(from), event);
    }

    /// The callback that `chain` appends: the event gets the outcome of the one that is processed, unless it has its own,
    /// and the holder that it had until then is given back.
    pub fn trigger(&mut self, event: EventId, from: EventId)
        requires held { HasOwnHolder self.old.events event }
        requires not_cancelled { IsFalse (kept_at self.old.events event).event.cancelled }
        requires from { IsKept self.old.events from }
        ensures passes { PassesOn (kept_at self.old.events from).event.outcome event
            self.old self.new }
        ensures room { KeepsRoom self.old self.new }
    {
        self.pass_on_from(event, from);
        self.unhold(event);
    }
}
