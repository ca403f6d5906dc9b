//! How events get their outcomes (SimPy's "Events").
ghost use Rattle.std.specs.Prelude.{◌≡◌, ◌↔◌, ℕ, ◌+◌, ◌<◌, ◌≤◌, ◌^◌, pos, ◌≤ℤ◌, ◌<ℤ◌, ◌+ℤ◌, length, None, IsSome, IsFalse, IsErr, IsErrOf, IfOk, OnOk, OnErr};
ghost use Rattle.sim_machine.specs.Events as events;
ghost use Rattle.sim_machine.specs.Triggering as triggering;
ghost use Rattle.sim_happen_model.specs.TableOf.{IsKept, kept_at};
ghost use Rattle.sim_happen_model.specs.Changes.{more_events, more_callbacks};
ghost use Rattle.sim_happen_model.specs.HappenOf.{IsOpen, unheld_event};
ghost use Rattle.sim_happen_model.specs.Shows.{Turns, Follows};

use crate::fault::{AlreadyTriggered, TimeLimit, TimeoutFault};
use crate::happen::Happen;
use sim_types::{Callback, EventId, EventKind, Outcome, ProcId, Throw};

/// The priority of what comes first at a time (SimPy's URGENT).
const URGENT: u8 = 0;

/// The priority of all else (SimPy's NORMAL).
pub(crate) const NORMAL: u8 = 1;

impl Happen {
    /// An event gets its outcome, and an entry in the agenda that is due after this delay from now, with this priority, of
    /// which 0 is urgent and 1 is normal.
    pub fn schedule(
        &mut self,
        event: EventId,
        outcome: Outcome,
        priority: u8,
        delay: i64,
    ) -> Result<(), TimeLimit>
        requires is_open { IsOpen self.old event }
        requires not_past { pos 0 ≤ℤ delay }
        ensures late { IsErr result ↔ pos (2 ^ 62) <ℤ (self.old.time +ℤ delay) }
        ensures ok { OnOk result (Follows (triggering.schedule event outcome priority delay)
            self.old self.new) }
        ensures err { OnErr result (self.new ≡ self.old) }
        ensures spare { self.new.spare ≡ self.old.spare }
    {
        if self.is_too_late(delay) {
            Err(TimeLimit)
        } else {
            let _put = self.put(event, outcome, priority, delay);
            Ok(())
        }
    }

    /// An event succeeds now, unless it has its outcome.
    pub fn succeed(&mut self, event: EventId, value: i64) -> Result<(), AlreadyTriggered>
        requires kept { IsKept self.old.events event }
        requires not_cancelled { IsFalse (kept_at self.old.events event).event.cancelled }
        ensures refused { IsErr result
            ↔ IsSome (kept_at self.old.events event).event.outcome }
        ensures ok { OnOk result (Follows (triggering.succeed event value) self.old self.new) }
        ensures err { OnErr result (self.new ≡ self.old) }
        ensures spare { self.new.spare ≡ self.old.spare }
    {
        self.put_now(event, Outcome::Ok(value), NORMAL)
    }

    /// An event fails now, unless it has its outcome.
    pub fn fail(&mut self, event: EventId, what: Throw) -> Result<(), AlreadyTriggered>
        requires kept { IsKept self.old.events event }
        requires not_cancelled { IsFalse (kept_at self.old.events event).event.cancelled }
        ensures refused { IsErr result
            ↔ IsSome (kept_at self.old.events event).event.outcome }
        ensures ok { OnOk result (Follows (triggering.fail event what) self.old self.new) }
        ensures err { OnErr result (self.new ≡ self.old) }
        ensures spare { self.new.spare ≡ self.old.spare }
    {
        self.put_now(event, Outcome::Fail(what), NORMAL)
    }

    /// A timeout event: it succeeds, and is popped after this delay.
    #[inline(always)]
    pub fn timeout(&mut self, delay: i64, value: i64) -> Result<EventId, TimeoutFault>
        requires spare { 0 < self.old.spare.events }
        requires number { length self.old.events < 2 ^ 62 }
        ensures negative { IsErrOf result TimeoutFault.NegativeDelay ↔ delay <ℤ pos 0 }
        ensures late { IsErrOf result TimeoutFault.TimeLimit
            ↔ ((pos 0 ≤ℤ delay) × (pos (2 ^ 62) <ℤ (self.old.time +ℤ delay))) }
        ensures id { IfOk result (λ e. e.0 ≡ length self.old.events) }
        ensures ok { OnOk result (Turns (triggering.make_timeout delay value) unheld_event
            self.old self.new) }
        ensures err { OnErr result (self.new ≡ self.old) }
        ensures spare { OnOk result (more_events 1 self.new.spare ≡ self.old.spare) }
    {
        if delay < 0 {
            Err(TimeoutFault::NegativeDelay)
        } else if self.is_too_late(delay) {
            Err(TimeoutFault::TimeLimit)
        } else {
            Ok(self.make_scheduled(EventKind::Timeout, Outcome::Ok(value), NORMAL, delay))
        }
    }

    /// An interruption of a process: an urgent event at now that throws this into it, and ends no run by itself.
    pub fn interrupt(&mut self, process: ProcId, what: Throw) -> EventId
        requires spare_events { 0 < self.old.spare.events }
        requires spare_callbacks { 0 < self.old.spare.callbacks }
        requires number { length self.old.events < 2 ^ 62 }
        ensures id { result.0 ≡ length self.old.events }
        ensures made { Turns (triggering.make_interruption process what) unheld_event
            self.old self.new }
        ensures spare { more_events 1 (more_callbacks 1 self.new.spare) ≡ self.old.spare }
    {
        let event = self.make(EventKind::Interrupt);
        self.register(event, Callback::Strike(process));
        self.defuse(event);
        let _put = self.put_now(event, Outcome::Fail(what), URGENT);
        event
    }
}
