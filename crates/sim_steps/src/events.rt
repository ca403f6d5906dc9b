//! Events that a process makes, triggers and chains (SimPy's "Events").
ghost use Rattle.std.specs.Prelude.{◌≡◌, ◌↔◌, ◌<◌, ◌^◌, [], ◌∷◌, length, IsFalse, IsSome, IsErr, OnOk, OnErr};
ghost use Rattle.sim_types.specs.declared.event.Callback.TheVariants as callback;
ghost use Rattle.sim_types.specs.declared.event.Outcome.TheVariants as outcome;
ghost use Rattle.sim_types.specs.declared.op.Op.TheVariants as op;
ghost use Rattle.sim_types.specs.Throws.{failure};
ghost use Rattle.sim_machine.specs.Effect as effect;
ghost use Rattle.sim_machine.specs.Processes as processes;
ghost use Rattle.sim_machine.specs.Triggering as triggering;
ghost use Rattle.sim_happen_model.specs.TableOf.{IsKept, kept_at};
ghost use Rattle.sim_happen_model.specs.Shows.{Follows};
ghost use Rattle.sim_happen_model.specs.HappenOf.{AreHeldByFew};
ghost use Rattle.sim_steps_model.specs.Becoming.{Becomes, BecomesOwing, BecomesWith, IsOwing};
ghost use Rattle.sim_steps_model.specs.Calling.{called};
ghost use Rattle.sim_steps_model.specs.PartsOf.{IsCalling, IsRunningIn, KeepsButHappen, KeepsResources, plan_of};

use crate::parts::Parts;
use sim_events::EventState;
use sim_happen::AlreadyTriggered;
use sim_procs::Body;
use sim_types::{
    ALREADY_TRIGGERED, Callback, EventId, EventKind, FAILURE, Outcome, ProcId, Signal, Throw,
};

/// What a process is told of an event that turned out so.
#[inline(always)]
pub(crate) fn told_of(outcome: Option<Outcome>) -> Signal
    ensures { result ≡ processes.signal_of outcome }
{
    match outcome {
        None => Signal::Value(0),
        Some(Outcome::Ok(value)) => Signal::Value(value),
        Some(Outcome::Fail(what)) => Signal::Thrown(what),
    }
}

impl<B: Body> Parts<B> {
    /// Whether an event is processed.
    pub(crate) fn is_processed(&self, event: EventId) -> bool
        requires kept { IsKept self.now.shared.happen.events event }
        ensures { result ≡ (kept_at self.now.shared.happen.events event).event.processed }
    {
        match self.shared.happen().table().state(event) {
            EventState::Processed => true,
            EventState::Triggered => false,
            EventState::Pending => false,
        }
    }

    // How an event turned out. None where it is pending.
    fn outcome(&self, event: EventId) -> Option<Outcome>
        requires kept { IsKept self.now.shared.happen.events event }
        ensures { result ≡ (kept_at self.now.shared.happen.events event).event.outcome }
    {
        self.shared.happen().table().outcome(event)
    }

    /// What a process is told of an event.
    pub(crate) fn signal_of(&self, event: EventId) -> Signal
        requires kept { IsKept self.now.shared.happen.events event }
        ensures { result
            ≡ processes.signal_of (kept_at self.now.shared.happen.events event).event.outcome }
    {
        told_of(self.outcome(event))
    }

    /// A failure that a process is told of ends no run by itself. Any other event stays as it is.
    pub(crate) fn defuse_failed(&mut self, event: EventId)
        requires kept { IsKept self.old.shared.happen.events event }
        ensures follows { Follows (processes.defuse_failed event)
            self.old.shared.happen self.new.shared.happen }
        ensures rest { KeepsButHappen self.old self.new }
    {
        if self.shared.happen().is_failed(event) {
            self.shared.happen_mut().defuse(event);
        }
    }

    /// The running process is told an event that is made.
    pub(crate) fn new_event(&mut self, event: EventId, process: ProcId)
        requires running { IsRunningIn event process self.old.control }
        requires room { 0 < self.old.shared.happen.spare.events }
        requires number { length self.old.shared.happen.events < 2 ^ 62 }
        ensures becomes { Becomes B.body
            (effect.effect (plan_of B.body self.old) process op.NewEvent)
            self.old self.new }
        ensures resources { KeepsResources self.old self.new }
    {
        let made = self.shared.happen_mut().make(EventKind::Plain);
        self.tell(event, process, Signal::Made(made));
    }

    /// An event gets its outcome now, after all that is urgent, unless it has one.
    pub(crate) fn trigger(
        &mut self,
        event: EventId,
        outcome: Outcome,
    ) -> Result<(), AlreadyTriggered>
        requires kept { IsKept self.old.shared.happen.events event }
        requires not_cancelled { IsFalse
            (kept_at self.old.shared.happen.events event).event.cancelled }
        ensures refused { IsErr result
            ↔ IsSome (kept_at self.old.shared.happen.events event).event.outcome }
        ensures ok { OnOk result (Follows (triggering.trigger event outcome)
            self.old.shared.happen self.new.shared.happen) }
        ensures err { OnErr result (self.new ≡ self.old) }
        ensures rest { KeepsButHappen self.old self.new }
    {
        match outcome {
            Outcome::Ok(value) => self.shared.happen_mut().succeed(event, value),
            Outcome::Fail(what) => self.shared.happen_mut().fail(event, what),
        }
    }

    /// The running process makes an event succeed, and is told whether it had its outcome already.
    #[inline(never)]
    pub(crate) fn succeed(
        &mut self,
        event: EventId,
        process: ProcId,
        triggered: EventId,
        value: i64,
    )
        requires running { IsRunningIn event process self.old.control }
        requires kept { IsKept self.old.shared.happen.events triggered }
        requires not_cancelled { IsFalse
            (kept_at self.old.shared.happen.events triggered).event.cancelled }
        ensures becomes { Becomes B.body
            (effect.trigger_pending triggered (outcome.Ok value)) self.old self.new }
        ensures resources { KeepsResources self.old self.new }
    {
        self.trigger_by(event, process, triggered, Outcome::Ok(value));
    }

    /// The running process makes an event fail, and is told whether it had its outcome already.
    #[inline(never)]
    pub(crate) fn fail(&mut self, event: EventId, process: ProcId, triggered: EventId, value: i64)
        requires running { IsRunningIn event process self.old.control }
        requires kept { IsKept self.old.shared.happen.events triggered }
        requires not_cancelled { IsFalse
            (kept_at self.old.shared.happen.events triggered).event.cancelled }
        ensures becomes { Becomes B.body
            (effect.trigger_pending triggered
            (outcome.Fail (record { kind = failure; value = value })))
            self.old self.new }
        ensures resources { KeepsResources self.old self.new }
    {
        let kind = FAILURE;
        self.trigger_by(
            event,
            process,
            triggered,
            Outcome::Fail(Throw { kind, value }),
        );
    }

    // The running process triggers an event, and is told whether it had its outcome already.
    fn trigger_by(&mut self, event: EventId, process: ProcId, triggered: EventId, outcome: Outcome)
        requires running { IsRunningIn event process self.old.control }
        requires kept { IsKept self.old.shared.happen.events triggered }
        requires not_cancelled { IsFalse
            (kept_at self.old.shared.happen.events triggered).event.cancelled }
        ensures becomes { Becomes B.body
            (effect.trigger_pending triggered outcome) self.old self.new }
        ensures resources { KeepsResources self.old self.new }
    {
        match self.trigger(triggered, outcome) {
            Ok(()) => self.tell(event, process, Signal::Done),
            Err(AlreadyTriggered) => self.tell(event, process, Signal::Raised(ALREADY_TRIGGERED)),
        }
    }

    /// The running process chains two events: once the first is processed, it passes its outcome on to the other, which is held
    /// until then. A processed one does so at once.
    #[inline(never)]
    pub(crate) fn chain(&mut self, event: EventId, process: ProcId, source: EventId, other: EventId)
        requires running { IsRunningIn event process self.old.control }
        requires source { IsKept self.old.shared.happen.events source }
        requires other { IsKept self.old.shared.happen.events other }
        requires not_cancelled { IsFalse
            (kept_at self.old.shared.happen.events other).event.cancelled }
        requires few { AreHeldByFew self.old.shared.happen.events }
        requires room { 0 < self.old.shared.happen.spare.callbacks }
        ensures becomes { BecomesWith B.body 1 (effect.chain source other) self.old self.new }
        ensures resources { KeepsResources self.old self.new }
    {
        match self.shared.happen_mut().chain(source, other) {
            Ok(()) => self.tell(event, process, Signal::Done),
            Err(AlreadyTriggered) => self.tell(event, process, Signal::Raised(ALREADY_TRIGGERED)),
        }
    }

    /// The event passes its outcome on to another, which was held for this and is held no more then.
    #[inline(never)]
    pub(crate) fn call_trigger(&mut self, event: EventId, other: EventId)
        requires calling { IsCalling event self.old.control }
        requires kept { IsKept self.old.shared.happen.events event }
        requires not_cancelled { IsFalse
            (kept_at self.old.shared.happen.events other).event.cancelled }
        requires owing { IsOwing B.body (other ∷ []) self.old }
        ensures owes { BecomesOwing B.body (other ∷ []) [] 0
            (called (plan_of B.body self.old) event (callback.Trigger other))
            self.old self.new }
        ensures resources { KeepsResources self.old self.new }
    {
        self.shared.happen_mut().trigger(other, event);
    }
}
