//! Timeouts, and processes that wait (SimPy's "Events" and "Process interaction").
ghost use Rattle.std.specs.Prelude.{◌≡◌, ◌<◌, ◌^◌, [], ◌∷◌, length, IsFalse, IsTrue, IsSome, IfNone, IfSome};
ghost use Rattle.sim_types.specs.declared.event.Callback.TheVariants as callback;
ghost use Rattle.sim_machine.specs.Effect as effect;
ghost use Rattle.sim_machine.specs.Events as events;
ghost use Rattle.sim_machine.specs.Processes as processes;
ghost use Rattle.sim_machine.specs.Scopes.{on_events};
ghost use Rattle.sim_procs.specs.RecordOf.{record_of};
ghost use Rattle.sim_happen_model.specs.TableOf.{IsKept, kept_at};
ghost use Rattle.sim_happen_model.specs.Naming.{but_zero};
ghost use Rattle.sim_happen_model.specs.HappenOf.{AreHeldByFew, held};
ghost use Rattle.sim_steps_model.specs.Becoming.{AreFew, Becomes, BecomesOwing, BecomesWith, IsOwing};
ghost use Rattle.sim_steps_model.specs.PartsOf.{IsRunningIn, KeepsButHappen, KeepsResources};
ghost use Rattle.sim_steps_model.specs.Waiting.{MakesTimeout, RefusesTimeout};

use crate::parts::Parts;
use sim_happen::TimeoutFault;
use sim_procs::Body;
use sim_types::{Callback, EventId, NEGATIVE_DELAY, ProcId, Signal, TIME_TOO_LATE};

impl<B: Body> Parts<B> {
    // An event that is not processed is held, and is to resume a process. Event 0 stands for none, and nobody holds it by naming
    // it.
    fn hold_to_resume(&mut self, on: EventId, process: ProcId)
        requires kept { IsKept self.old.shared.happen.events on }
        requires unprocessed { IsFalse (kept_at self.old.shared.happen.events on).event.processed }
        requires few { AreHeldByFew self.old.shared.happen.events }
        requires room { 0 < self.old.shared.happen.spare.callbacks }
        ensures owes { BecomesOwing B.body [] (but_zero (on ∷ [])) 1
            (on_events (events.register on (callback.Resume process))) self.old self.new }
        ensures rest { KeepsButHappen self.old self.new }
    {
        let happen = self.shared.happen_mut();
        if on.0 != 0 {
            happen.register_held(on, Callback::Resume(process));
        } else {
            happen.register(on, Callback::Resume(process));
        }
    }

    // The running process waits for an event that is not processed. What it waited for before, which is the answer, is to be
    // given back.
    fn begin_to_wait(&mut self, event: EventId, process: ProcId, on: EventId) -> EventId
        requires running { IsRunningIn event process self.old.control }
        requires alive { IsSome (record_of process self.old.live) }
        requires kept { IsKept self.old.shared.happen.events on }
        requires unprocessed { IsFalse (kept_at self.old.shared.happen.events on).event.processed }
        requires few { AreHeldByFew self.old.shared.happen.events }
        requires room { 0 < self.old.shared.happen.spare.callbacks }
        ensures owes { BecomesOwing B.body [] (but_zero (result ∷ [])) 1
            (processes.wait on process) self.old self.new }
        ensures resources { KeepsResources self.old self.new }
    {
        self.hold_to_resume(on, process);
        let left = self.processes.replace_target(process, on);
        self.rest(event);
        left
    }

    // The same, and what the process waited for goes where nobody holds it any more.
    fn wait_for(&mut self, event: EventId, process: ProcId, on: EventId)
        requires running { IsRunningIn event process self.old.control }
        requires alive { IsSome (record_of process self.old.live) }
        requires kept { IsKept self.old.shared.happen.events on }
        requires unprocessed { IsFalse (kept_at self.old.shared.happen.events on).event.processed }
        requires few { AreHeldByFew self.old.shared.happen.events }
        requires owing { IsOwing B.body [] self.old }
        requires room { 0 < self.old.shared.happen.spare.callbacks }
        ensures becomes { BecomesWith B.body 1 (processes.wait on process) self.old self.new }
        ensures resources { KeepsResources self.old self.new }
    {
        let left = self.begin_to_wait(event, process, on);
        self.unhold(left);
    }

    // The running process goes on at once, since the event is processed, and is told how that turned out. A failure that it
    // is told of ends no run by itself.
    fn go_on(&mut self, event: EventId, process: ProcId, on: EventId)
        requires running { IsRunningIn event process self.old.control }
        requires kept { IsKept self.old.shared.happen.events on }
        requires processed { IsTrue (kept_at self.old.shared.happen.events on).event.processed }
        ensures becomes { Becomes B.body (processes.wait on process) self.old self.new }
        ensures resources { KeepsResources self.old self.new }
    {
        let told = self.signal_of(on);
        self.defuse_failed(on);
        self.tell(event, process, told);
    }

    /// The running process waits for an event, unless that is processed.
    pub(crate) fn wait(&mut self, event: EventId, process: ProcId, on: EventId)
        requires running { IsRunningIn event process self.old.control }
        requires alive { IsSome (record_of process self.old.live) }
        requires kept { IsKept self.old.shared.happen.events on }
        requires few { AreHeldByFew self.old.shared.happen.events }
        requires owing { IsOwing B.body [] self.old }
        requires room { 0 < self.old.shared.happen.spare.callbacks }
        ensures becomes { BecomesWith B.body 1 (processes.wait on process) self.old self.new }
        ensures resources { KeepsResources self.old self.new }
    {
        if self.is_processed(on) {
            self.go_on(event, process, on);
        } else {
            self.wait_for(event, process, on);
        }
    }

    // A timeout is made, unless its delay is negative or too long: then the running process is told so.
    fn make_timeout(
        &mut self,
        event: EventId,
        process: ProcId,
        delay: i64,
        value: i64,
    ) -> Option<EventId>
        requires running { IsRunningIn event process self.old.control }
        requires room { 0 < self.old.shared.happen.spare.events }
        requires number { length self.old.shared.happen.events < 2 ^ 62 }
        ensures refused { IfNone result (RefusesTimeout B.body delay value self.old self.new) }
        ensures made { IfSome result (λ e. MakesTimeout B.body delay value e self.old self.new) }
        ensures callbacks { IfSome result (λ e. self.new.shared.happen.spare.callbacks
            ≡ self.old.shared.happen.spare.callbacks) }
        ensures resources { KeepsResources self.old self.new }
    {
        match self.shared.happen_mut().timeout(delay, value) {
            Ok(timeout) => Some(timeout),
            Err(TimeoutFault::NegativeDelay) => {
                self.tell(event, process, Signal::Raised(NEGATIVE_DELAY));
                None
            }
            Err(TimeoutFault::TimeLimit) => {
                self.tell(event, process, Signal::Raised(TIME_TOO_LATE));
                None
            }
        }
    }

    /// The running process is told a timeout that is made, unless the delay is negative or too long.
    pub(crate) fn timeout(&mut self, event: EventId, process: ProcId, delay: i64, value: i64)
        requires running { IsRunningIn event process self.old.control }
        requires room { 0 < self.old.shared.happen.spare.events }
        requires number { length self.old.shared.happen.events < 2 ^ 62 }
        ensures becomes { Becomes B.body (effect.with_timeout delay value effect.tell_made)
            self.old self.new }
        ensures resources { KeepsResources self.old self.new }
    {
        match self.make_timeout(event, process, delay, value) {
            Some(timeout) => self.tell(event, process, Signal::Made(timeout)),
            None => {}
        }
    }

    /// The running process pauses: it waits for a timeout that is made, unless the delay is negative or too long.
    pub(crate) fn pause(&mut self, event: EventId, process: ProcId, delay: i64, value: i64)
        requires running { IsRunningIn event process self.old.control }
        requires alive { IsSome (record_of process self.old.live) }
        requires room_events { 0 < self.old.shared.happen.spare.events }
        requires room_callbacks { 0 < self.old.shared.happen.spare.callbacks }
        requires number { length self.old.shared.happen.events < 2 ^ 62 }
        requires few { AreFew (2 ^ 41) (held self.old.shared.happen) }
        requires owing { IsOwing B.body [] self.old }
        ensures becomes { BecomesWith B.body 1
            (effect.with_timeout delay value (λ e s. processes.wait e process s))
            self.old self.new }
        ensures resources { KeepsResources self.old self.new }
    {
        match self.make_timeout(event, process, delay, value) {
            Some(timeout) => self.wait_for(event, process, timeout),
            None => {}
        }
    }
}
