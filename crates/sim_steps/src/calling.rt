//! Events are popped, their callbacks are called, and then they are settled (SimPy's Environment.step).
ghost use Rattle.std.specs.Prelude.{◌≡◌, ◌≢◌, ◌<◌, ◌^◌, [], ◌∷◌, IsTrue, Some, IfNone, IfSome, ◌+◌, ◌≤◌, length};
ghost use Rattle.std.specs.Option.{option_to_list};
ghost use Rattle.sim_types.specs.declared.event.Callback.TheVariants as callback;
ghost use Rattle.sim_machine.specs.State.{Active, Calling, Idle, Over};
ghost use Rattle.sim_machine.specs.Standing.{left_of};
ghost use Rattle.sim_machine.specs.Processes as processes;
ghost use Rattle.sim_machine.specs.Steps as steps;
ghost use Rattle.sim_machine.specs.LawfulTries.{tries_well};
ghost use Rattle.sim_happen_model.specs.Changes.{more_callbacks};
ghost use Rattle.sim_events.specs.States.{is_unhandled};
ghost use Rattle.sim_happen_model.specs.TableOf.{AreNeeded, IsKept, kept_at};
ghost use Rattle.sim_happen_model.specs.Holders.{HasOwnHolder, unheld};
ghost use Rattle.sim_happen_model.specs.Shows.{Follows};
ghost use Rattle.sim_happen_model.specs.HappenOf.{KeepsRoom, held};
ghost use Rattle.sim_shared_model.specs.Measuring.{ChangesOnlyAt};
ghost use Rattle.sim_shared_model.specs.Waiting.{AreAllOpen};
ghost use Rattle.sim_happen_model.specs.Naming.{but_zero, triggered_by};
ghost use Rattle.sim_steps_model.specs.Becoming.{AreFew, Becomes, BecomesOwing, IsOwing, Moves};
ghost use Rattle.sim_steps_model.specs.Calling.{called, CallsKept, TakesCallback};
ghost use Rattle.sim_steps_model.specs.Conditions.{CallsCondition};
ghost use Rattle.sim_steps_model.specs.PartsOf.{HasRoomForNext, IsCalling, KeepsButHappen, KeepsResources, call_takes_room, plan_of, with_happen};
ghost use Rattle.sim_steps_model.specs.Resources.{AreResourcesReady};
ghost use Rattle.sim_steps_model.specs.StandsFor.{StandsForSome};

use crate::events::told_of;
use crate::parts::Parts;
use sim_procs::Body;
use sim_steps_model::{Mode, Unit};
use sim_types::{Callback, End, EventId, EventKind, Line, ProcId, Signal};

impl<B: Body> Parts<B> {
    /// Pops the event that is due.
    #[inline(always)]
    pub(crate) fn pop(&mut self) -> Unit
        requires idle { self.old.control ≡ Idle }
        requires due { self.old.shared.happen.agenda ≢ [] }
        requires few { AreFew (2 ^ 40) (held self.old.shared.happen) }
        requires number { self.old.processed < 2 ^ 62 }
        ensures moves { Moves B.body self.old result self.new }
        ensures resources { KeepsResources self.old self.new }
    {
        match self.shared.happen_mut().step() {
            None => unreachable!(),
            Some(line) => {
                self.processed += 1;
                self.mode = match line {
                    Line::Event { event, .. } => Mode::Calling(event),
                    _ => unreachable!(),
                };
                Unit::Line(line)
            }
        }
    }

    // The run is over, and was stopped at this event.
    fn end_run(&mut self, why: End, event: EventId)
        requires calling { IsCalling event self.old.control }
        ensures { self.new ≡ record self.old {
          control = Over why event
              (left_of self.old.control);
        } }
    {
        self.mode = Mode::Over(why, event);
    }

    // Nothing is being done any more.
    fn go_idle(&mut self, event: EventId)
        requires done { self.old.control ≡ Calling event [] }
        ensures { self.new ≡ record self.old { control = Idle } }
    {
        self.mode = Mode::Idle;
    }

    // The holder is given back that an event has while it is processed. The answer is whether it failed and nobody defused
    // it. Event 0 has no such holder.
    #[inline(always)]
    fn unhold_settled(&mut self, event: EventId) -> bool
        requires kept { IsKept self.old.shared.happen.events event }
        requires held { event.0 ≢ 0 → HasOwnHolder self.old.shared.happen.events event }
        ensures unhandled { result
            ≡ is_unhandled (kept_at self.old.shared.happen.events event).event }
        ensures zero { event.0 ≡ 0 → self.new ≡ self.old }
        ensures events { event.0 ≢ 0
            → self.new.shared.happen.events ≡ unheld event self.old.shared.happen.events }
        ensures rest { let x = self.new.shared.happen in self.new ≡ with_happen
            (record self.old.shared.happen { events = x.events; spare = x.spare }) self.old }
        ensures room { KeepsRoom self.old.shared.happen self.new.shared.happen }
    {
        if event.0 == 0 {
            self.shared.happen().is_unhandled(event)
        } else {
            self.shared.happen_mut().settle(event)
        }
    }

    // No callback of the event is left: it is settled, and goes where nobody holds it any more. A failure that nobody defused
    // ends the run.
    #[inline(always)]
    fn settle(&mut self, event: EventId)
        requires done { self.old.control ≡ Calling event [] }
        requires kept { IsKept self.old.shared.happen.events event }
        requires owing { IsOwing B.body [] self.old }
        ensures becomes { Becomes B.body (steps.settle event) self.old self.new }
        ensures resources { KeepsResources self.old self.new }
    {
        if self.unhold_settled(event) {
            self.end_run(End::Crash, event);
        } else {
            self.go_idle(event);
        }
    }

    // The event ends the run. It is not processed any more, and its holder is to be given back.
    fn stop_at(&mut self, event: EventId)
        requires calling { IsCalling event self.old.control }
        requires kept { IsKept self.old.shared.happen.events event }
        ensures owes { BecomesOwing B.body [] (but_zero (event ∷ [])) 0
            (called (plan_of B.body self.old) event callback.Stop) self.old self.new }
        ensures resources { KeepsResources self.old self.new }
    {
        let why = if self.shared.happen().is_failed(event) {
            End::Crash
        } else {
            End::Until
        };
        self.end_run(why, event);
    }

    // The event stops the run, and goes where nobody holds it any more.
    fn stop(&mut self, event: EventId)
        requires calling { IsCalling event self.old.control }
        requires kept { IsKept self.old.shared.happen.events event }
        requires owing { IsOwing B.body [] self.old }
        ensures becomes { Becomes B.body (called (plan_of B.body self.old) event callback.Stop)
            self.old self.new }
        ensures resources { KeepsResources self.old self.new }
    {
        self.stop_at(event);
        self.unhold(event);
    }

    // What a process is told by an event that resumes it: an init event begins it.
    #[inline(always)]
    fn signal_by(&self, event: EventId) -> Signal
        requires kept { IsKept self.now.shared.happen.events event }
        ensures { let x = (kept_at self.now.shared.happen.events event).event in
            result ≡ steps.signal_by x.kind x.outcome }
    {
        match self.shared.happen().table().kind_and_outcome(event) {
            (EventKind::Init, _) => Signal::Begin,
            (_, outcome) => told_of(outcome),
        }
    }

    // A failure that a process is told of ends no run by itself. An event that it is told a value of did not fail.
    fn defuse_told(&mut self, event: EventId, told: Signal)
        requires kept { IsKept self.old.shared.happen.events event }
        requires told { let x = (kept_at self.old.shared.happen.events event).event in
            told ≡ steps.signal_by x.kind x.outcome }
        ensures follows { Follows (processes.defuse_failed event)
            self.old.shared.happen self.new.shared.happen }
        ensures rest { KeepsButHappen self.old self.new }
    {
        if !matches!(told, Signal::Value(_)) {
            self.defuse_failed(event);
        }
    }

    // A process runs within the call of a callback of the event, and is to be told this.
    fn run(&mut self, event: EventId, process: ProcId, told: Signal)
        requires calling { IsCalling event self.old.control }
        ensures { self.new
            ≡ record self.old { control = Active event (left_of self.old.control) process told } }
    {
        self.mode = Mode::Active(event, process, told);
    }

    // The event resumes a process.
    #[inline(always)]
    fn resume(&mut self, event: EventId, process: ProcId)
        requires calling { IsCalling event self.old.control }
        requires kept { IsKept self.old.shared.happen.events event }
        ensures becomes { Becomes B.body
            (called (plan_of B.body self.old) event (callback.Resume process))
            self.old self.new }
        ensures resources { KeepsResources self.old self.new }
    {
        let told = self.signal_by(event);
        self.defuse_told(event, told);
        self.run(event, process, told);
    }

    // Takes the first of the callbacks that are left to call. None where there is none.
    fn take_callback(&mut self, event: EventId) -> Option<Callback>
        requires calling { IsCalling event self.old.control }
        ensures done { IfNone result (self.old.control ≡ Calling event []) }
        ensures same { IfNone result (self.new ≡ self.old) }
        ensures taken { IfSome result (λ x. TakesCallback event x self.old self.new) }
        ensures spare { IfSome result (λ x. self.new.shared.happen.spare
            ≡ more_callbacks 1 self.old.shared.happen.spare) }
    {
        self.shared.happen_mut().next()
    }

    // Calls a callback of the event, which was taken out of those that are left to call: what it passes an outcome on to was
    // held for this. The answer is the place of a resource that was tried.
    #[inline(always)]
    fn answer(&mut self, event: EventId, callback: Callback) -> Option<u32>
        requires calling { IsCalling event self.old.control }
        requires kept { IsKept self.old.shared.happen.events event }
        requires names { CallsKept callback self.old }
        requires conditions { CallsCondition event callback self.old.shared.happen.events }
        requires tries { IsTrue (tries_well (length self.old.setup.resources) callback) }
        requires waiting { AreAllOpen self.old.shared }
        requires ready { IsTrue (call_takes_room (Some callback)) → AreResourcesReady self.old }
        requires owing { IsOwing B.body (triggered_by callback) self.old }
        ensures owes { BecomesOwing B.body (triggered_by callback) [] 0
            (called (plan_of B.body self.old) event callback) self.old self.new }
        ensures touched { ChangesOnlyAt (option_to_list result)
            self.old.shared self.new.shared }
    {
        match callback {
            Callback::Resume(process) => self.resume(event, process),
            Callback::Strike(process) => self.strike(event, process),
            Callback::Check(condition) => self.check(condition, event),
            Callback::Build(condition) => self.build(condition),
            Callback::TryPut(res) => {
                self.call_try_put(event, res);
                return Some(res);
            }
            Callback::TryGet(res) => {
                self.call_try_get(event, res);
                return Some(res);
            }
            Callback::Stop => self.stop(event),
            Callback::Trigger(other) => self.call_trigger(event, other),
        }
        None
    }

    /// Calls the first callback that is left, or settles the event where none is. The answer is the place of the resource at
    /// which what is measured may have changed, if there is one.
    #[inline(always)]
    pub(crate) fn call(&mut self, event: EventId) -> Option<u32>
        requires calling { IsCalling event self.old.control }
        requires stands { StandsForSome B.body self.old }
        requires needed { AreNeeded self.old.shared.happen.events }
        requires room { HasRoomForNext self.old }
        requires events { length self.old.shared.happen.events + 40 ≤ 2 ^ 62 }
        ensures moves { Moves B.body self.old Unit.Quiet self.new }
        ensures touched { ChangesOnlyAt (option_to_list result)
            self.old.shared self.new.shared }
    {
        match self.take_callback(event) {
            None => {
                self.settle(event);
                None
            }
            Some(callback) => self.answer(event, callback),
        }
    }
}
