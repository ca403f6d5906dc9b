//! Scopes that are left, and processes that are dropped: a process ends at once, wherever it waits (this project's own: SimPy
//! has no such call).
ghost use Rattle.std.specs.Prelude.{◌≡◌, ◌+◌, ◌<◌, ◌≤◌, ◌^◌, [], ◌∷◌, length, is_some, option_and_then, IfNone, IfSome, IsSome, IsSomeAnd};
ghost use Rattle.std.specs.Option.{option_map};
ghost use Rattle.sim_types.specs.declared.event.Signal.TheVariants as signal;
ghost use Rattle.sim_machine.specs.Effect as effect;
ghost use Rattle.sim_machine.specs.MayAsk.{most_scopes};
ghost use Rattle.sim_machine.specs.Processes as processes;
ghost use Rattle.sim_machine.specs.Scopes as scopes;
ghost use Rattle.sim_procs.specs.RecordOf.{innermost, record_of};
ghost use Rattle.sim_happen_model.specs.TableOf.{IsKept};
ghost use Rattle.sim_shared_model.specs.Measuring.{ChangesOnlyAt};
ghost use Rattle.sim_steps_model.specs.Becoming.{Becomes};
ghost use Rattle.sim_steps_model.specs.Dropping.{CanBeDropped, CanLeave, LeavesInnermost, LeavesAll, StopsWaiting};
ghost use Rattle.sim_steps_model.specs.Holding.{StandInPlaces};
ghost use Rattle.sim_steps_model.specs.PartsOf.{HasUnitRoom, IsRunningIn, KeepsResources};
ghost use Rattle.sim_steps_model.specs.Touching.{touched_places};

use crate::parts::Parts;
use sim_happen::Happen;
use sim_procs::Body;
use sim_steps_model::Touched;
use sim_types::{
    Callback, ENDED_PROCESS, EventId, Outcome, PROCESS_ITSELF, Places, ProcId, Signal,
};

// The process waits for its target no longer, and where its resumption is left to call it is taken out.
fn stop_waiting(happen: &mut Happen, process: ProcId, target: EventId)
    requires kept { IsKept happen.old.events target }
    ensures stops { StopsWaiting target process happen.old happen.new }
{
    happen.unregister(target, Callback::Resume(process));
    happen.strip(Callback::Resume(process));
}

impl<B: Body> Parts<B> {
    /// The innermost open scope of a process is left: its request is cancelled where it waits, is released in any case, and
    /// has no holder by the scope any more. The answer is the place of its resource, if a scope was open.
    pub(crate) fn leave_scope(&mut self, process: ProcId) -> Option<u32>
        requires alive { IsSome (record_of process self.old.live) }
        requires can { CanLeave B.body self.old }
        requires spare_events { 0 < self.old.shared.happen.spare.events }
        requires spare_callbacks { 0 < self.old.shared.happen.spare.callbacks }
        requires number { length self.old.shared.happen.events < 2 ^ 62 }
        ensures result { is_some result ≡ is_some
            (option_and_then (λ r. innermost r.scopes) (record_of process self.old.live)) }
        ensures leaves { LeavesInnermost B.body process self.old self.new }
        ensures touched { IfSome result
            (λ at. ChangesOnlyAt (at ∷ []) self.old.shared self.new.shared) }
        ensures same_resources { IfNone result (KeepsResources self.old self.new) }
    {
        match self.processes.pop_scope(process) {
            Some(scope) => {
                self.shared.leave(scope.res, scope.request);
                self.unhold(scope.request);
                Some(scope.res)
            }
            None => None,
        }
    }

    // All open scopes of a process are left, the innermost first. The places of their resources are listed.
    fn leave_scopes(&mut self, process: ProcId, listed: &mut Places)
        requires scopes { IsSomeAnd (record_of process self.old.live)
            (λ r. length r.scopes ≤ most_scopes) }
        requires can { CanLeave B.body self.old }
        requires spare_events { most_scopes < self.old.shared.happen.spare.events }
        requires spare_callbacks { most_scopes < self.old.shared.happen.spare.callbacks }
        requires number { length self.old.shared.happen.events + most_scopes < 2 ^ 62 }
        ensures leaves { LeavesAll B.body process self.old self.new }
        ensures touched { ChangesOnlyAt listed.new self.old.shared self.new.shared }
    {
        listed.clear();
        while let Some(at) = self.leave_scope(process) {
            listed.push(at);
        }
    }

    // Another process ends at once: it waits for nothing, its scopes are left, and its event succeeds.
    fn drop_other(
        &mut self,
        event: EventId,
        process: ProcId,
        other: ProcId,
        value: i64,
        listed: &mut Places,
    )
        requires running { IsRunningIn event process self.old.control }
        requires can { IsSomeAnd (record_of other self.old.live)
            (λ r. CanBeDropped B.body r self.old) }
        requires places { IfSome (record_of other self.old.live)
            (λ r. StandInPlaces (B.body.tell self.old.code) (B.events_held r.body) r.body) }
        requires room { HasUnitRoom self.old }
        requires number { length self.old.shared.happen.events + most_scopes < 2 ^ 62 }
        ensures becomes { Becomes B.body
            (λ s. processes.tell signal.Done (processes.drop_process other value s))
            self.old self.new }
        ensures touched { ChangesOnlyAt listed.new self.old.shared self.new.shared }
    {
        match self.processes.target(other) {
            Some(target) => stop_waiting(self.shared.happen_mut(), other, target),
            None => unreachable!(),
        }
        self.leave_scopes(other, listed);
        self.end_process(other, Outcome::Ok(value));
        self.tell(event, process, Signal::Done);
    }

    /// The running process has another one end at once, which is told nothing, unless that has ended or is itself. The
    /// event of that process succeeds with this value.
    #[inline(never)]
    pub(crate) fn drop_process(
        &mut self,
        event: EventId,
        process: ProcId,
        other: ProcId,
        value: i64,
        listed: &mut Places,
    ) -> Touched
        requires running { IsRunningIn event process self.old.control }
        requires can { IfSome (record_of other self.old.live)
            (λ r. CanBeDropped B.body r self.old) }
        requires places { IfSome (record_of other self.old.live)
            (λ r. StandInPlaces (B.body.tell self.old.code) (B.events_held r.body) r.body) }
        requires room { HasUnitRoom self.old }
        requires number { length self.old.shared.happen.events + most_scopes < 2 ^ 62 }
        ensures becomes { Becomes B.body
            (effect.to_another process other (processes.drop_process other value))
            self.old self.new }
        ensures touched { ChangesOnlyAt (touched_places result listed.new)
            self.old.shared self.new.shared }
    {
        if !self.processes.is_alive(other) {
            self.tell(event, process, Signal::Raised(ENDED_PROCESS));
            Touched::Nothing
        } else if other.0 == process.0 {
            self.tell(event, process, Signal::Raised(PROCESS_ITSELF));
            Touched::Nothing
        } else {
            self.drop_other(event, process, other, value, listed);
            Touched::Listed
        }
    }
}
