//! Processes: how they are made, interrupted and ended (SimPy's "Process interaction").
ghost use Rattle.std.specs.Prelude.{◌≡◌, ◌<◌, ◌≤◌, ◌≤ℤ◌, ◌+◌, ◌^◌, pos, length, [], IfSome, IsSomeAnd, IsTrue, OnOk, None};
ghost use Rattle.sim_types.specs.declared.event.Callback.TheVariants as callback;
ghost use Rattle.sim_types.specs.declared.event.Outcome.TheVariants as outcome;
ghost use Rattle.sim_types.specs.declared.op.Op.TheVariants as op;
ghost use Rattle.sim_machine.specs.Effect as effect;
ghost use Rattle.sim_machine.specs.Processes as processes;
ghost use Rattle.sim_procs.specs.Premises.{CanBegin};
ghost use Rattle.sim_procs.specs.RecordOf.{record_of};
ghost use Rattle.sim_happen_model.specs.TableOf.{IsKept};
ghost use Rattle.sim_happen_model.specs.HappenOf.{IsOpen, held};
ghost use Rattle.sim_steps_model.specs.Becoming.{AreFew, Becomes, BecomesWith, IsOwing};
ghost use Rattle.sim_steps_model.specs.Calling.{called};
ghost use Rattle.sim_steps_model.specs.Holding.{StandInPlaces};
ghost use Rattle.sim_steps_model.specs.Opening.{AreArgumentsKept, KeepsButProcesses, most_begun, next_process};
ghost use Rattle.sim_steps_model.specs.PartsOf.{HasUnitRoom, IsCalling, IsRunningIn, KeepsResources, plan_of};

use crate::making::make_process;
use crate::parts::Parts;
use crate::ready::Ready;
use sim_procs::Body;
use sim_steps_model::Mode;
use sim_types::{
    Args, Callback, ENDED_PROCESS, EventId, INTERRUPT, Outcome, PROCESS_ITSELF, ProcId, Signal,
    Throw,
};
use std::alloc::AllocError;

impl<B: Body> Parts<B> {
    /// Makes room for one more process. Its body is there then, yet to be filled, and the memory for its scopes.
    pub(crate) fn reserve_process(&mut self, code: &B::Code) -> Result<(), AllocError>
        requires { code.now ≡ self.old.code }
        ensures rest { self.new
            ≡ record self.old { spare = self.new.spare; ready = self.new.ready } }
        ensures room { OnOk result (1 ≤ self.new.spare) }
        ensures ready { OnOk result (IsTrue self.new.ready) }
    {
        self.processes.reserve()?;
        if self.ready.is_none() {
            self.ready = Some(Ready::new(self.alloc, code)?);
        }
        Ok(())
    }

    /// Makes a process, with its event and its init event, of what is ready for it. It is told its number, which is that of
    /// its event.
    pub(crate) fn begin(&mut self, code: &B::Code, kind: u32, args: &[i64]) -> ProcId
        requires code { code.now ≡ self.old.code }
        requires can { CanBegin (B.body.facts code.now) kind args.now }
        requires events { 2 ≤ self.old.shared.happen.spare.events }
        requires callbacks { 1 ≤ self.old.shared.happen.spare.callbacks }
        requires record_room { 1 ≤ self.old.spare }
        requires ready { IsTrue self.old.ready }
        requires number { length self.old.shared.happen.events + 2 ≤ 2 ^ 62 }
        requires time { self.old.shared.happen.time ≤ℤ pos (2 ^ 62) }
        requires not_alive { record_of (next_process self.old.shared.happen) self.old.live ≡ None }
        requires few { AreFew (2 ^ 41) (held self.old.shared.happen) }
        requires kept { AreArgumentsKept (B.body.facts code.now) kind args.now
            self.old.shared.happen.events }
        ensures process { result ≡ next_process self.old.shared.happen }
        ensures becomes { BecomesWith B.body most_begun
            (processes.make_process (plan_of B.body self.old) kind args.now) self.old self.new }
        ensures kept { KeepsButProcesses self.old self.new }
    {
        let (process, init) = make_process(self.shared.happen_mut());
        self.hold(init);
        match self.ready.take() {
            Some(ready) => {
                let Ready { mut body, scopes } = ready;
                body.fill(code, kind, args);
                body.own(process);
                self.hold_places(&body);
                self.processes.add(process, body, init, scopes);
            }
            None => unreachable!(),
        }
        process
    }

    /// The running process makes another one, and is told its event.
    #[inline(never)]
    pub(crate) fn spawn(
        &mut self,
        code: &B::Code,
        event: EventId,
        process: ProcId,
        kind: u32,
        args: Args,
    )
        requires code { code.now ≡ self.old.code }
        requires running { IsRunningIn event process self.old.control }
        requires can { CanBegin (B.body.facts code.now) kind args }
        requires room { HasUnitRoom self.old }
        requires number { length self.old.shared.happen.events + 2 ≤ 2 ^ 62 }
        requires time { self.old.shared.happen.time ≤ℤ pos (2 ^ 62) }
        requires not_alive { record_of (next_process self.old.shared.happen) self.old.live ≡ None }
        requires few { AreFew (2 ^ 41) (held self.old.shared.happen) }
        requires kept { AreArgumentsKept (B.body.facts code.now) kind args
            self.old.shared.happen.events }
        ensures becomes { BecomesWith B.body most_begun
            (effect.effect (plan_of B.body self.old) process (op.Spawn kind args))
            self.old self.new }
        ensures resources { KeepsResources self.old self.new }
    {
        let made = self.begin(code, kind, args.as_slice());
        self.tell(event, process, Signal::Made(EventId(made.0)));
    }

    /// The running process interrupts another one, unless that has ended or is itself.
    #[inline(never)]
    pub(crate) fn interrupt(&mut self, event: EventId, process: ProcId, other: ProcId, cause: i64)
        requires running { IsRunningIn event process self.old.control }
        requires room { HasUnitRoom self.old }
        requires number { length self.old.shared.happen.events < 2 ^ 62 }
        ensures becomes { Becomes B.body
            (effect.effect (plan_of B.body self.old) process (op.Interrupt other cause))
            self.old self.new }
        ensures resources { KeepsResources self.old self.new }
    {
        if !self.processes.is_alive(other) {
            self.tell(event, process, Signal::Raised(ENDED_PROCESS));
        } else if other.0 == process.0 {
            self.tell(event, process, Signal::Raised(PROCESS_ITSELF));
        } else {
            let what = Throw {
                kind: INTERRUPT,
                value: cause,
            };
            self.shared.happen_mut().interrupt(other, what);
            self.tell(event, process, Signal::Done);
        }
    }

    /// An interruption comes: its process waits no longer for its target, and is thrown the interruption. Where it has
    /// ended, nothing happens.
    #[inline(never)]
    pub(crate) fn strike(&mut self, event: EventId, process: ProcId)
        requires calling { IsCalling event self.old.control }
        requires kept { IsKept self.old.shared.happen.events event }
        requires target { IfSome (record_of process self.old.live)
            (λ r. IsKept self.old.shared.happen.events r.target) }
        ensures becomes { Becomes B.body
            (called (plan_of B.body self.old) event (callback.Strike process))
            self.old self.new }
        ensures resources { KeepsResources self.old self.new }
    {
        let told = self.signal_of(event);
        if let Some(target) = self.processes.target(process) {
            self.shared
                .happen_mut()
                .unregister(target, Callback::Resume(process));
            self.mode = Mode::Active(event, process, told);
        }
    }

    /// The running process ends, and its event succeeds.
    #[inline(never)]
    pub(crate) fn finish(&mut self, event: EventId, process: ProcId, value: i64)
        requires running { IsRunningIn event process self.old.control }
        requires alive { IsSomeAnd (record_of process self.old.live) (λ r. r.scopes ≡ []) }
        requires places { IfSome (record_of process self.old.live)
            (λ r. StandInPlaces (B.body.tell self.old.code) (B.events_held r.body) r.body) }
        requires is_open { IsOpen self.old.shared.happen (processes.event_of process) }
        requires owing { IsOwing B.body [] self.old }
        ensures becomes { Becomes B.body
            (λ s. processes.rest (processes.end_process process (outcome.Ok value) s))
            self.old self.new }
        ensures resources { KeepsResources self.old self.new }
    {
        self.end(event, process, Outcome::Ok(value));
    }

    /// The running process ends by what it did not catch, and its event fails with that.
    #[inline(never)]
    pub(crate) fn die(&mut self, event: EventId, process: ProcId, what: Throw)
        requires running { IsRunningIn event process self.old.control }
        requires alive { IsSomeAnd (record_of process self.old.live) (λ r. r.scopes ≡ []) }
        requires places { IfSome (record_of process self.old.live)
            (λ r. StandInPlaces (B.body.tell self.old.code) (B.events_held r.body) r.body) }
        requires is_open { IsOpen self.old.shared.happen (processes.event_of process) }
        requires owing { IsOwing B.body [] self.old }
        ensures becomes { Becomes B.body
            (λ s. processes.rest (processes.end_process process (outcome.Fail what) s))
            self.old self.new }
        ensures resources { KeepsResources self.old self.new }
    {
        self.end(event, process, Outcome::Fail(what));
    }

    // The running process ends: its event gets this outcome.
    fn end(&mut self, event: EventId, process: ProcId, outcome: Outcome)
        requires running { IsRunningIn event process self.old.control }
        requires alive { IsSomeAnd (record_of process self.old.live) (λ r. r.scopes ≡ []) }
        requires places { IfSome (record_of process self.old.live)
            (λ r. StandInPlaces (B.body.tell self.old.code) (B.events_held r.body) r.body) }
        requires is_open { IsOpen self.old.shared.happen (processes.event_of process) }
        requires owing { IsOwing B.body [] self.old }
        ensures becomes { Becomes B.body
            (λ s. processes.rest (processes.end_process process outcome s))
            self.old self.new }
        ensures resources { KeepsResources self.old self.new }
    {
        self.end_process(process, outcome);
        self.rest(event);
    }

    /// A process that has no open scope ends: it is no longer alive, and its event gets this outcome.
    pub(crate) fn end_process(&mut self, process: ProcId, outcome: Outcome)
        requires alive { IsSomeAnd (record_of process self.old.live) (λ r. r.scopes ≡ []) }
        requires places { IfSome (record_of process self.old.live)
            (λ r. StandInPlaces (B.body.tell self.old.code) (B.events_held r.body) r.body) }
        requires is_open { IsOpen self.old.shared.happen (processes.event_of process) }
        requires owing { IsOwing B.body [] self.old }
        ensures becomes { Becomes B.body (processes.end_process process outcome) self.old self.new }
        ensures control { self.new.control ≡ self.old.control }
        ensures resources { KeepsResources self.old self.new }
    {
        match self.processes.take(process) {
            Some(record) => {
                match self.trigger(EventId(process.0), outcome) {
                    Ok(()) => {}
                    Err(_) => unreachable!(),
                }
                self.unhold(record.target());
                self.unhold_places(record.body());
                record.end();
            }
            None => unreachable!(),
        }
    }
}
