//! What processes ask of resources, and the tries that follow (SimPy's "Shared resources").
ghost use Rattle.std.specs.Prelude.{◌≡◌, ◌<◌, ◌^◌, ℕ, List, [], ◌∷◌, length, option_and_then, None, IsSome, IsSomeAnd, IfNone, IfSome};
ghost use Rattle.std.specs.Option.{option_to_list};
ghost use Rattle.sim_types.specs.declared.event.Callback.TheVariants as callback;
ghost use Rattle.sim_types.specs.declared.op.Op.TheVariants as op;
ghost use Rattle.sim_machine.specs.Effect as effect;
ghost use Rattle.sim_machine.specs.Requests as requests;
ghost use Rattle.sim_procs.specs.RecordOf.{record_of, scope_of};
ghost use Rattle.sim_happen_model.specs.TableOf.{IsKept, kept_at};
ghost use Rattle.sim_happen_model.specs.HappenOf.{held};
ghost use Rattle.sim_shared_model.specs.Measuring.{ChangesOnlyAt};
ghost use Rattle.sim_shared_model.specs.Waiting.{AreAllOpen};
ghost use Rattle.sim_steps_model.specs.Becoming.{AreFew, Becomes, BecomesWith, IsOwing};
ghost use Rattle.sim_steps_model.specs.Calling.{called};
ghost use Rattle.sim_steps_model.specs.Dropping.{CanLeave};
ghost use Rattle.sim_steps_model.specs.PartsOf.{HasUnitRoom, IsCalling, IsRunningIn, KeepsResources, plan_of};
ghost use Rattle.sim_steps_model.specs.Touching.{touched_places};
ghost use Rattle.sim_steps_model.specs.Resources.{AreResourcesReady, TakesMoves, TakesRequests, MakesMove, RefusesMove};

use crate::parts::Parts;
use sim_procs::Body;
use sim_shared::{NotPositive, OwnVictim};
use sim_steps_model::Touched;
use sim_types::{AMOUNT_NOT_POSITIVE, EventId, PROCESS_ITSELF, ProcId, Scope, Signal};

/// What is touched where this is the place of the one resource that is, if one is.
#[inline(always)]
pub(crate) fn touched_at(place: Option<u32>) -> Touched
    ensures { (listed : List ℕ) → touched_places result listed ≡ option_to_list place }
{
    match place {
        Some(at) => Touched::One(at),
        None => Touched::Nothing,
    }
}

impl<B: Body> Parts<B> {
    /// The requests or puts at a resource are tried.
    pub(crate) fn call_try_put(&mut self, event: EventId, res: u32)
        requires calling { IsCalling event self.old.control }
        requires within { res < length self.old.setup.resources }
        requires ready { AreResourcesReady self.old }
        ensures becomes { Becomes B.body
            (called (plan_of B.body self.old) event (callback.TryPut res))
            self.old self.new }
        ensures touched { ChangesOnlyAt (res ∷ []) self.old.shared self.new.shared }
    {
        self.shared.try_put(res);
    }

    /// The gets at a resource are tried.
    pub(crate) fn call_try_get(&mut self, event: EventId, res: u32)
        requires calling { IsCalling event self.old.control }
        requires within { res < length self.old.setup.resources }
        requires waiting { AreAllOpen self.old.shared }
        ensures becomes { Becomes B.body
            (called (plan_of B.body self.old) event (callback.TryGet res))
            self.old self.new }
        ensures touched { ChangesOnlyAt (res ∷ []) self.old.shared self.new.shared }
    {
        self.shared.try_get(res);
    }

    /// The running process is told how much of a resource is in use, or stands in it.
    #[inline(never)]
    pub(crate) fn count(&mut self, event: EventId, process: ProcId, res: u32)
        requires running { IsRunningIn event process self.old.control }
        requires within { res < length self.old.setup.resources }
        ensures becomes { Becomes B.body
            (effect.effect (plan_of B.body self.old) process (op.Count res))
            self.old self.new }
        ensures resources { KeepsResources self.old self.new }
    {
        let count = self.shared.count(res);
        self.tell(event, process, Signal::Number(count));
    }

    // A put is made, unless its amount is not positive: then the running process is told so.
    fn make_put(
        &mut self,
        event: EventId,
        process: ProcId,
        res: u32,
        amount: i64,
        priority: i64,
    ) -> Option<EventId>
        requires running { IsRunningIn event process self.old.control }
        requires resource { TakesMoves res self.old }
        requires ready { AreResourcesReady self.old }
        ensures refused { IfNone result (RefusesMove B.body (plan_of B.body self.old) res amount
            (requests.make_put self.old.setup.resources res amount priority) self.old self.new) }
        ensures made { IfSome result (λ e. MakesMove B.body (plan_of B.body self.old) res amount
            (requests.make_put self.old.setup.resources res amount priority) e self.old self.new) }
        ensures control { IfSome result (λ e. self.new.control ≡ self.old.control) }
        ensures live { IfSome result (λ e. self.new.live ≡ self.old.live) }
        ensures touched { ChangesOnlyAt (res ∷ []) self.old.shared self.new.shared }
    {
        match self.shared.put(res, amount, priority) {
            Ok(put) => Some(put),
            Err(NotPositive) => {
                self.tell(event, process, Signal::Raised(AMOUNT_NOT_POSITIVE));
                None
            }
        }
    }

    // A get is made, unless its amount is not positive: then the running process is told so.
    fn make_get(
        &mut self,
        event: EventId,
        process: ProcId,
        res: u32,
        least: i64,
        greatest: i64,
    ) -> Option<EventId>
        requires running { IsRunningIn event process self.old.control }
        requires resource { TakesMoves res self.old }
        requires ready { AreResourcesReady self.old }
        ensures refused { IfNone result (RefusesMove B.body (plan_of B.body self.old) res least
            (requests.make_get self.old.setup.resources res least greatest) self.old self.new) }
        ensures made { IfSome result (λ e. MakesMove B.body (plan_of B.body self.old) res least
            (requests.make_get self.old.setup.resources res least greatest) e self.old self.new) }
        ensures control { IfSome result (λ e. self.new.control ≡ self.old.control) }
        ensures live { IfSome result (λ e. self.new.live ≡ self.old.live) }
        ensures touched { ChangesOnlyAt (res ∷ []) self.old.shared self.new.shared }
    {
        match self.shared.get(res, least, greatest) {
            Ok(get) => Some(get),
            Err(NotPositive) => {
                self.tell(event, process, Signal::Raised(AMOUNT_NOT_POSITIVE));
                None
            }
        }
    }

    /// The running process is told a put that is made.
    #[inline(never)]
    pub(crate) fn put(
        &mut self,
        event: EventId,
        process: ProcId,
        res: u32,
        amount: i64,
        priority: i64,
    )
        requires running { IsRunningIn event process self.old.control }
        requires resource { TakesMoves res self.old }
        requires ready { AreResourcesReady self.old }
        ensures becomes { Becomes B.body
            (effect.effect (plan_of B.body self.old) process (op.Put res amount priority))
            self.old self.new }
        ensures touched { ChangesOnlyAt (res ∷ []) self.old.shared self.new.shared }
    {
        match self.make_put(event, process, res, amount, priority) {
            Some(put) => self.tell(event, process, Signal::Made(put)),
            None => {}
        }
    }

    /// The running process waits for a put that is made.
    #[inline(never)]
    pub(crate) fn put_wait(
        &mut self,
        event: EventId,
        process: ProcId,
        res: u32,
        amount: i64,
        priority: i64,
    )
        requires running { IsRunningIn event process self.old.control }
        requires alive { IsSome (record_of process self.old.live) }
        requires resource { TakesMoves res self.old }
        requires ready { AreResourcesReady self.old }
        requires few { AreFew (2 ^ 41) (held self.old.shared.happen) }
        requires owing { IsOwing B.body [] self.old }
        ensures becomes { BecomesWith B.body 1
            (effect.effect (plan_of B.body self.old) process (op.PutWait res amount priority))
            self.old self.new }
        ensures touched { ChangesOnlyAt (res ∷ []) self.old.shared self.new.shared }
    {
        match self.make_put(event, process, res, amount, priority) {
            Some(put) => self.wait(event, process, put),
            None => {}
        }
    }

    /// The running process is told a get that is made.
    #[inline(never)]
    pub(crate) fn get(
        &mut self,
        event: EventId,
        process: ProcId,
        res: u32,
        least: i64,
        greatest: i64,
    )
        requires running { IsRunningIn event process self.old.control }
        requires resource { TakesMoves res self.old }
        requires ready { AreResourcesReady self.old }
        ensures becomes { Becomes B.body
            (effect.effect (plan_of B.body self.old) process (op.Get res least greatest))
            self.old self.new }
        ensures touched { ChangesOnlyAt (res ∷ []) self.old.shared self.new.shared }
    {
        match self.make_get(event, process, res, least, greatest) {
            Some(get) => self.tell(event, process, Signal::Made(get)),
            None => {}
        }
    }

    /// The running process waits for a get that is made.
    #[inline(never)]
    pub(crate) fn get_wait(
        &mut self,
        event: EventId,
        process: ProcId,
        res: u32,
        least: i64,
        greatest: i64,
    )
        requires running { IsRunningIn event process self.old.control }
        requires alive { IsSome (record_of process self.old.live) }
        requires resource { TakesMoves res self.old }
        requires ready { AreResourcesReady self.old }
        requires few { AreFew (2 ^ 41) (held self.old.shared.happen) }
        requires owing { IsOwing B.body [] self.old }
        ensures becomes { BecomesWith B.body 1
            (effect.effect (plan_of B.body self.old) process (op.GetWait res least greatest))
            self.old self.new }
        ensures touched { ChangesOnlyAt (res ∷ []) self.old.shared self.new.shared }
    {
        match self.make_get(event, process, res, least, greatest) {
            Some(get) => self.wait(event, process, get),
            None => {}
        }
    }

    /// An event that waits at a resource is cancelled, and goes where nobody holds it. Of what does not wait nothing is done.
    #[inline(never)]
    pub(crate) fn cancel(
        &mut self,
        event: EventId,
        process: ProcId,
        cancelled: EventId,
    ) -> Option<u32>
        requires running { IsRunningIn event process self.old.control }
        requires kept { IsKept self.old.shared.happen.events cancelled }
        requires plain { (kept_at self.old.shared.happen.events cancelled).event.condition ≡ None }
        requires ready { AreResourcesReady self.old }
        ensures becomes { Becomes B.body
            (effect.effect (plan_of B.body self.old) process (op.Cancel cancelled))
            self.old self.new }
        ensures touched { ChangesOnlyAt (option_to_list result)
            self.old.shared self.new.shared }
    {
        let place = self.shared.take_out(cancelled);
        self.tell(event, process, Signal::Done);
        place
    }

    /// The running process is told a request that is made, and whose scope is open from now on. One that would preempt the
    /// process itself is not made.
    #[inline(never)]
    pub(crate) fn enter(
        &mut self,
        event: EventId,
        process: ProcId,
        res: u32,
        priority: i64,
        preempts: bool,
    )
        requires running { IsRunningIn event process self.old.control }
        requires scopes { IsSomeAnd (record_of process self.old.live)
            (λ r. length r.scopes < r.room) }
        requires resource { TakesRequests res self.old }
        requires ready { AreResourcesReady self.old }
        requires few { AreFew (2 ^ 41) (held self.old.shared.happen) }
        ensures becomes { BecomesWith B.body 1
            (effect.enter (plan_of B.body self.old) process res priority preempts)
            self.old self.new }
        ensures touched { ChangesOnlyAt (res ∷ []) self.old.shared self.new.shared }
    {
        match self.shared.request(res, process, priority, preempts) {
            Ok(request) => {
                self.hold(request);
                self.processes.push_scope(process, Scope { request, res });
                self.tell(event, process, Signal::Made(request));
            }
            Err(OwnVictim) => self.tell(event, process, Signal::Raised(PROCESS_ITSELF)),
        }
    }

    /// The innermost open scope of the running process is left: its request is cancelled where it waits, and is released in
    /// any case.
    #[inline(never)]
    pub(crate) fn leave(&mut self, event: EventId, process: ProcId) -> Option<u32>
        requires running { IsRunningIn event process self.old.control }
        requires alive { IsSome (record_of process self.old.live) }
        requires can { CanLeave B.body self.old }
        requires room { HasUnitRoom self.old }
        requires number { length self.old.shared.happen.events < 2 ^ 62 }
        ensures becomes { Becomes B.body
            (effect.effect (plan_of B.body self.old) process op.Leave)
            self.old self.new }
        ensures touched { ChangesOnlyAt (option_to_list result)
            self.old.shared self.new.shared }
    {
        let place = self.leave_scope(process);
        self.tell(event, process, Signal::Done);
        place
    }

    /// A request in an open scope of the running process is released early. Its scope stays open.
    #[inline(never)]
    pub(crate) fn release(&mut self, event: EventId, process: ProcId, request: EventId) -> u32
        requires running { IsRunningIn event process self.old.control }
        requires scope { IsSomeAnd
            (option_and_then (λ r. scope_of request r.scopes) (record_of process self.old.live))
            (λ x. TakesRequests x.res self.old) }
        requires ready { AreResourcesReady self.old }
        ensures becomes { Becomes B.body
            (effect.effect (plan_of B.body self.old) process (op.Release request))
            self.old self.new }
        ensures touched { ChangesOnlyAt (result ∷ []) self.old.shared self.new.shared }
    {
        match self.processes.scope(process, request) {
            Some(scope) => {
                self.shared.release(scope.res, request);
                self.tell(event, process, Signal::Done);
                scope.res
            }
            None => unreachable!(),
        }
    }
}
