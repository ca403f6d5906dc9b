//! How the requests at a desk are tried (SimPy's Resource and PreemptiveResource).
ghost use Rattle.std.specs.Prelude.{◌≡◌, ◌<◌, ◌^◌, [], ◌∷◌, length, IsTrue};
ghost use Rattle.sim_types.specs.declared.event.EventId.{EventId};
ghost use Rattle.sim_machine.specs.MayAsk.{takes_requests};
ghost use Rattle.sim_machine.specs.Triggering as triggering;
ghost use Rattle.sim_machine.specs.Trying as trying;
ghost use Rattle.sim_machine.specs.Trying.{on_calendar};
ghost use Rattle.sim_machine.specs.Users.{resource_at};
ghost use Rattle.sim_happen_model.specs.Changes.{more_events, more_callbacks};
ghost use Rattle.sim_happen_model.specs.HappenOf.{IsOpen, unheld_event};
ghost use Rattle.sim_shared_model.specs.Granting.{TriesDesk, interrupted_for, preempted_since};
ghost use Rattle.sim_shared_model.specs.Making.{MakesAll};
ghost use Rattle.sim_shared_model.specs.Measuring.{ChangesOnlyAt};
ghost use Rattle.sim_shared_model.specs.ShowsAll.{TurnsAll};
ghost use Rattle.sim_shared_model.specs.Waiting.{AreAllOpen};

use crate::resource::SharedResource;
use crate::shared::Shared;
use sim_shared_model::Grant;
use sim_types::{EventId, PREEMPTION, ProcId, Throw};

impl Shared {
    // The first that waits at the desk is tried there, now. Neither time nor what happens in it changes.
    fn try_first(&mut self, res: u32) -> Grant
        requires res { res < length self.old.setup }
        requires slots { IsTrue (takes_requests (resource_at self.old.setup res).kind) }
        ensures tried { TriesDesk res result self.old self.new }
        ensures happen { self.new.happen ≡ self.old.happen }
        ensures used { self.new.used ≡ self.old.used }
    {
        let now = self.happen.now();
        if let SharedResource::Desk(desk) = &mut self.resources[res as usize] {
            return desk.attempt(now);
        }
        // no requests wait elsewhere
        Grant::None
    }

    // A process is told that its request is a user no longer, and since when it was one (SimPy's Preempted).
    fn tell_preempted(&mut self, process: ProcId, since: i64)
        requires spare_events { 0 < self.old.happen.spare.events }
        requires spare_callbacks { 0 < self.old.happen.spare.callbacks }
        requires number { length self.old.happen.events < 2 ^ 62 }
        ensures told { TurnsAll (on_calendar (triggering.make_interruption process
            (preempted_since since))) unheld_event self.old self.new }
        ensures open { (e : EventId) → IsOpen self.old.happen e → IsOpen self.new.happen e }
        ensures spare { more_events 1 (more_callbacks 1 self.new.happen.spare)
            ≡ self.old.happen.spare }
        ensures rest { self.new ≡ record self.old { happen = self.new.happen } }
    {
        let what = Throw {
            kind: PREEMPTION,
            value: since,
        };
        let _interruption = self.happen.interrupt(process, what);
    }

    // The user's process is told, and then the request that took its slot succeeds.
    fn succeed_after_preemption(&mut self, request: EventId, process: ProcId, since: i64)
        requires open { IsOpen self.old.happen request }
        requires spare_events { 0 < self.old.happen.spare.events }
        requires spare_callbacks { 0 < self.old.happen.spare.callbacks }
        requires number { length self.old.happen.events < 2 ^ 62 }
        ensures follows { TurnsAll (on_calendar (interrupted_for request process since))
            unheld_event self.old self.new }
        ensures spare { more_events 1 (more_callbacks 1 self.new.happen.spare)
            ≡ self.old.happen.spare }
        ensures rest { self.new ≡ record self.old { happen = self.new.happen } }
    {
        self.tell_preempted(process, since);
        self.succeed(request, 0);
    }

    /// The requests at a desk are tried: one attempt, at the first (SimPy's Resource and PreemptiveResource).
    pub(crate) fn try_requests(&mut self, res: u32)
        requires res { res < length self.old.setup }
        requires slots { IsTrue (takes_requests (resource_at self.old.setup res).kind) }
        requires open { AreAllOpen self.old }
        requires spare_events { 0 < self.old.happen.spare.events }
        requires spare_callbacks { 0 < self.old.happen.spare.callbacks }
        requires number { length self.old.happen.events < 2 ^ 62 }
        ensures tried { MakesAll 1 (trying.try_put self.old.setup res) self.old self.new }
        ensures used { self.new.used ≡ self.old.used }
        ensures touched { ChangesOnlyAt (res ∷ []) self.old self.new }
    {
        match self.try_first(res) {
            Grant::None => {}
            Grant::Granted { request } => self.succeed(request, 0),
            Grant::Preempted {
                request,
                victim: _,
                process,
                since,
            } => self.succeed_after_preemption(request, process, since),
        }
    }
}
