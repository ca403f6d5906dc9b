//! What stands in the places of bodies, and is held there (this project's own; in Python an interpreter counts references).
ghost use Rattle.std.specs.Prelude.{◌≡◌, ◌<◌, ◌≤◌, ◌^◌, ℕ, [], IfSome, IsSome, length, slice_index_or};
ghost use Rattle.sim_happen_model.specs.Naming.{but_zero};
ghost use Rattle.sim_happen_model.specs.TableOf.{IsKept};
ghost use Rattle.sim_happen_model.specs.HappenOf.{held};
ghost use Rattle.sim_procs.specs.RecordOf.{record_of};
ghost use Rattle.sim_steps_model.specs.Becoming.{AreFew, BecomesOwing, IsOwing};
ghost use Rattle.sim_steps_model.specs.PartsOf.{KeepsButHappen};
ghost use Rattle.sim_steps_model.specs.Polling.{event_placed, place_given};

use crate::parts::Parts;
use sim_procs::Body;
use sim_types::{EventId, ProcId, Signal};

impl<B: Body> Parts<B> {
    /// A holder is taken of each event that stands in a place of the body.
    pub(crate) fn hold_places(&mut self, body: &B)
        requires kept { (at : ℕ) → IsKept self.old.shared.happen.events
            (slice_index_or (B.events_held body.now) at (record { 0 = 0 })) }
        requires few { AreFew (2 ^ 42) (held self.old.shared.happen) }
        ensures owes { BecomesOwing B.body [] (but_zero (B.events_held body.now)) 64 (λ s. s)
            self.old self.new }
        ensures rest { KeepsButHappen self.old self.new }
    {
        for at in 0..body.places_in_use() {
            self.hold(body.place(at));
        }
    }

    /// A holder is given back of each event that stands in a place of the body.
    pub(crate) fn unhold_places(&mut self, body: &B)
        requires owed { IsOwing B.body (but_zero (B.events_held body.now)) self.old }
        ensures owes { BecomesOwing B.body (but_zero (B.events_held body.now)) [] 0 (λ s. s)
            self.old self.new }
        ensures rest { KeepsButHappen self.old self.new }
    {
        for at in 0..body.places_in_use() {
            self.unhold(body.place(at));
        }
    }

    /// The place of its body that changes where a process is told this. None where none does.
    #[inline(always)]
    pub(crate) fn place_told(&self, code: &B::Code, process: ProcId, told: Signal) -> Option<u8>
        requires alive { IsSome (record_of process self.now.live) }
        ensures { result
            ≡ place_given (B.told_place code.now) told (record_of process self.now.live) }
    {
        match told {
            Signal::Made(_) => self.processes.body(process).place_told(code),
            _ => None,
        }
    }

    /// The event that stands in a place of the body of a process. Event 0 where there is no place.
    #[inline(always)]
    pub(crate) fn event_in(&self, process: ProcId, place: Option<u8>) -> EventId
        requires alive { IsSome (record_of process self.now.live) }
        requires within { IfSome place (λ at. at < 64) }
        ensures { result
            ≡ event_placed B.events_held place (record_of process self.now.live) }
    {
        match place {
            Some(at) => self.processes.body(process).place(at),
            None => EventId(0),
        }
    }
}
