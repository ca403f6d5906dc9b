//! How events of resources are made and served.
ghost use Rattle.std.specs.Prelude.{◌≡◌, ◌<◌, ◌^◌, length};
ghost use Rattle.sim_machine.specs.Events as events;
ghost use Rattle.sim_machine.specs.Triggering as triggering;
ghost use Rattle.sim_machine.specs.Trying.{on_calendar};
ghost use Rattle.sim_happen_model.specs.Changes.{more_events, more_callbacks};
ghost use Rattle.sim_happen_model.specs.HappenOf.{IsOpen, unheld_event};
ghost use Rattle.sim_happen_model.specs.Shows.{Follows};
ghost use Rattle.sim_shared_model.specs.ShowsAll.{FollowsAll, TurnsAll};

use crate::shared::Shared;
use sim_types::{Callback, EventId, EventKind};

impl Shared {
    /// A pending event of this kind is made, with one callback.
    pub(crate) fn make(&mut self, kind: EventKind, after: Callback) -> EventId
        requires spare_events { 0 < self.old.happen.spare.events }
        requires spare_callbacks { 0 < self.old.happen.spare.callbacks }
        requires number { length self.old.happen.events < 2 ^ 62 }
        ensures id { result.0 ≡ length self.old.happen.events }
        ensures made { TurnsAll (on_calendar (λ c. events.register (events.next_event c) after
            (triggering.make kind c))) unheld_event self.old self.new }
        ensures open { IsOpen self.new.happen result }
        ensures spare { more_events 1 (more_callbacks 1 self.new.happen.spare)
            ≡ self.old.happen.spare }
        ensures rest { self.new ≡ record self.old { happen = self.new.happen } }
    {
        let event = self.happen.make(kind);
        self.happen.register(event, after);
        event
    }

    /// An event that is open succeeds now.
    pub(crate) fn succeed(&mut self, event: EventId, value: i64)
        requires open { IsOpen self.old.happen event }
        ensures follows { FollowsAll (on_calendar (triggering.succeed event value))
            self.old self.new }
        ensures happen { Follows (triggering.succeed event value) self.old.happen self.new.happen }
        ensures spare { self.new.happen.spare ≡ self.old.happen.spare }
        ensures rest { self.new ≡ record self.old { happen = self.new.happen } }
    {
        let _sure = self.happen.succeed(event, value);
    }
}
