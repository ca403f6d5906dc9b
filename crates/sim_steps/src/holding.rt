//! Holders of events: what the state of the machine names is held, so that it is kept, and what it names no more is given
//! back (this project's own; in Python an interpreter counts references).
ghost use Rattle.std.specs.Prelude.{◌≡◌, [], ◌∷◌};
ghost use Rattle.sim_happen_model.specs.Naming.{but_zero};
ghost use Rattle.sim_happen_model.specs.TableOf.{AreNeeded, IsKept, kept_count};
ghost use Rattle.sim_happen_model.specs.HappenOf.{AreHeldByFew};
ghost use Rattle.sim_steps_model.specs.Becoming.{BecomesOwing, IsOwing};
ghost use Rattle.sim_steps_model.specs.Holding.{HoldsMore, ReturnsHolder, TakesHolder};
ghost use Rattle.sim_steps_model.specs.PartsOf.{KeepsButHappen};

use crate::parts::Parts;
use sim_procs::Body;
use sim_types::EventId;

impl<B: Body> Parts<B> {
    /// How many events are kept. Each of them is not closed, or held. The resources are those of the setup.
    pub fn slots(&self) -> u64
        ensures count { result ≡ kept_count self.now.shared.happen.events }
        ensures needed { AreNeeded self.now.shared.happen.events }
        ensures resources { self.now.shared.setup ≡ self.now.setup.resources }
    {
        self.shared.happen().table().slots()
    }

    /// A holder of the event is taken. Event 0 stands for none, and nobody holds it by naming it.
    pub(crate) fn hold(&mut self, event: EventId)
        requires kept { IsKept self.old.shared.happen.events event }
        requires few { AreHeldByFew self.old.shared.happen.events }
        ensures owes { BecomesOwing B.body [] (but_zero (event ∷ [])) 1 (λ s. s) self.old self.new }
        ensures takes { TakesHolder self.old.shared.happen self.new.shared.happen }
        ensures more { HoldsMore event
            self.old.shared.happen.events self.new.shared.happen.events }
        ensures rest { KeepsButHappen self.old self.new }
    {
        if event.0 != 0 {
            self.shared.happen_mut().hold(event);
        }
    }

    /// A holder of the event is given back, which is to be given back. The event goes where it is closed and was held once.
    pub(crate) fn unhold(&mut self, event: EventId)
        requires owed { IsOwing B.body (but_zero (event ∷ [])) self.old }
        ensures owes { BecomesOwing B.body (but_zero (event ∷ [])) [] 0 (λ s. s) self.old self.new }
        ensures returns { ReturnsHolder self.old.shared.happen self.new.shared.happen }
        ensures rest { KeepsButHappen self.old self.new }
    {
        if event.0 != 0 {
            self.shared.happen_mut().unhold(event);
        }
    }
}
