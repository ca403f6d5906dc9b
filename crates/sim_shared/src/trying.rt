//! How the requests or puts at a resource are tried.
ghost use Rattle.std.specs.Prelude.{◌≡◌, ◌<◌, ◌^◌, [], ◌∷◌, length};
ghost use Rattle.sim_machine.specs.MayAsk.{takes_requests};
ghost use Rattle.sim_machine.specs.Trying as trying;
ghost use Rattle.sim_machine.specs.Users.{resource_at};
ghost use Rattle.sim_shared_model.specs.Making.{MakesAll};
ghost use Rattle.sim_shared_model.specs.Measuring.{ChangesOnlyAt};
ghost use Rattle.sim_shared_model.specs.Waiting.{AreAllOpen};

use crate::queues::is_desk;
use crate::shared::Shared;

impl Shared {
    // Whether requests wait at the resource of this place, and neither puts nor gets.
    fn has_slots(&self, res: u32) -> bool
        requires res { res < length self.now.setup }
        ensures { result ≡ takes_requests (resource_at self.now.setup res).kind }
    {
        is_desk(&self.resources[res as usize])
    }

    /// The requests or puts at a resource are tried (SimPy's "Shared resources"): at a container the puts for as long as one
    /// is served, at a store the first put alone, and so the first request at a resource of slots, which may preempt a
    /// user.
    pub fn try_put(&mut self, res: u32)
        requires res { res < length self.old.setup }
        requires open { AreAllOpen self.old }
        requires spare_events { 0 < self.old.happen.spare.events }
        requires spare_callbacks { 0 < self.old.happen.spare.callbacks }
        requires number { length self.old.happen.events < 2 ^ 62 }
        ensures tried { MakesAll 1 (trying.try_put self.old.setup res) self.old self.new }
        ensures used { self.new.used ≡ self.old.used }
        ensures touched { ChangesOnlyAt (res ∷ []) self.old self.new }
    {
        if self.has_slots(res) {
            self.try_requests(res);
        } else {
            self.try_puts(res);
        }
    }
}
