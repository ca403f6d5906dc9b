//! How puts and gets at containers and stores are tried (SimPy's Container and Store).
ghost use Rattle.std.specs.Prelude.{◌≡◌, ◌+◌, ◌<◌, [], ◌∷◌, ℕ, length, slice_get, Some, IfSome, IsFalse, IsTrue};
ghost use Rattle.sim_machine.specs.MayAsk.{takes_requests};
ghost use Rattle.sim_machine.specs.Trying as trying;
ghost use Rattle.sim_machine.specs.Users.{resource_at};
ghost use Rattle.sim_shared_model.specs.StoreQueues.{AllDiffer};
ghost use Rattle.sim_shared_model.specs.AnyShared.{SharedResource};
ghost use Rattle.sim_shared_model.specs.Measuring.{ChangesOnlyAt};
ghost use Rattle.sim_shared_model.specs.Resources.{waiting_at};
ghost use Rattle.sim_shared_model.specs.Serving.{TriesAt, TriesPut, TriesGet, puts_go_on, store_goes_on, gets_go_on, DoesPartOrAll, AreOpenAt, count_waiting_at};
ghost use Rattle.sim_shared_model.specs.ShowsAll.{FollowsAll};
ghost use Rattle.sim_shared_model.specs.Waiting.{AreAllOpen};

use crate::resource::SharedResource;
use crate::shared::Shared;
use sim_shared_model::{Served, ShelfKind};

// Serves a put, if one can be served. Nobody puts at a desk.
fn serve_one_put(resource: &mut SharedResource) -> Option<Served>
    ensures tried { (res : ℕ) → TriesPut res result resource.old resource.new }
    ensures differ { IfSome result (λ _. AllDiffer (waiting_at resource.old)) }
{
    match resource {
        SharedResource::Desk(_) => None,
        SharedResource::Tank(tank) => {
            tank.waiters_differ();
            tank.try_put()
        }
        SharedResource::Shelf(shelf) => {
            shelf.waiters_differ();
            shelf.try_put()
        }
    }
}

// Serves a get, if one can be served. Nobody gets at a desk.
fn serve_one_get(resource: &mut SharedResource) -> Option<Served>
    ensures tried { (res : ℕ) → TriesGet res result resource.old resource.new }
    ensures differ { IfSome result (λ _. AllDiffer (waiting_at resource.old)) }
{
    match resource {
        SharedResource::Desk(_) => None,
        SharedResource::Tank(tank) => {
            tank.waiters_differ();
            tank.try_get()
        }
        SharedResource::Shelf(shelf) => {
            shelf.waiters_differ();
            shelf.try_get()
        }
    }
}

// Whether a try of the puts goes on once one was served.
fn puts_go_on(resource: &SharedResource) -> bool
    ensures { result ≡ puts_go_on resource.now }
{
    match resource {
        SharedResource::Desk(_) => false,
        SharedResource::Tank(_) => true,
        SharedResource::Shelf(_) => false,
    }
}

// Whether a store of this kind looks at later gets once one was served.
fn store_goes_on(kind: ShelfKind) -> bool
    ensures { result ≡ store_goes_on kind }
{
    match kind {
        ShelfKind::Fifo => false,
        ShelfKind::Priority => false,
        ShelfKind::Filter => true,
    }
}

// Whether a try of the gets goes on once one was served.
fn gets_go_on(resource: &SharedResource) -> bool
    ensures { result ≡ gets_go_on resource.now }
{
    match resource {
        SharedResource::Desk(_) => false,
        SharedResource::Tank(_) => true,
        SharedResource::Shelf(shelf) => store_goes_on(shelf.kind()),
    }
}

impl Shared {
    // A put at this place leaves its queue, if one can be served.
    fn serve_put(&mut self, res: u32) -> Option<Served>
        requires res { res < length self.old.setup }
        ensures { TriesAt TriesPut res result self.old self.new }
    {
        serve_one_put(&mut self.resources[res as usize])
    }

    // A get at this place leaves its queue, if one can be served.
    fn serve_get(&mut self, res: u32) -> Option<Served>
        requires res { res < length self.old.setup }
        ensures { TriesAt TriesGet res result self.old self.new }
    {
        serve_one_get(&mut self.resources[res as usize])
    }

    // Whether a try of the puts at this place goes on once one was served.
    fn more_puts(&self, res: u32) -> bool
        requires res { res < length self.now.setup }
        ensures { (x : SharedResource) →
            slice_get self.now.resources res ≡ Some x → result ≡ puts_go_on x }
    {
        puts_go_on(&self.resources[res as usize])
    }

    // Whether a try of the gets at this place goes on once one was served.
    fn more_gets(&self, res: u32) -> bool
        requires res { res < length self.now.setup }
        ensures { (x : SharedResource) →
            slice_get self.now.resources res ≡ Some x → result ≡ gets_go_on x }
    {
        gets_go_on(&self.resources[res as usize])
    }

    // One put is served, if one can be: it succeeds now. The answer is whether the try goes on.
    fn try_one_put(&mut self, res: u32) -> bool
        requires res { res < length self.old.setup }
        requires stock { IsFalse (takes_requests (resource_at self.old.setup res).kind) }
        requires open { AreOpenAt res self.old }
        ensures tried { DoesPartOrAll (trying.try_put self.old.setup res) result
            self.old self.new }
        ensures open { IsTrue result → AreOpenAt res self.new }
        ensures fewer { IsTrue result →
            count_waiting_at res self.new + 1 ≡ count_waiting_at res self.old }
        ensures spare { self.new.happen.spare ≡ self.old.happen.spare }
        ensures used { self.new.used ≡ self.old.used }
        ensures setup { self.new.setup ≡ self.old.setup }
        ensures touched { ChangesOnlyAt (res ∷ []) self.old self.new }
    {
        match self.serve_put(res) {
            None => false,
            Some(put) => {
                self.succeed(put.event, put.value);
                self.more_puts(res)
            }
        }
    }

    // One get is served, if one can be: it succeeds now. The answer is whether the try goes on.
    fn try_one_get(&mut self, res: u32) -> bool
        requires res { res < length self.old.setup }
        requires open { AreOpenAt res self.old }
        ensures tried { DoesPartOrAll (trying.try_get self.old.setup res) result
            self.old self.new }
        ensures open { IsTrue result → AreOpenAt res self.new }
        ensures fewer { IsTrue result →
            count_waiting_at res self.new + 1 ≡ count_waiting_at res self.old }
        ensures spare { self.new.happen.spare ≡ self.old.happen.spare }
        ensures used { self.new.used ≡ self.old.used }
        ensures setup { self.new.setup ≡ self.old.setup }
        ensures touched { ChangesOnlyAt (res ∷ []) self.old self.new }
    {
        match self.serve_get(res) {
            None => false,
            Some(get) => {
                self.succeed(get.event, get.value);
                self.more_gets(res)
            }
        }
    }

    // The puts at a container or a store are tried: at a container for as long as one is served, at a store the first
    // alone (SimPy's Container and Store).
    pub(crate) fn try_puts(&mut self, res: u32)
        requires res { res < length self.old.setup }
        requires stock { IsFalse (takes_requests (resource_at self.old.setup res).kind) }
        requires open { AreAllOpen self.old }
        ensures tried { FollowsAll (trying.try_put self.old.setup res) self.old self.new }
        ensures spare { self.new.happen.spare ≡ self.old.happen.spare }
        ensures used { self.new.used ≡ self.old.used }
        ensures touched { ChangesOnlyAt (res ∷ []) self.old self.new }
    {
        'puts: while self.try_one_put(res) {}
    }

    /// The gets at a resource are tried (SimPy's "Shared resources"): at a container for as long as one is served, at a
    /// filter store along all, at a store the first alone. Nobody gets at a desk.
    pub fn try_get(&mut self, res: u32)
        requires res { res < length self.old.setup }
        requires open { AreAllOpen self.old }
        ensures tried { FollowsAll (trying.try_get self.old.setup res) self.old self.new }
        ensures spare { self.new.happen.spare ≡ self.old.happen.spare }
        ensures used { self.new.used ≡ self.old.used }
        ensures touched { ChangesOnlyAt (res ∷ []) self.old self.new }
    {
        'gets: while self.try_one_get(res) {}
    }
}
