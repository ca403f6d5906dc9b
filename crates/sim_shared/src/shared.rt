//! Time, what happens in it, and the resources.
ghost use Rattle.std.specs.Prelude.{◌≡◌, ◌↔◌, ◌≤◌, ◌<◌, ◌+◌, ◌*◌, ◌^◌, [], ◌∷◌, length, min, slice_get, Some, None, IfOk, IsOk, IsTrue, OnOk};
ghost use Rattle.std.specs.List.{AllPass};
ghost use Rattle.sim_types.specs.Setups.{resource_fits};
ghost use Rattle.sim_machine.specs.State.{Facilities};
ghost use Rattle.sim_machine.specs.Measures.{measure_at};
ghost use Rattle.sim_machine.specs.Requests as requests;
ghost use Rattle.sim_happen_model.specs.HappenOf.{held};
ghost use Rattle.sim_shared_model.specs.AnyShared.{SharedResource};
ghost use Rattle.sim_shared_model.specs.Measuring.{measure_of};
ghost use Rattle.sim_shared_model.specs.Resources.{count_at};
ghost use Rattle.sim_shared_model.specs.SharedOf.{IsSameButRoom};
ghost use Rattle.sim_shared_model.specs.ShowsAll.{ShowsAll};
ghost use Rattle.sim_shared.specs.Opening.{first_facilities};

use crate::opening::open_all;
use crate::resource::{SharedResource, count, measure, reserve};
use sim_happen::Happen;
use sim_types::{List, Measure, Resource};
use std::alloc::{AllocError, Global};
use std::marker::Model;
use std::snapshot::Snapshot;

/// How many events one unit may make at most.
const EVENTS: u32 = 40;

/// How many callbacks one unit may register at most.
const CALLBACKS: u32 = 64;

/// For the events of how many processes that run from the start room is made at once, at most.
const STARTS: usize = 1_000_000;

/// Time and what happens in it, with the resources that processes share, named by their places in the scenario.
///
/// What contracts say of a call is what the machine does to any facilities that were shown before it. Facilities are
/// shown where their calendar is, and the queues, users, levels and items of the resources are theirs.
#[derive(Drop)]
pub struct Shared {
    pub(crate) happen: Happen,
    pub(crate) resources: Vec<SharedResource>,
    // The resource whose place was taken since room was made.
    pub(crate) used: Option<u32>,
    // What the resources were opened with.
    setup: Snapshot<List<Resource>>,
}

impl Model for Shared {
    ghost use Rattle.sim_shared_model.specs.SharedOf.{SharedOf};
    ghost use Rattle.sim_shared_model.specs.Places.{IsSoundShared};

    ghost Value = { SharedOf };

    ghost view = { λ a. record {
      happen = a.happen;
      resources = a.resources.items;
      setup = a.setup.value;
      used = a.used;
    } };

    ghost invariant = { λ a. IsSoundShared a.used a.resources.items a.setup.value };
}

impl Shared {
    ghost use Rattle.std.specs.Borrow.{sem};
    ghost use Rattle.sim_shared.specs.Lending.{LendsHappen};

    /// Time 0, at which nothing is scheduled, and all of these resources as they open. Each has room for one to wait.
    pub fn new(alloc: Global, resources: &List<Resource>) -> Result<Shared, AllocError>
        requires fit { AllPass resource_fits resources.now }
        requires few { length resources.now < 2 ^ 32 }
        ensures shows { IfOk result (λ h. ShowsAll h first_facilities) }
        ensures held { IfOk result (λ h. held h.happen ≡ Some 1 ∷ []) }
        ensures left { IfOk result (λ h. h.happen.left ≡ []) }
        ensures setup { IfOk result (λ h. h.setup ≡ resources.now) }
        ensures places { IfOk result (λ h. h.used ≡ None) }
    {
        let opened = open_all(alloc, resources.as_slice())?;
        Ok(Shared {
            happen: Happen::new(alloc)?,
            resources: opened,
            used: None,
            setup: Snapshot::of(resources),
        })
    }

    /// Time and what happens in it, for reading.
    pub fn happen(&self) -> &Happen
        ensures { result.now ≡ self.now.happen }
    {
        &self.happen
    }

    /// Time and what happens in it, to be changed.
    pub fn happen_mut(&mut self) -> &mut Happen
        ensures* lends { sem 𝓛 (LendsHappen self.entry result) }
        ensures value { result.now ≡ self.old.happen }
    {
        &mut self.happen
    }

    // Makes room for one more to wait at the resource that was used, if one was.
    fn reserve_place(&mut self) -> Result<(), AllocError>
        ensures place { OnOk result (self.new.used ≡ None) }
        ensures ready { self.old.used ≡ None → IsOk result }
        ensures happen { self.new.happen ≡ self.old.happen }
        ensures rest { IsSameButRoom self.old self.new }
    {
        if let Some(used) = self.used {
            reserve(&mut self.resources[used as usize])?;
            self.used = None;
        }
        Ok(())
    }

    /// Whether there is room for all that one unit may take, as `reserve` makes it.
    pub fn is_ready(&self) -> bool
        ensures { IsTrue result ↔ ((self.now.used ≡ None)
            × (40 ≤ self.now.happen.spare.events)
            × (64 ≤ self.now.happen.spare.callbacks)
            × (40 ≤ self.now.happen.spare.conditions)) }
    {
        self.used.is_none() && self.happen.has_room(EVENTS, CALLBACKS)
    }

    /// Makes room for all that one unit may take: 40 events, each of which may be a condition, 64 callbacks, and a
    /// place to wait at each resource.
    #[inline(always)]
    pub fn reserve(&mut self) -> Result<(), AllocError>
        ensures events { OnOk result (40 ≤ self.new.happen.spare.events) }
        ensures callbacks { OnOk result (64 ≤ self.new.happen.spare.callbacks) }
        ensures conditions { OnOk result (40 ≤ self.new.happen.spare.conditions) }
        ensures places { OnOk result (self.new.used ≡ None) }
        ensures ready { 40 ≤ self.old.happen.spare.events
            → 64 ≤ self.old.happen.spare.callbacks
            → 40 ≤ self.old.happen.spare.conditions
            → self.old.used ≡ None
            → IsOk result }
        ensures never_less_events { self.old.happen.spare.events ≤ self.new.happen.spare.events }
        ensures never_less_callbacks { self.old.happen.spare.callbacks
            ≤ self.new.happen.spare.callbacks }
        ensures never_less_conditions { self.old.happen.spare.conditions
            ≤ self.new.happen.spare.conditions }
        ensures rest { IsSameButRoom self.old self.new }
    {
        self.reserve_place()?;
        if self.happen.has_room(EVENTS, CALLBACKS) {
            return Ok(());
        }
        self.happen.reserve(EVENTS, CALLBACKS)
    }

    /// Makes room at once for the events of so many processes that run from the start, of whom each has two and one
    /// callback, for what stops the run, and for the first unit. Of very many, the others find room as they are made.
    pub fn reserve_starts(&mut self, starts: usize) -> Result<(), AllocError>
        ensures events { OnOk result
            (2 * min starts (10 ^ 6) + 42 ≤ self.new.happen.spare.events) }
        ensures callbacks { OnOk result
            (min starts (10 ^ 6) + 65 ≤ self.new.happen.spare.callbacks) }
        ensures rest { self.new
            ≡ record self.old
            { happen = record self.old.happen { spare = self.new.happen.spare } } }
    {
        let made = starts.min(STARTS) as u32 + 1;
        self.happen
            .reserve_plain(2 * made + EVENTS, made + CALLBACKS)
    }

    /// How much is in use at a resource, or stands in it: users, level or number of items.
    pub fn count(&self, res: u32) -> i64
        requires res { res < length self.now.setup }
        ensures value { (x : SharedResource) →
            slice_get self.now.resources res ≡ Some x → result ≡ count_at x }
        ensures shown { (f : Facilities) → ShowsAll self.now f →
            result ≡ requests.held self.now.setup res f }
    {
        count(&self.resources[res as usize])
    }

    /// What is measured at a resource now: how many requests or puts wait, how many gets, and how much is in use of it, or
    /// stands in it.
    pub fn measure(&self, res: u32) -> Measure
        requires res { res < length self.now.setup }
        ensures value { (x : SharedResource) →
            slice_get self.now.resources res ≡ Some x → result ≡ measure_of x }
        ensures shown { (f : Facilities) → ShowsAll self.now f →
            result ≡ measure_at self.now.setup res f }
    {
        measure(&self.resources[res as usize])
    }
}
