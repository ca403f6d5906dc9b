//! Resources as they open.
ghost use Rattle.std.specs.Prelude.{◌≡◌, IsTrue, IfOk};
ghost use Rattle.std.specs.List.{AllPass};
ghost use Rattle.sim_types.specs.Setups.{resource_fits};
ghost use Rattle.sim_shared_model.specs.DeskOf.{resource_kind};
ghost use Rattle.sim_shared_model.specs.Shelves.{store_kind};
ghost use Rattle.sim_types.specs.declared.setup.ResourceKind.TheVariants as kinds;
ghost use Rattle.sim_shared.specs.Opening.{AreOpened, IsOpened};

use crate::resource::SharedResource;
use sim_resource::Desk;
use sim_shared_model::{DeskKind, ShelfKind};
use sim_stores::{Shelf, Tank};
use sim_types::{Resource, ResourceKind};
use std::alloc::{AllocError, Global};

// A resource of slots, all of which are free.
fn desk(alloc: Global, kind: DeskKind, r: Resource) -> Result<SharedResource, AllocError>
    requires kind { r.kind ≡ resource_kind kind }
    requires fits { IsTrue (resource_fits r) }
    ensures { IfOk result (λ x. IsOpened r x) }
{
    Ok(SharedResource::Desk(Desk::new(alloc, kind, r.capacity as u32)?))
}

// A container, which holds what it opens with.
fn tank(alloc: Global, r: Resource) -> Result<SharedResource, AllocError>
    requires kind { r.kind ≡ kinds.Container }
    requires fits { IsTrue (resource_fits r) }
    ensures { IfOk result (λ x. IsOpened r x) }
{
    let mut tank = Tank::new(alloc, r.capacity, r.opening);
    tank.reserve()?;
    Ok(SharedResource::Tank(tank))
}

// A store without items.
fn shelf(alloc: Global, kind: ShelfKind, r: Resource) -> Result<SharedResource, AllocError>
    requires kind { r.kind ≡ store_kind kind }
    requires fits { IsTrue (resource_fits r) }
    ensures { IfOk result (λ x. IsOpened r x) }
{
    let mut shelf = Shelf::new(alloc, kind, r.capacity as u64);
    shelf.reserve()?;
    Ok(SharedResource::Shelf(shelf))
}

// A resource as it opens, with room for one to wait.
fn open(alloc: Global, r: Resource) -> Result<SharedResource, AllocError>
    requires fits { IsTrue (resource_fits r) }
    ensures { IfOk result (λ x. IsOpened r x) }
{
    match r.kind {
        ResourceKind::Plain => desk(alloc, DeskKind::Plain, r),
        ResourceKind::Priority => desk(alloc, DeskKind::Priority, r),
        ResourceKind::Preemptive => desk(alloc, DeskKind::Preemptive, r),
        ResourceKind::Container => tank(alloc, r),
        ResourceKind::Store => shelf(alloc, ShelfKind::Fifo, r),
        ResourceKind::PStore => shelf(alloc, ShelfKind::Priority, r),
        ResourceKind::FStore => shelf(alloc, ShelfKind::Filter, r),
    }
}

#[tactic(auto, using(crate::proofs::OpenedResources::opened_none, crate::proofs::OpenedResources::opened_all))]
/// All of these resources as they open, each with room for one to wait.
pub(crate) fn open_all(
    alloc: Global,
    resources: &[Resource],
) -> Result<Vec<SharedResource>, AllocError>
    requires fit { AllPass resource_fits resources.now }
    ensures { IfOk result (λ v. AreOpened resources.now v.items) }
{
    let mut opened = Vec::new(alloc);
    opened.reserve(resources.len())?;
    for i in 0..resources.len() {
        opened.push_reserved(open(alloc, resources[i])?);
    }
    Ok(opened)
}
