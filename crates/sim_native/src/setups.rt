//! The setups of the models, and the names of their ports.
ghost use Rattle.std.specs.Prelude.{◌≡◌, [], ◌∷◌, pos, IfOk};
ghost use Rattle.sim_types.specs.declared.setup.Until.TheVariants as until;
ghost use Rattle.sim_models.specs.Bank.{bank};
ghost use Rattle.sim_models.specs.Shop.{shop_of};
ghost use Rattle.sim_models.specs.Wash.{wash};

use sim_types::{List, Name, Resource, ResourceKind, Setup, Start, Until};
use std::alloc::{AllocError, Global};

/// The setup of the bank.
pub(crate) fn bank_setup(alloc: Global) -> Result<Setup, AllocError>
    ensures { IfOk result (λ setup. setup ≡ bank.setup) }
{
    let counter = Resource {
        kind: ResourceKind::Plain,
        capacity: 1,
        opening: 0,
    };
    setup_with(alloc, 400, counter, &[0], 1)
}

/// The setup of the shop of so many machines, with a crew for each ten of them and one more.
pub fn shop_setup(alloc: Global, machines: u32) -> Result<Setup, AllocError>
    ensures { IfOk result (λ setup. setup ≡ (shop_of machines).setup) }
{
    let crew = Resource {
        kind: ResourceKind::Preemptive,
        capacity: i64::from(machines / 10 + 1),
        opening: 0,
    };
    setup_with(alloc, 1000, crew, &[], 3)
}

/// The setup of the car wash.
pub(crate) fn wash_setup(alloc: Global) -> Result<Setup, AllocError>
    ensures { IfOk result (λ setup. setup ≡ wash.setup) }
{
    let machines = Resource {
        kind: ResourceKind::Plain,
        capacity: 2,
        opening: 0,
    };
    setup_with(alloc, 60, machines, &[0], 1)
}

/// A setup that ends at this time, with one resource, ports that start processes of these kinds, and one process of this kind
/// from the start on.
fn setup_with(
    alloc: Global,
    time: i64,
    only: Resource,
    started: &[u32],
    first: u32,
) -> Result<Setup, AllocError>
    ensures { IfOk result (λ setup. setup ≡ record {
      until = until.At time;
      events = 0;
      resources = only ∷ [];
      ports = started.now;
      starts = record { kind = first; args = [] } ∷ [];
    }) }
{
    let mut resources = List::new(alloc);
    resources.push(only)?;
    let ports = List::from_vec(Vec::from_slice(alloc, started)?);
    let mut starts = List::new(alloc);
    starts.push(Start {
        kind: first,
        args: List::new(alloc),
    })?;
    Ok(Setup {
        until: Until::At(time),
        events: 0,
        resources,
        ports,
        starts,
    })
}

/// The name of a port, in a list of its own.
pub(crate) fn one_name(alloc: Global, name: &[u8]) -> Result<List<Name>, AllocError>
    ensures { IfOk result (λ names. names ≡ name.now ∷ []) }
{
    let mut names = List::new(alloc);
    names.push(Name::new(alloc, name)?)?;
    Ok(names)
}
