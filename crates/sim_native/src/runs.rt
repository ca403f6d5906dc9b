//! The runs of the models.
ghost use Rattle.std.specs.Prelude.{◌≡◌, IfOk};
ghost use Rattle.sim_types.specs.Setups.{HavePorts};
ghost use Rattle.sim_outside.specs.Writes.{IsUnflushed, Writes};
ghost use Rattle.sim_models.specs.Bank.{bank};
ghost use Rattle.sim_models.specs.Models.{scenario_of};
ghost use Rattle.sim_models.specs.Shop.{shop_of};
ghost use Rattle.sim_models.specs.Wash.{wash};
ghost use Rattle.sim_script_model.specs.Scenarios.{summary, trace};
ghost use Rattle.sim_trace.specs.Texts.{trace_text};
ghost use Rattle.sim_writing.specs.RunFaults.{is_write};

use crate::bank::{BankBody, BankCode};
use crate::setups::{bank_setup, one_name, shop_setup, wash_setup};
use crate::shop::{ShopBody, ShopCode};
use crate::wash::{WashBody, WashCode};
use sim_kernel::Walk;
use sim_models::Model;
use sim_outside::Sink;
use sim_types::{Arrival, End};
use sim_writing::{RunFault as NativeFault, write_run};
use std::alloc::Global;

/// How many machines the shop has.
const MACHINES: u32 = 5;

/// Runs a model by its processes written by hand, with the random words of this seed, at most so many units, while the entries
/// of the journal arrive; writes the trace, and tells how the run ended. It writes what a run of the model's text writes.
pub fn native_run<K: Sink>(
    alloc: Global,
    model: Model,
    seed: u64,
    journal: &[Arrival],
    limit: u32,
    out: &mut K,
) -> Result<End, NativeFault>
    requires ports { HavePorts (scenario_of model).setup journal.now }
    ensures end { IfOk result (λ end. end
        ≡ (summary (scenario_of model) seed journal.now limit).end) }
    ensures writes { Writes is_write (K.tells out.old) (K.tells out.new) result (trace_text
        (scenario_of model).port_names (trace (scenario_of model) seed journal.now limit)) }
    ensures unflushed { IsUnflushed (K.tells out.old) (K.tells out.new) }
{
    match model {
        Model::Bank => run_bank(alloc, seed, journal, limit, out),
        Model::Shop => run_shop(alloc, seed, journal, limit, out),
        Model::Wash => run_wash(alloc, seed, journal, limit, out),
    }
}

/// Runs the bank.
fn run_bank<K: Sink>(
    alloc: Global,
    seed: u64,
    journal: &[Arrival],
    limit: u32,
    out: &mut K,
) -> Result<End, NativeFault>
    requires ports { HavePorts bank.setup journal.now }
    ensures end { IfOk result (λ end. end ≡ (summary bank seed journal.now limit).end) }
    ensures writes { Writes is_write (K.tells out.old) (K.tells out.new) result
        (trace_text bank.port_names (trace bank seed journal.now limit)) }
    ensures unflushed { IsUnflushed (K.tells out.old) (K.tells out.new) }
{
    let setup = bank_setup(alloc)?;
    let ports = one_name(alloc, b"walkin")?;
    let code = BankCode::new();
    let walk = Walk::<BankBody>::new(alloc, &code, &setup, seed, journal, limit)?;
    write_run(&code, walk, ports.as_slice(), out)
}

/// Runs the machine shop.
fn run_shop<K: Sink>(
    alloc: Global,
    seed: u64,
    journal: &[Arrival],
    limit: u32,
    out: &mut K,
) -> Result<End, NativeFault>
    requires ports { HavePorts (shop_of 5).setup journal.now }
    ensures end { IfOk result (λ end. end ≡ (summary (shop_of 5) seed journal.now limit).end) }
    ensures writes { Writes is_write (K.tells out.old) (K.tells out.new) result
        (trace_text (shop_of 5).port_names (trace (shop_of 5) seed journal.now limit)) }
    ensures unflushed { IsUnflushed (K.tells out.old) (K.tells out.new) }
{
    let setup = shop_setup(alloc, MACHINES)?;
    let code = ShopCode::new(MACHINES);
    let walk = Walk::<ShopBody>::new(alloc, &code, &setup, seed, journal, limit)?;
    write_run(&code, walk, &[], out)
}

/// Runs the car wash.
fn run_wash<K: Sink>(
    alloc: Global,
    seed: u64,
    journal: &[Arrival],
    limit: u32,
    out: &mut K,
) -> Result<End, NativeFault>
    requires ports { HavePorts wash.setup journal.now }
    ensures end { IfOk result (λ end. end ≡ (summary wash seed journal.now limit).end) }
    ensures writes { Writes is_write (K.tells out.old) (K.tells out.new) result
        (trace_text wash.port_names (trace wash seed journal.now limit)) }
    ensures unflushed { IsUnflushed (K.tells out.old) (K.tells out.new) }
{
    let setup = wash_setup(alloc)?;
    let ports = one_name(alloc, b"gate")?;
    let code = WashCode::new();
    let walk = Walk::<WashBody>::new(alloc, &code, &setup, seed, journal, limit)?;
    write_run(&code, walk, ports.as_slice(), out)
}
