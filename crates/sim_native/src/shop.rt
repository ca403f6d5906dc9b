//! The machine shop by hand: machines, a breaker for each, fillers that keep the crews busy, and the chief that starts them.
ghost use Rattle.std.specs.Prelude.{◌≡◌, ◌<◌, ◌^◌, pos, IsTrue};
ghost use Rattle.sim_types.specs.Scenarios.{ScenarioOf};
ghost use Rattle.sim_machine.specs.MayFollow.{may_be_told};
ghost use Rattle.sim_procs.specs.Premises.{CanBeTold};
ghost use Rattle.sim_procs.specs.QuietPolls.{QuietPolls};
ghost use Rattle.sim_script_model.specs.Polls.{script_turn};
ghost use Rattle.sim_script_law.specs.ScriptMembers.{script_body};
ghost use Rattle.sim_script.specs.StatementGroups.{asked_where};
ghost use Rattle.sim_models.specs.Shop.{shop_of};
ghost use Rattle.sim_native.specs.ShopStages.{script_of, stage_begun, stage_holds, stage_told};
ghost use Rattle.sim_native.specs.ShopTurns.{Hurries, shop_turn};

mod breaker;
mod chief;
mod filler;
mod machine;

use crate::told::keep_value;
use breaker::{Breaker, BreakerAt, breaker_told};
use chief::{Chief, ChiefAt};
use filler::{Filler, FillerAt, filler_told};
use machine::{Machine, MachineAt, machine_told};
use sim_machine::LawfulBody;
use sim_procs::Body;
use sim_types::{EventId, Op, ProcId, Signal};
use std::alloc::{AllocError, Global};
use std::marker::Model;
use std::snapshot::Snapshot;

/// The code of the machine shop: how many machines it has. It has no statement: contracts alone see what its text says.
#[derive(Drop)]
pub struct ShopCode {
    machines: u32,
}

impl Model for ShopCode {
    ghost use Rattle.sim_types.specs.Scenarios.{ScenarioOf};
    ghost use Rattle.sim_models.specs.Shop.{shop_of};

    ghost Value = { ScenarioOf };

    ghost view = { λ a. shop_of a.machines };
}

impl ShopCode {
    /// The code of a shop of so many machines.
    pub fn new(machines: u32) -> ShopCode
        ensures { result ≡ shop_of machines }
    {
        ShopCode { machines }
    }

    /// How many machines it says.
    fn machines(&self) -> u32
        ensures { self.now ≡ shop_of result }
    {
        self.machines
    }
}

/// What a process of the machine shop does: where it stands, and what it keeps.
#[derive(Drop)]
enum Stage {
    Breaker(BreakerAt, Breaker),
    Machine(MachineAt, Machine),
    Filler(FillerAt, Filler),
    Chief(ChiefAt, Chief),
}

/// A process of the machine shop: for contracts it is the script that it stands for.
#[derive(Drop)]
pub struct ShopBody {
    me: ProcId,
    /// How many machines the shop has, and the value that it was told last, which contracts alone see.
    machines: Snapshot<u32>,
    val: Snapshot<i64>,
    stage: Stage,
}

/// There are many, so they are small.
const _: () = prove!(size_of::<ShopBody>() == 48);

impl Model for ShopBody {
    ghost use Rattle.std.specs.Prelude.{◌<◌, ◌^◌};
    ghost use Rattle.sim_script_model.specs.Scripts.{Script};
    ghost use Rattle.sim_native.specs.ShopStages.{script_of};

    ghost Value = { Script };

    ghost view = { λ a. script_of a.machines.value a.me a.val.value a.stage };

    ghost invariant = { λ a. a.me.0 < 2 ^ 63 };
}

impl ShopBody {
    /// A process of a shop of so many machines, which was not told its number yet.
    fn new(machines: u32, stage: Stage) -> ShopBody
        ensures { result ≡ script_of machines (record { 0 = 0 }) (pos 0) stage }
    {
        ShopBody {
            me: ProcId(0),
            machines: Snapshot::of(&machines),
            val: Snapshot::of(&0),
            stage,
        }
    }

    /// Makes one poll in a shop of so many machines. Whether it asks for an operation, which is written then.
    fn turn(&mut self, machines: u32, now: i64, told: Signal, asked: &mut Op) -> bool
        requires { IsTrue (may_be_told self.old.asked told) }
        ensures { (asked_where result asked.new, self.new)
            ≡ script_turn (shop_of machines).code self.old now told }
    {
        let asks = go_on(&mut self.stage, self.me, machines, now, told, asked);
        keep_value(told, &mut self.val);
        asks
    }

    /// Makes the polls at once in which it asks for nothing, but fewer than so many; in the first it is told this. How many it
    /// made.
    fn hurry(&mut self, now: i64, told: Signal, most: u32) -> u32
        requires some { 0 < most }
        ensures few { result < most }
        ensures polls { (x : ScenarioOf) → CanBeTold script_body x self.old told
            → QuietPolls script_body x now told result self.old self.new }
    {
        let passed = hurry(&mut self.stage, now, told, most);
        if passed > 0 {
            keep_value(told, &mut self.val);
        }
        passed
    }
}

/// A process goes on, told this. Whether it asks for an operation, which is written then.
fn go_on(
    stage: &mut Stage,
    me: ProcId,
    machines: u32,
    now: i64,
    told: Signal,
    asked: &mut Op,
) -> bool
    requires { me.0 < 2 ^ 63 }
    ensures { (asked_where result asked.new, stage.new) ≡ shop_turn machines me now stage.old told }
{
    match stage {
        Stage::Breaker(at, breaker) => breaker.turn(at, told, asked),
        Stage::Machine(at, machine) => machine.turn(at, me, now, told, asked),
        Stage::Filler(at, filler) => filler.turn(at, told, asked),
        Stage::Chief(at, chief) => chief.turn(at, machines, told, asked),
    }
}

/// A process passes the stages at once in which it asks for nothing, but fewer than so many; in the first it is told this. How
/// many it passed.
fn hurry(stage: &mut Stage, now: i64, told: Signal, most: u32) -> u32
    requires some { 0 < most }
    ensures few { result < most }
    ensures passes { Hurries now told result stage.old stage.new }
{
    match stage {
        Stage::Machine(at, machine) => machine.hurry(at, now, told, most),
        Stage::Filler(at, filler) => filler.hurry(at, told, most),
        Stage::Breaker(..) | Stage::Chief(..) => 0,
    }
}

impl LawfulBody for ShopBody {
    ghost use Rattle.sim_script_law.specs.ScriptMembers.{script_body};
    ghost use Rattle.sim_script_law.proofs.Laws.ScriptLaw.{script_lawful};

    type Code = ShopCode;

    ghost body = { script_body };

    ghost lawful = { script_lawful };
}

impl Body for ShopBody {
    ghost use Rattle.sim_script_model.specs.Needs.{most_open_scopes};
    ghost use Rattle.sim_script_law.specs.ScriptMembers.{script_holds, script_is_for, script_told_place};
    ghost use Rattle.sim_script_law.proofs.Laws.ScriptLaw.{script_enters_within, script_has_places};
    ghost use Rattle.sim_script_law.proofs.Laws.GivenPlaces.{script_gives_within, script_holds_as_many, script_keeps_others};

    ghost events_held = { script_holds };

    ghost told_place = { script_told_place };

    ghost places = { script_has_places };

    ghost told_place_within = { λ x b e at can is.
        script_gives_within x b e can.sound can.told at is };

    ghost other_places_stay = { λ x b time e asked d can turned. record {
      length = script_holds_as_many x b e can.sound can.told time asked d turned;
      each = script_keeps_others x b e can.sound can.told time asked d turned;
    } };

    ghost is_for = { script_is_for };

    ghost most_open = { λ x. most_open_scopes x.code };

    ghost enters_within = { λ x. record {
      fewer = λ b time told res priority preempts d can turned.
          script_enters_within x b time told res priority preempts d can.sound can.told turned;
    } };

    fn scopes_needed(code: &ShopCode) -> usize {
        let _known = code.machines();
        1
    }

    fn blank(_alloc: Global, code: &ShopCode) -> Result<ShopBody, AllocError> {
        let stage = Stage::Chief(ChiefAt::Starts, Chief::new());
        Ok(ShopBody::new(code.machines(), stage))
    }

    fn fill(&mut self, code: &ShopCode, kind: u32, args: &[i64]) {
        *self = ShopBody::new(code.machines(), begun(kind, args));
    }

    fn own(&mut self, id: ProcId) {
        self.me = id;
    }

    fn poll(
        &mut self,
        code: &ShopCode,
        now: i64,
        signal: Signal,
        most: u32,
        asked: &mut Op,
    ) -> u32 {
        let machines = code.machines();
        let mut quiet = self.hurry(now, signal, most);
        let mut told = if quiet > 0 { Signal::Done } else { signal };
        while !self.turn(machines, now, told, asked) {
            quiet += 1;
            if quiet == most {
                ask_for_nothing(asked);
                return quiet;
            }
            told = Signal::Done;
        }
        quiet + 1
    }

    fn place(&self, at: u8) -> EventId {
        held(&self.stage, at)
    }

    fn places_in_use(&self) -> u8 {
        match &self.stage {
            Stage::Breaker(..) => 2,
            Stage::Machine(..) => 7,
            Stage::Filler(..) => 2,
            Stage::Chief(..) => 0,
        }
    }

    fn place_told(&self, code: &ShopCode) -> Option<u8> {
        let _known = code.machines();
        told_place(&self.stage)
    }
}

/// Asks for nothing. It is rare, and an operation is large, so it is not put in.
#[cold]
#[inline(never)]
fn ask_for_nothing(asked: &mut Op)
    ensures { asked.new ≡ Op.Nop }
{
    *asked = Op::Nop;
}

/// How a process of a kind begins with these arguments: a breaker has its machine, and a machine its number.
fn begun(kind: u32, args: &[i64]) -> Stage
    ensures { result ≡ stage_begun kind args.now }
{
    let first = match args.first() {
        Some(first) => *first,
        None => 0,
    };
    match kind {
        0 => Stage::Breaker(
            BreakerAt::Starts,
            Breaker::new(ProcId(first.unsigned_abs())),
        ),
        1 => Stage::Machine(MachineAt::Starts, Machine::new(first)),
        2 => Stage::Filler(FillerAt::Starts, Filler::new()),
        _ => Stage::Chief(ChiefAt::Starts, Chief::new()),
    }
}

/// The event that stands in a place.
fn held(stage: &Stage, at: u8) -> EventId
    ensures { result ≡ stage_holds stage.now at }
{
    match stage {
        Stage::Breaker(_, breaker) if at == 1 => breaker.machine(),
        Stage::Machine(_, machine) if at == 6 => machine.request(),
        Stage::Filler(_, filler) if at == 1 => filler.request(),
        _ => EventId(0),
    }
}

/// The place that gets what a process made or drew last.
fn told_place(stage: &Stage) -> Option<u8>
    ensures { result ≡ stage_told stage.now }
{
    match stage {
        Stage::Breaker(at, _) => breaker_told(at),
        Stage::Machine(at, _) => machine_told(at),
        Stage::Filler(at, _) => filler_told(at),
        Stage::Chief(..) => None,
    }
}
