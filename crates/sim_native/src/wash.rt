//! The car wash by hand: cars, and the street that they come from.
ghost use Rattle.std.specs.Prelude.{◌≡◌, ◌==◌, pos};
ghost use Rattle.sim_types.specs.declared.script.Arith.TheVariants as arith;
ghost use Rattle.sim_script_model.specs.Arithmetic.{compute};
ghost use Rattle.sim_models.specs.Wash.{wash};
ghost use Rattle.sim_native.specs.WashStages.{car_told, stage_begun, stage_holds, stage_told, street_told};
ghost use Rattle.sim_native.specs.WashTurns.{car_next, car_thrown, street_counted, street_next, street_thrown, wash_turn};

use crate::told::{keep_value, thrown_by};
use sim_machine::LawfulBody;
use sim_procs::Body;
use sim_types::{Args, ERROR, EventId, OVERFLOW, Op, ProcId, Signal, Throw};
use std::alloc::{AllocError, Global};
use std::marker::Model;
use std::snapshot::Snapshot;

/// The code of the car wash. It has no statement: contracts alone see what its text says.
#[derive(Drop)]
pub struct WashCode {
    // (a field that is read ties a code to its model)
    one: (),
}

impl Model for WashCode {
    ghost use Rattle.sim_types.specs.Scenarios.{ScenarioOf};
    ghost use Rattle.sim_models.specs.Wash.{wash};

    ghost Value = { ScenarioOf };

    ghost view = { λ a. wash };
}

impl WashCode {
    /// The one code that there is.
    pub fn new() -> WashCode
        ensures { result ≡ wash }
    {
        WashCode { one: () }
    }

    /// What it says.
    fn is_wash(&self)
        ensures { self.now ≡ wash }
    {
        let _known = self.one;
    }
}

/// Where something was thrown at a car.
#[derive(Clone, Copy)]
enum CarSpot {
    Coming,
    Asking,
    Waiting,
    Washing,
}

/// Where a car stands.
#[derive(Clone, Copy)]
enum CarAt {
    /// It has come.
    Came,
    /// It asked for a machine.
    Asked,
    /// It waits for one.
    Waits,
    /// It is washed.
    Washed,
    /// It is clean, and said its number.
    Clean,
    /// It left its machine.
    Left,
    /// It is gone.
    Gone,
    /// This was thrown at it, and it left its machine.
    Fled(CarSpot, Throw),
    /// It ended by this.
    Dead(CarSpot, Throw),
}

/// Where something was thrown at the street.
#[derive(Clone, Copy)]
enum StreetSpot {
    Opening,
    Counting,
    Drawing,
    Sleeping,
}

/// Where the street stands.
#[derive(Clone, Copy)]
enum StreetAt {
    /// It is there.
    Opens,
    /// Its first car has number 0.
    Numbered,
    /// A car comes next.
    Loops,
    /// It sent a car.
    Sent,
    /// The next car has the next number.
    Counted,
    /// It draws how long that takes.
    Draws,
    /// It waits for so long.
    Sleeps,
    /// There is no next number: this is thrown.
    Failed(Throw),
    /// This was thrown at it, and it left its loop.
    Struck(StreetSpot, Throw),
    /// It ended by this.
    Dead(StreetSpot, Throw),
}

/// What a process of the car wash does.
#[derive(Clone, Copy)]
enum Stage {
    /// A car with its number, and its request, which it holds until it ends.
    Car(i64, EventId, CarAt),
    /// The street, with the number of its next car, and the time between two.
    Street(i64, i64, StreetAt),
}

/// A process of the car wash: for contracts it is the script that it stands for.
#[derive(Drop)]
pub struct WashBody {
    me: ProcId,
    /// The value that it was told last, which contracts alone see.
    val: Snapshot<i64>,
    stage: Stage,
}

impl Model for WashBody {
    ghost use Rattle.sim_script_model.specs.Scripts.{Script};
    ghost use Rattle.sim_native.specs.WashStages.{script_of};

    ghost Value = { Script };

    ghost view = { λ a. script_of a.me a.val.value a.stage };
}

/// What a car asks for at which this is thrown, and where it stands then.
fn car_thrown(id: i64, request: EventId, at: CarAt, what: Throw) -> (Op, Stage)
    ensures { result ≡ car_thrown id request at what }
{
    let spot = match at {
        CarAt::Waits => {
            return (
                Op::Leave,
                Stage::Car(id, request, CarAt::Fled(CarSpot::Waiting, what)),
            );
        }
        CarAt::Washed => {
            return (
                Op::Leave,
                Stage::Car(id, request, CarAt::Fled(CarSpot::Washing, what)),
            );
        }
        CarAt::Came => CarSpot::Coming,
        _ => CarSpot::Asking,
    };
    (
        Op::Die(what),
        Stage::Car(id, request, CarAt::Dead(spot, what)),
    )
}

/// What a car asks for next, and where it stands then.
fn car_next(id: i64, request: EventId, at: CarAt, told: Signal) -> (Op, Stage)
    ensures { result ≡ car_next id request at told }
{
    match at {
        CarAt::Came => (Op::Enter(0, 0, true), Stage::Car(id, request, CarAt::Asked)),
        CarAt::Asked => {
            let made = match told {
                Signal::Made(event) => event,
                _ => request,
            };
            (Op::Wait(made), Stage::Car(id, made, CarAt::Waits))
        }
        CarAt::Waits => (Op::Pause(5, 0), Stage::Car(id, request, CarAt::Washed)),
        CarAt::Washed => (Op::Log(id), Stage::Car(id, request, CarAt::Clean)),
        CarAt::Clean => (Op::Leave, Stage::Car(id, request, CarAt::Left)),
        CarAt::Left | CarAt::Gone => (Op::Finish(0), Stage::Car(id, request, CarAt::Gone)),
        CarAt::Fled(spot, what) | CarAt::Dead(spot, what) => {
            (
                Op::Die(what),
                Stage::Car(id, request, CarAt::Dead(spot, what)),
            )
        }
    }
}

/// What the street asks for at which this is thrown, and where it stands then.
fn street_thrown(next: i64, gap: i64, at: StreetAt, what: Throw) -> (Op, Stage)
    ensures { result ≡ street_thrown next gap at what }
{
    let spot = match at {
        StreetAt::Opens => {
            let dead = StreetAt::Dead(StreetSpot::Opening, what);
            return (Op::Die(what), Stage::Street(next, gap, dead));
        }
        StreetAt::Draws => StreetSpot::Drawing,
        _ => StreetSpot::Sleeping,
    };
    (
        Op::Nop,
        Stage::Street(next, gap, StreetAt::Struck(spot, what)),
    )
}

/// Where the street stands once it has counted on from this car.
fn street_counted(next: i64, gap: i64) -> Stage
    ensures { result ≡ street_counted next gap (compute arith.Add next (pos 1)) }
{
    match next.checked_add(1) {
        Some(later) => Stage::Street(later, gap, StreetAt::Counted),
        None => {
            let what = Throw {
                kind: ERROR,
                value: i64::from(OVERFLOW),
            };
            Stage::Street(next, gap, StreetAt::Failed(what))
        }
    }
}

/// What the street asks for next, and where it stands then.
fn street_next(next: i64, gap: i64, at: StreetAt, told: Signal) -> (Op, Stage)
    ensures { result ≡ street_next next gap at told }
{
    match at {
        StreetAt::Opens => (Op::Nop, Stage::Street(0, gap, StreetAt::Numbered)),
        StreetAt::Numbered | StreetAt::Sleeps => (
            Op::Nop,
            Stage::Street(next, gap, StreetAt::Loops),
        ),
        StreetAt::Loops => {
            let mut args = Args::new();
            args.push(next);
            (Op::Spawn(0, args), Stage::Street(next, gap, StreetAt::Sent))
        }
        StreetAt::Sent => (Op::Nop, street_counted(next, gap)),
        StreetAt::Counted => (Op::Draw(1, 5), Stage::Street(next, gap, StreetAt::Draws)),
        StreetAt::Draws => {
            let drawn = match told {
                Signal::Number(number) => number,
                _ => gap,
            };
            (
                Op::Pause(drawn, 0),
                Stage::Street(next, drawn, StreetAt::Sleeps),
            )
        }
        StreetAt::Failed(what) => {
            let struck = StreetAt::Struck(StreetSpot::Counting, what);
            (Op::Nop, Stage::Street(next, gap, struck))
        }
        StreetAt::Struck(spot, what) | StreetAt::Dead(spot, what) => {
            (
                Op::Die(what),
                Stage::Street(next, gap, StreetAt::Dead(spot, what)),
            )
        }
    }
}

/// What a process asks for that is told this, and where it stands then.
fn turn(stage: Stage, told: Signal) -> (Op, Stage)
    ensures { result ≡ wash_turn stage told }
{
    match (stage, thrown_by(told)) {
        (Stage::Car(id, request, at), None) => car_next(id, request, at, told),
        (Stage::Car(id, request, at), Some(what)) => car_thrown(id, request, at, what),
        (Stage::Street(next, gap, at), None) => street_next(next, gap, at, told),
        (Stage::Street(next, gap, at), Some(what)) => street_thrown(next, gap, at, what),
    }
}

impl LawfulBody for WashBody {
    ghost use Rattle.sim_script_law.specs.ScriptMembers.{script_body};
    ghost use Rattle.sim_script_law.proofs.Laws.ScriptLaw.{script_lawful};

    type Code = WashCode;

    ghost body = { script_body };

    ghost lawful = { script_lawful };
}

impl Body for WashBody {
    ghost use Rattle.sim_script_model.specs.Needs.{most_open_scopes};
    ghost use Rattle.sim_script_law.specs.ScriptMembers.{script_holds, script_is_for, script_told_place};
    ghost use Rattle.sim_script_law.proofs.Laws.ScriptLaw.{script_enters_within, script_has_places};
    ghost use Rattle.sim_script_law.proofs.Laws.GivenPlaces.{script_gives_within, script_holds_as_many, script_keeps_others};

    ghost events_held = { script_holds };

    ghost told_place = { script_told_place };

    ghost places = { script_has_places };

    ghost told_place_within = { λ x b e at can is.
        script_gives_within x b e can.sound can.told at is };

    ghost other_places_stay = { λ x b time e asked d can turned. record {
      length = script_holds_as_many x b e can.sound can.told time asked d turned;
      each = script_keeps_others x b e can.sound can.told time asked d turned;
    } };

    ghost is_for = { script_is_for };

    ghost most_open = { λ x. most_open_scopes x.code };

    ghost enters_within = { λ x. record {
      fewer = λ b time told res priority preempts d can turned.
          script_enters_within x b time told res priority preempts d can.sound can.told turned;
    } };

    fn scopes_needed(code: &WashCode) -> usize {
        code.is_wash();
        1
    }

    fn blank(_alloc: Global, code: &WashCode) -> Result<WashBody, AllocError> {
        code.is_wash();
        Ok(WashBody {
            me: ProcId(0),
            val: Snapshot::of(&0),
            stage: Stage::Street(0, 0, StreetAt::Opens),
        })
    }

    fn fill(&mut self, code: &WashCode, _kind: u32, args: &[i64]) {
        code.is_wash();
        self.me = ProcId(0);
        self.val = Snapshot::of(&0);
        self.stage = begun(args);
    }

    fn own(&mut self, id: ProcId) {
        self.me = id;
    }

    fn poll(
        &mut self,
        code: &WashCode,
        _now: i64,
        signal: Signal,
        _most: u32,
        asked: &mut Op,
    ) -> u32 {
        code.is_wash();
        let (op, stage) = turn(self.stage, signal);
        keep_value(signal, &mut self.val);
        self.stage = stage;
        *asked = op;
        1
    }

    fn place(&self, at: u8) -> EventId {
        held(self.stage, at)
    }

    fn places_in_use(&self) -> u8 {
        match self.stage {
            Stage::Car(..) => 3,
            Stage::Street(..) => 0,
        }
    }

    fn place_told(&self, code: &WashCode) -> Option<u8> {
        code.is_wash();
        told_place(self.stage)
    }
}

/// How a process begins with these arguments: a car has its number.
fn begun(args: &[i64]) -> Stage
    ensures { result ≡ stage_begun args.now }
{
    match args.first() {
        Some(id) => Stage::Car(*id, EventId(0), CarAt::Came),
        None => Stage::Street(0, 0, StreetAt::Opens),
    }
}

/// The event that stands in a place.
fn held(stage: Stage, at: u8) -> EventId
    ensures { result ≡ stage_holds stage (at == 2) }
{
    match stage {
        Stage::Car(_, request, _) if at == 2 => request,
        _ => EventId(0),
    }
}

/// The place that gets what a process made or drew last.
fn told_place(stage: Stage) -> Option<u8>
    ensures { result ≡ stage_told stage }
{
    match stage {
        Stage::Car(_, _, at) => car_told(at),
        Stage::Street(_, _, at) => street_told(at),
    }
}

/// The place that gets what a car made last.
fn car_told(at: CarAt) -> Option<u8>
    ensures { result ≡ car_told at }
{
    match at {
        CarAt::Came | CarAt::Asked => Some(2),
        CarAt::Fled(CarSpot::Coming | CarSpot::Asking, _) => Some(2),
        CarAt::Dead(CarSpot::Coming | CarSpot::Asking, _) => Some(2),
        _ => None,
    }
}

/// The place that gets what the street drew last.
fn street_told(at: StreetAt) -> Option<u8>
    ensures { result ≡ street_told at }
{
    match at {
        StreetAt::Draws => Some(2),
        StreetAt::Struck(StreetSpot::Drawing, _) | StreetAt::Dead(StreetSpot::Drawing, _) => Some(
            2,
        ),
        _ => None,
    }
}
