//! A machine: it makes one part after the other. When it is broken it waits to be mended, and goes on with what is left of
//! the part.
ghost use Rattle.std.specs.Prelude.{◌≡◌, ◌<◌, ◌^◌, ◌∷◌, [], pos};
ghost use Rattle.sim_types.specs.declared.op.Op.TheVariants as op;
ghost use Rattle.sim_types.specs.declared.script.Arith.TheVariants as arith;
ghost use Rattle.sim_script_model.specs.Arithmetic.{compute, is_equal};
ghost use Rattle.sim_script.specs.StatementGroups.{asked_where};
ghost use Rattle.sim_native.specs.ShopMembers.{no_process, no_throw};
ghost use Rattle.sim_native.specs.ShopStages.{machine_error, machine_told};
ghost use Rattle.sim_native.specs.declared.shop.Stage.TheVariants as stage;
ghost use Rattle.sim_native.specs.ShopTurns.{Hurries, machine_added, machine_leaves, machine_looks, machine_next, machine_next_with_crew, machine_passes, machine_subtracted, machine_thrown, machine_turn};

use crate::told::{event_by, number_by, thrown_by};
use sim_types::{Args, EMPTY_RANGE, ERROR, EventId, OVERFLOW, Op, ProcId, Signal, Throw};
use std::marker::Model;
use std::mem::swap;
use std::snapshot::Snapshot;

/// Where something was thrown at a machine that no line catches.
#[derive(Clone, Copy)]
pub(crate) enum MachineSpot {
    Starting,
    Drawing,
    Adding,
    Subtracting,
}

/// Where a machine stands.
#[derive(Clone, Copy)]
pub(crate) enum MachineAt {
    /// It is there.
    Starts,
    /// It has a breaker.
    HasBreaker,
    /// It makes the next part.
    NextPart,
    /// It draws how long that takes.
    Draws,
    /// It looks whether something of the part is left.
    Looks,
    /// Something is.
    SomeLeft,
    /// Nothing is.
    NoneLeft,
    /// It leaves the loop.
    LeavesLoop,
    /// The part is made.
    PartMade,
    /// It said its number.
    SaidNumber,
    /// It goes on with the part.
    GoesOn,
    /// It noted the time.
    NotedTime,
    /// What is thrown is caught from here on.
    Ready,
    /// It works.
    Works,
    /// Nothing of the part is left.
    Finished,
    /// It is broken.
    Broken,
    /// It added the time that it noted to what was left.
    Added,
    /// It subtracted the time, which gives what is left.
    Subtracted,
    /// What is thrown is caught again.
    WantsCrew,
    /// It asked for a crew.
    AsksForCrew,
    /// It waits for one.
    WaitsForCrew,
    /// Something was thrown at it in that, and it withdrew its request.
    ThrownWaiting,
    /// It is mended.
    InRepair,
    /// Something was thrown at it in that, and it let the crew go.
    ThrownInRepair,
    /// It let the crew go.
    CrewLeft,
    /// What was thrown is caught.
    Caught,
    /// It is no longer being mended.
    Over,
    /// It looks again next.
    PastTry,
    /// What it computed has no result: that is thrown.
    Fails(MachineSpot),
    /// That was thrown, and it left the part.
    LeavesPart(MachineSpot),
    /// That was thrown, and it left its loop too.
    Struck(MachineSpot),
    /// It ended.
    Dead(MachineSpot),
}

/// What a machine keeps from poll to poll.
#[derive(Drop)]
pub(crate) struct Machine {
    id: i64,
    /// How much of its part is left.
    left: i64,
    /// Since when it works on that.
    since: i64,
    /// Its last request for a crew.
    request: EventId,
    /// What it caught last, what was thrown at it, and the process that its breaker got, which contracts alone see.
    caught: Snapshot<Throw>,
    thrown: Snapshot<Throw>,
    given: Snapshot<ProcId>,
}

impl Model for Machine {
    ghost use Rattle.sim_native.specs.ShopMembers.{MachineOf};

    ghost Value = { MachineOf };

    ghost view = { λ a. record {
      id = a.id;
      left = a.left;
      since = a.since;
      request = a.request;
      caught = a.caught.value;
      thrown = a.thrown.value;
      given = a.given.value;
    } };
}

impl Machine {
    /// The machine of this number.
    pub(crate) fn new(id: i64) -> Machine
        ensures { result ≡ record {
          id = id;
          left = pos 0;
          since = pos 0;
          request = record { 0 = 0 };
          caught = no_throw;
          thrown = no_throw;
          given = no_process;
        } }
    {
        let none = Throw { value: 0, kind: 0 };
        Machine {
            id,
            left: 0,
            since: 0,
            request: EventId(0),
            caught: Snapshot::of(&none),
            thrown: Snapshot::of(&none),
            given: Snapshot::of(&ProcId(0)),
        }
    }

    /// Its last request for a crew.
    pub(crate) fn request(&self) -> EventId
        ensures { result ≡ self.now.request }
    {
        self.request
    }

    /// Goes on, told this. Whether it asks for an operation, which is written then.
    pub(crate) fn turn(
        &mut self,
        at: &mut MachineAt,
        me: ProcId,
        now: i64,
        told: Signal,
        asked: &mut Op,
    ) -> bool
        requires { me.0 < 2 ^ 63 }
        ensures { (asked_where result asked.new, at.new, self.new)
            ≡ machine_turn me now at.old self.old told }
    {
        match thrown_by(told) {
            None => self.next(at, me, now, told, asked),
            Some(what) => self.throw(at, what, asked),
        }
    }

    /// Goes on, and nothing was thrown at it.
    fn next(
        &mut self,
        at: &mut MachineAt,
        me: ProcId,
        now: i64,
        told: Signal,
        asked: &mut Op,
    ) -> bool
        requires { me.0 < 2 ^ 63 }
        ensures { (asked_where result asked.new, at.new, self.new)
            ≡ machine_next me now at.old self.old told }
    {
        match *at {
            MachineAt::Starts => {
                self.given = Snapshot::of(&me);
                spawn_breaker(me, asked);
                *at = MachineAt::HasBreaker;
            }
            MachineAt::NextPart => {
                *asked = Op::Draw(8, 12);
                *at = MachineAt::Draws;
            }
            MachineAt::Ready => {
                *asked = Op::Pause(self.left, 0);
                *at = MachineAt::Works;
            }
            MachineAt::PartMade => {
                *asked = Op::Log(self.id);
                *at = MachineAt::SaidNumber;
            }
            _ => return self.next_with_crew(at, now, told, asked),
        }
        true
    }

    /// Goes on where it has to do with a crew, ends by an error, or asks for nothing.
    fn next_with_crew(&mut self, at: &mut MachineAt, now: i64, told: Signal, asked: &mut Op) -> bool
        ensures { (asked_where result asked.new, at.new, self.new)
            ≡ machine_next_with_crew now at.old self.old told }
    {
        match *at {
            MachineAt::WantsCrew => {
                *asked = Op::Enter(0, 1, true);
                *at = MachineAt::AsksForCrew;
            }
            MachineAt::AsksForCrew => {
                self.request = event_by(told);
                *asked = Op::Wait(self.request);
                *at = MachineAt::WaitsForCrew;
            }
            MachineAt::WaitsForCrew => {
                *asked = Op::Pause(5, 0);
                *at = MachineAt::InRepair;
            }
            MachineAt::InRepair => {
                *asked = Op::Leave;
                *at = MachineAt::CrewLeft;
            }
            MachineAt::Struck(spot) | MachineAt::Dead(spot) => {
                let what = error_at(spot);
                self.thrown = Snapshot::of(&what);
                *asked = Op::Die(what);
                *at = MachineAt::Dead(spot);
            }
            quiet => {
                *at = self.pass(quiet, now, told);
                return false;
            }
        }
        true
    }

    /// Goes on, and asks for nothing.
    fn pass(&mut self, at: MachineAt, now: i64, told: Signal) -> MachineAt
        ensures { (result, self.new) ≡ machine_passes now at self.old told }
    {
        match at {
            MachineAt::HasBreaker | MachineAt::SaidNumber => MachineAt::NextPart,
            MachineAt::Draws => {
                self.left = number_by(told);
                MachineAt::Looks
            }
            MachineAt::Looks => self.look(),
            MachineAt::SomeLeft => MachineAt::GoesOn,
            MachineAt::NoneLeft => MachineAt::LeavesLoop,
            MachineAt::LeavesLoop => MachineAt::PartMade,
            MachineAt::GoesOn => {
                self.note_time(now);
                MachineAt::NotedTime
            }
            MachineAt::NotedTime => MachineAt::Ready,
            MachineAt::Works => {
                self.finish_part();
                MachineAt::Finished
            }
            MachineAt::Broken => self.add(),
            MachineAt::Added => self.subtract(now),
            MachineAt::Subtracted => MachineAt::WantsCrew,
            MachineAt::ThrownWaiting | MachineAt::ThrownInRepair => {
                swap(&mut self.caught, &mut self.thrown);
                MachineAt::Caught
            }
            MachineAt::CrewLeft | MachineAt::Caught => MachineAt::Over,
            MachineAt::Finished | MachineAt::Over => MachineAt::PastTry,
            MachineAt::Fails(spot) => MachineAt::LeavesPart(spot),
            MachineAt::LeavesPart(spot) => MachineAt::Struck(spot),
            _ => MachineAt::Looks,
        }
    }

    /// Passes the stages at once in which it asks for nothing, but fewer than so many; in the first it is told this. How many it
    /// passed.
    pub(crate) fn hurry(&mut self, at: &mut MachineAt, now: i64, told: Signal, most: u32) -> u32
        requires some { 0 < most }
        ensures few { result < most }
        ensures passes { Hurries now told result
            (stage.Machine at.old self.old) (stage.Machine at.new self.new) }
    {
        match (*at, told) {
            (MachineAt::SaidNumber, Signal::Done) if 1 < most => {
                *at = MachineAt::NextPart;
                1
            }
            (MachineAt::Draws, Signal::Number(left)) if !is_made(left) && 5 < most => {
                self.start_part(left, now);
                *at = MachineAt::Ready;
                5
            }
            (MachineAt::Works, Signal::Value(_)) if 6 < most => {
                self.finish_part();
                *at = MachineAt::PartMade;
                6
            }
            (MachineAt::CrewLeft, Signal::Done) if !self.none_left() && 7 < most => {
                self.note_time(now);
                *at = MachineAt::Ready;
                7
            }
            _ => 0,
        }
    }

    /// Works on a part that takes so long, since now.
    fn start_part(&mut self, length: i64, now: i64)
        ensures { self.new ≡ record self.old { left = length; since = now } }
    {
        self.left = length;
        self.since = now;
    }

    /// Notes since when it works on its part.
    fn note_time(&mut self, now: i64)
        ensures { self.new ≡ record self.old { since = now } }
    {
        self.since = now;
    }

    /// Has nothing left of its part.
    fn finish_part(&mut self)
        ensures { self.new ≡ record self.old { left = pos 0 } }
    {
        self.left = 0;
    }

    /// Whether nothing of its part is left.
    fn none_left(&self) -> bool
        ensures { result ≡ is_equal self.now.left (pos 0) }
    {
        is_made(self.left)
    }

    /// Looks whether something of its part is left.
    fn look(&self) -> MachineAt
        ensures { (result, self.now) ≡ machine_looks self.now }
    {
        if self.none_left() {
            MachineAt::NoneLeft
        } else {
            MachineAt::SomeLeft
        }
    }

    /// Adds the time that it noted to what was left.
    fn add(&mut self) -> MachineAt
        ensures { (result, self.new)
            ≡ machine_added self.old (compute arith.Add self.old.left self.old.since) }
    {
        match self.left.checked_add(self.since) {
            Some(sum) => {
                self.left = sum;
                MachineAt::Added
            }
            None => MachineAt::Fails(MachineSpot::Adding),
        }
    }

    /// Subtracts the time from that.
    fn subtract(&mut self, now: i64) -> MachineAt
        ensures { (result, self.new)
            ≡ machine_subtracted self.old (compute arith.Sub self.old.left now) }
    {
        match self.left.checked_sub(now) {
            Some(left) => {
                self.left = left;
                MachineAt::Subtracted
            }
            None => MachineAt::Fails(MachineSpot::Subtracting),
        }
    }

    /// Catches what was thrown at it, lets the crew go first, or ends by that.
    fn throw(&mut self, at: &mut MachineAt, what: Throw, asked: &mut Op) -> bool
        ensures { (asked_where result asked.new, at.new, self.new)
            ≡ machine_thrown at.old self.old what }
    {
        match *at {
            MachineAt::Draws => *at = MachineAt::Struck(MachineSpot::Drawing),
            MachineAt::Works => {
                self.caught = Snapshot::of(&what);
                *at = MachineAt::Broken;
            }
            MachineAt::AsksForCrew => {
                self.caught = Snapshot::of(&what);
                *at = MachineAt::Caught;
            }
            _ => {
                self.leave(at, what, asked);
                return true;
            }
        }
        false
    }

    /// Lets the crew go before it catches what was thrown at it, or ends by that.
    fn leave(&mut self, at: &mut MachineAt, what: Throw, asked: &mut Op)
        ensures { (asked.new, at.new, self.new) ≡ machine_leaves at.old self.old what }
    {
        self.thrown = Snapshot::of(&what);
        match *at {
            MachineAt::Starts => {
                *asked = Op::Die(what);
                *at = MachineAt::Dead(MachineSpot::Starting);
            }
            MachineAt::WaitsForCrew => {
                *asked = Op::Leave;
                *at = MachineAt::ThrownWaiting;
            }
            _ => {
                *asked = Op::Leave;
                *at = MachineAt::ThrownInRepair;
            }
        }
    }
}

/// Whether a part is made of which so much is left.
fn is_made(left: i64) -> bool
    ensures { result ≡ is_equal left (pos 0) }
{
    left == 0
}

/// Asks for a breaker of the machine that has this number. It is rare, and its arguments are large.
#[inline(never)]
fn spawn_breaker(machine: ProcId, asked: &mut Op)
    requires { machine.0 < 2 ^ 63 }
    ensures { asked.new ≡ op.Spawn 0 (pos machine.0 ∷ []) }
{
    let mut args = Args::new();
    args.push(machine.0 as i64);
    *asked = Op::Spawn(0, args);
}

/// The error that a machine ends by.
fn error_at(spot: MachineSpot) -> Throw
    ensures { result ≡ machine_error spot }
{
    let error = match spot {
        MachineSpot::Drawing => EMPTY_RANGE,
        _ => OVERFLOW,
    };
    Throw {
        kind: ERROR,
        value: i64::from(error),
    }
}

/// The place that gets what a machine made or drew last.
pub(crate) fn machine_told(at: &MachineAt) -> Option<u8>
    ensures { result ≡ machine_told at.now }
{
    match at {
        MachineAt::Draws => Some(2),
        MachineAt::AsksForCrew => Some(6),
        MachineAt::Fails(MachineSpot::Drawing)
        | MachineAt::LeavesPart(MachineSpot::Drawing)
        | MachineAt::Struck(MachineSpot::Drawing)
        | MachineAt::Dead(MachineSpot::Drawing) => Some(2),
        _ => None,
    }
}
