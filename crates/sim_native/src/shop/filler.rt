//! A filler: other work for a crew.
ghost use Rattle.std.specs.Prelude.{◌≡◌, ◌<◌, ℤ};
ghost use Rattle.sim_script.specs.StatementGroups.{asked_where};
ghost use Rattle.sim_native.specs.ShopMembers.{no_throw};
ghost use Rattle.sim_native.specs.ShopStages.{filler_told};
ghost use Rattle.sim_native.specs.declared.shop.Stage.TheVariants as stage;
ghost use Rattle.sim_native.specs.ShopTurns.{Hurries, filler_asks, filler_next, filler_thrown, filler_turn};

use crate::told::{event_by, thrown_by};
use sim_types::{EventId, Op, Signal, Throw};
use std::marker::Model;
use std::mem::swap;
use std::snapshot::Snapshot;

/// Where a filler stands.
#[derive(Clone, Copy)]
pub(crate) enum FillerAt {
    /// It is there.
    Starts,
    /// There is more work.
    Loops,
    /// What is thrown is caught from here on.
    WantsCrew,
    /// It asked for a crew.
    AsksForCrew,
    /// It waits for one.
    WaitsForCrew,
    /// Something was thrown at it in that, and it withdrew its request.
    ThrownWaiting,
    /// The crew works.
    Works,
    /// Something was thrown at it in that, and it let the crew go.
    ThrownAtWork,
    /// It let the crew go.
    CrewLeft,
    /// What was thrown is caught.
    Caught,
    /// The work is over.
    PastTry,
    /// It ended.
    Dead,
}

/// What a filler keeps from poll to poll.
#[derive(Drop)]
pub(crate) struct Filler {
    /// Its last request for a crew.
    request: EventId,
    /// What it caught last, and what was thrown at it, which contracts alone see.
    caught: Snapshot<Throw>,
    thrown: Snapshot<Throw>,
}

impl Model for Filler {
    ghost use Rattle.sim_native.specs.ShopMembers.{FillerOf};

    ghost Value = { FillerOf };

    ghost view = { λ a. record {
      request = a.request;
      caught = a.caught.value;
      thrown = a.thrown.value;
    } };
}

impl Filler {
    /// A filler that has done nothing yet.
    pub(crate) fn new() -> Filler
        ensures { result ≡ record {
          request = record { 0 = 0 };
          caught = no_throw;
          thrown = no_throw;
        } }
    {
        let none = Throw { value: 0, kind: 0 };
        Filler {
            request: EventId(0),
            caught: Snapshot::of(&none),
            thrown: Snapshot::of(&none),
        }
    }

    /// Its last request for a crew.
    pub(crate) fn request(&self) -> EventId
        ensures { result ≡ self.now.request }
    {
        self.request
    }

    /// Goes on, told this. Whether it asks for an operation, which is written then.
    pub(crate) fn turn(&mut self, at: &mut FillerAt, told: Signal, asked: &mut Op) -> bool
        ensures { (asked_where result asked.new, at.new, self.new)
            ≡ filler_turn at.old self.old told }
    {
        match thrown_by(told) {
            None => self.next(at, told, asked),
            Some(what) => self.throw(at, what, asked),
        }
    }

    /// Goes on, and nothing was thrown at it.
    fn next(&mut self, at: &mut FillerAt, told: Signal, asked: &mut Op) -> bool
        ensures { (asked_where result asked.new, at.new, self.new)
            ≡ filler_next at.old self.old told }
    {
        match *at {
            FillerAt::Starts | FillerAt::PastTry => *at = FillerAt::Loops,
            FillerAt::Loops => *at = FillerAt::WantsCrew,
            FillerAt::ThrownWaiting | FillerAt::ThrownAtWork => {
                swap(&mut self.caught, &mut self.thrown);
                *at = FillerAt::Caught;
            }
            FillerAt::CrewLeft | FillerAt::Caught => *at = FillerAt::PastTry,
            _ => {
                self.ask(at, told, asked);
                return true;
            }
        }
        false
    }

    /// Passes the stages at once in which it asks for nothing, but fewer than so many; in the first it is told this. How many it
    /// passed.
    pub(crate) fn hurry(&self, at: &mut FillerAt, told: Signal, most: u32) -> u32
        requires some { 0 < most }
        ensures few { result < most }
        ensures passes { (time : ℤ) → Hurries time told result
            (stage.Filler at.old self.now) (stage.Filler at.new self.now) }
    {
        match (*at, told) {
            (FillerAt::CrewLeft, Signal::Done) if 3 < most => {
                *at = FillerAt::WantsCrew;
                3
            }
            _ => 0,
        }
    }

    /// Goes on, and asks for an operation.
    fn ask(&mut self, at: &mut FillerAt, told: Signal, asked: &mut Op)
        ensures { (asked.new, at.new, self.new) ≡ filler_asks at.old self.old told }
    {
        match *at {
            FillerAt::WantsCrew => {
                *asked = Op::Enter(0, 2, false);
                *at = FillerAt::AsksForCrew;
            }
            FillerAt::AsksForCrew => {
                self.request = event_by(told);
                *asked = Op::Wait(self.request);
                *at = FillerAt::WaitsForCrew;
            }
            FillerAt::WaitsForCrew => {
                *asked = Op::Pause(30, 0);
                *at = FillerAt::Works;
            }
            FillerAt::Works => {
                *asked = Op::Leave;
                *at = FillerAt::CrewLeft;
            }
            _ => {
                *asked = Op::Finish(0);
                *at = FillerAt::Dead;
            }
        }
    }

    /// Catches what was thrown at it, lets the crew go first, or ends by that.
    fn throw(&mut self, at: &mut FillerAt, what: Throw, asked: &mut Op) -> bool
        ensures { (asked_where result asked.new, at.new, self.new)
            ≡ filler_thrown at.old self.old what }
    {
        if let FillerAt::AsksForCrew = *at {
            self.caught = Snapshot::of(&what);
            *at = FillerAt::Caught;
            return false;
        }
        self.thrown = Snapshot::of(&what);
        match *at {
            FillerAt::Starts => {
                *asked = Op::Die(what);
                *at = FillerAt::Dead;
            }
            FillerAt::WaitsForCrew => {
                *asked = Op::Leave;
                *at = FillerAt::ThrownWaiting;
            }
            _ => {
                *asked = Op::Leave;
                *at = FillerAt::ThrownAtWork;
            }
        }
        true
    }
}

/// The place that gets what a filler made last.
pub(crate) fn filler_told(at: &FillerAt) -> Option<u8>
    ensures { result ≡ filler_told at.now }
{
    match at {
        FillerAt::AsksForCrew => Some(1),
        _ => None,
    }
}
