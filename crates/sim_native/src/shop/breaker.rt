//! A breaker: it breaks its machine again and again.
ghost use Rattle.std.specs.Prelude.{◌≡◌, pos};
ghost use Rattle.sim_script.specs.StatementGroups.{asked_where};
ghost use Rattle.sim_native.specs.ShopStages.{breaker_told};
ghost use Rattle.sim_native.specs.ShopTurns.{breaker_next, breaker_thrown, breaker_turn};

use crate::told::{number_by, thrown_by};
use sim_types::{EventId, Op, ProcId, Signal, Throw};
use std::marker::Model;
use std::snapshot::Snapshot;

/// Where something was thrown at a breaker.
#[derive(Clone, Copy)]
pub(crate) enum BreakerSpot {
    Starting,
    Drawing,
    Sleeping,
    Interrupting,
}

/// Where a breaker stands.
#[derive(Clone, Copy)]
pub(crate) enum BreakerAt {
    /// It is there.
    Starts,
    /// Its machine is to break once more.
    Loops,
    /// It draws after how long.
    Draws,
    /// It waits for so long.
    Sleeps,
    /// It interrupts its machine.
    Interrupts,
    /// This was thrown at it, and it left its loop.
    Struck(BreakerSpot, Throw),
    /// It ended by this.
    Dead(BreakerSpot, Throw),
}

/// What a breaker keeps from poll to poll.
#[derive(Drop)]
pub(crate) struct Breaker {
    machine: ProcId,
    /// How long it drew last, which contracts alone see.
    drawn: Snapshot<i64>,
}

impl Model for Breaker {
    ghost use Rattle.sim_native.specs.ShopMembers.{BreakerOf};

    ghost Value = { BreakerOf };

    ghost view = { λ a. record { machine = a.machine; drawn = a.drawn.value } };
}

impl Breaker {
    /// The breaker of this machine.
    pub(crate) fn new(machine: ProcId) -> Breaker
        ensures { result ≡ record { machine = machine; drawn = pos 0 } }
    {
        Breaker {
            machine,
            drawn: Snapshot::of(&0),
        }
    }

    /// The event that its machine ends by.
    pub(crate) fn machine(&self) -> EventId
        ensures { result ≡ record { 0 = self.now.machine.0 } }
    {
        EventId(self.machine.0)
    }

    /// Goes on, told this. Whether it asks for an operation, which is written then.
    pub(crate) fn turn(&mut self, at: &mut BreakerAt, told: Signal, asked: &mut Op) -> bool
        ensures { (asked_where result asked.new, at.new, self.new)
            ≡ breaker_turn at.old self.old told }
    {
        match thrown_by(told) {
            None => self.next(at, told, asked),
            Some(what) => self.throw(at, what, asked),
        }
    }

    /// Goes on, and nothing was thrown at it.
    fn next(&mut self, at: &mut BreakerAt, told: Signal, asked: &mut Op) -> bool
        ensures { (asked_where result asked.new, at.new, self.new)
            ≡ breaker_next at.old self.old told }
    {
        match *at {
            BreakerAt::Starts | BreakerAt::Interrupts => {
                *at = BreakerAt::Loops;
                return false;
            }
            BreakerAt::Loops => {
                *asked = Op::Draw(50, 150);
                *at = BreakerAt::Draws;
            }
            BreakerAt::Draws => {
                let drawn = number_by(told);
                self.drawn = Snapshot::of(&drawn);
                *asked = Op::Pause(drawn, 0);
                *at = BreakerAt::Sleeps;
            }
            BreakerAt::Sleeps => {
                *asked = Op::Interrupt(self.machine, 1);
                *at = BreakerAt::Interrupts;
            }
            BreakerAt::Struck(spot, what) | BreakerAt::Dead(spot, what) => {
                *asked = Op::Die(what);
                *at = BreakerAt::Dead(spot, what);
            }
        }
        true
    }

    /// Ends by what was thrown at it, or leaves its loop first.
    fn throw(&self, at: &mut BreakerAt, what: Throw, asked: &mut Op) -> bool
        ensures { (asked_where result asked.new, at.new, self.now)
            ≡ breaker_thrown at.old self.now what }
    {
        let spot = match *at {
            BreakerAt::Starts => {
                *asked = Op::Die(what);
                *at = BreakerAt::Dead(BreakerSpot::Starting, what);
                return true;
            }
            BreakerAt::Draws => BreakerSpot::Drawing,
            BreakerAt::Interrupts => BreakerSpot::Interrupting,
            _ => BreakerSpot::Sleeping,
        };
        *at = BreakerAt::Struck(spot, what);
        false
    }
}

/// The place that gets what a breaker drew last.
pub(crate) fn breaker_told(at: &BreakerAt) -> Option<u8>
    ensures { result ≡ breaker_told at.now }
{
    match at {
        BreakerAt::Draws => Some(2),
        BreakerAt::Struck(BreakerSpot::Drawing, _) | BreakerAt::Dead(BreakerSpot::Drawing, _) => {
            Some(2)
        }
        _ => None,
    }
}
