//! The chief: it starts as many fillers as there are crews, and then the machines, which are numbered from 0.
ghost use Rattle.std.specs.Prelude.{◌≡◌, pos};
ghost use Rattle.sim_types.specs.declared.script.Arith.TheVariants as arith;
ghost use Rattle.sim_script_model.specs.Arithmetic.{compute};
ghost use Rattle.sim_script.specs.StatementGroups.{asked_where};
ghost use Rattle.sim_native.specs.ShopMembers.{no_throw};
ghost use Rattle.sim_native.specs.ShopTurns.{chief_begins, chief_counted, chief_counts, chief_next, chief_passes, chief_turn};

use crate::told::thrown_by;
use sim_types::{Args, ERROR, OVERFLOW, Op, Signal, Throw};
use std::marker::Model;
use std::snapshot::Snapshot;

/// Where something was thrown at the chief.
#[derive(Clone, Copy)]
pub(crate) enum ChiefSpot {
    Starting,
    Counting,
}

/// Where the chief stands.
#[derive(Clone, Copy)]
pub(crate) enum ChiefAt {
    /// It is there.
    Starts,
    /// It starts the next filler.
    NextFiller,
    /// It started it.
    SentFiller,
    /// The fillers are there.
    HasFillers,
    /// The first machine has number 0.
    Numbers,
    /// It starts the next machine.
    NextMachine,
    /// It started it.
    SentMachine,
    /// The next machine has the next number.
    Counted,
    /// The machines are there.
    HasMachines,
    /// It is gone.
    Gone,
    /// There is no next number: that is thrown.
    Fails,
    /// That was thrown, and it left its loop.
    Struck,
    /// It ended by what was thrown.
    Dead(ChiefSpot),
}

/// What the chief keeps from poll to poll.
#[derive(Drop)]
pub(crate) struct Chief {
    /// The number of the next machine.
    next: i64,
    /// How many fillers or machines it is still to start, the next one among them.
    count: i64,
    /// What was thrown at it, which contracts alone see.
    thrown: Snapshot<Throw>,
}

impl Model for Chief {
    ghost use Rattle.sim_native.specs.ShopMembers.{ChiefOf};

    ghost Value = { ChiefOf };

    ghost view = { λ a. record {
      next = a.next;
      count = a.count;
      thrown = a.thrown.value;
    } };
}

impl Chief {
    /// The chief that has started none.
    pub(crate) fn new() -> Chief
        ensures { result ≡ record { next = pos 0; count = pos 0; thrown = no_throw } }
    {
        Chief {
            next: 0,
            count: 0,
            thrown: Snapshot::of(&Throw { value: 0, kind: 0 }),
        }
    }

    /// Goes on in a shop of so many machines, told this. Whether it asks for an operation, which is written then. It is rare,
    /// and the arguments of those that it starts are large.
    #[inline(never)]
    pub(crate) fn turn(
        &mut self,
        at: &mut ChiefAt,
        machines: u32,
        told: Signal,
        asked: &mut Op,
    ) -> bool
        ensures { (asked_where result asked.new, at.new, self.new)
            ≡ chief_turn machines at.old self.old told }
    {
        match thrown_by(told) {
            None => self.go_on(at, machines, asked),
            Some(what) => {
                self.thrown = Snapshot::of(&what);
                *asked = Op::Die(what);
                *at = ChiefAt::Dead(ChiefSpot::Starting);
                true
            }
        }
    }

    /// Goes on, and nothing was thrown at it.
    fn go_on(&mut self, at: &mut ChiefAt, machines: u32, asked: &mut Op) -> bool
        ensures { (asked_where result asked.new, at.new, self.new)
            ≡ chief_next machines at.old self.old }
    {
        match *at {
            ChiefAt::NextFiller => {
                *asked = Op::Spawn(2, Args::new());
                *at = ChiefAt::SentFiller;
            }
            ChiefAt::NextMachine => {
                let mut args = Args::new();
                args.push(self.next);
                *asked = Op::Spawn(1, args);
                *at = ChiefAt::SentMachine;
            }
            ChiefAt::HasMachines | ChiefAt::Gone => {
                *asked = Op::Finish(0);
                *at = ChiefAt::Gone;
            }
            ChiefAt::Struck | ChiefAt::Dead(_) => {
                let what = Throw {
                    kind: ERROR,
                    value: i64::from(OVERFLOW),
                };
                self.thrown = Snapshot::of(&what);
                *asked = Op::Die(what);
                *at = ChiefAt::Dead(ChiefSpot::Counting);
            }
            quiet => {
                *at = self.pass(quiet, machines);
                return false;
            }
        }
        true
    }

    /// Goes on, and asks for nothing.
    fn pass(&mut self, at: ChiefAt, machines: u32) -> ChiefAt
        ensures { (result, self.new) ≡ chief_passes machines at self.old }
    {
        match at {
            ChiefAt::Starts => {
                self.count = i64::from(machines / 10 + 1);
                ChiefAt::NextFiller
            }
            ChiefAt::SentFiller => self.count_down(ChiefAt::NextFiller, ChiefAt::HasFillers),
            ChiefAt::HasFillers => {
                self.next = 0;
                ChiefAt::Numbers
            }
            ChiefAt::Numbers => self.begin(i64::from(machines)),
            ChiefAt::SentMachine => self.count_on(),
            ChiefAt::Counted => self.count_down(ChiefAt::NextMachine, ChiefAt::HasMachines),
            _ => ChiefAt::Struck,
        }
    }

    /// Begins to start so many machines.
    fn begin(&mut self, machines: i64) -> ChiefAt
        ensures { (result, self.new) ≡ chief_begins machines self.old }
    {
        if machines < 1 {
            ChiefAt::HasMachines
        } else {
            self.count = machines;
            ChiefAt::NextMachine
        }
    }

    /// One more is started: it goes on here where there is one more to start, and else there.
    fn count_down(&mut self, next: ChiefAt, past: ChiefAt) -> ChiefAt
        ensures { (result, self.new) ≡ chief_counts next past self.old }
    {
        if 1 < self.count {
            self.count -= 1;
            next
        } else {
            past
        }
    }

    /// The next machine has the next number.
    fn count_on(&mut self) -> ChiefAt
        ensures { (result, self.new)
            ≡ chief_counted self.old (compute arith.Add self.old.next (pos 1)) }
    {
        match self.next.checked_add(1) {
            Some(next) => {
                self.next = next;
                ChiefAt::Counted
            }
            None => ChiefAt::Fails,
        }
    }
}
