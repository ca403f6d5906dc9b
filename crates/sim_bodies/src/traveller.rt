//! Travellers: a body of four kinds, which ends.
ghost use Rattle.std.specs.Prelude.{◌≡◌, [], ◌∷◌, pos, slice_index_or};
ghost use Rattle.sim_bodies.specs.Travellers.{heard};

use sim_plain::{PlainBody, PlainOp};
use sim_types::{Signal, Throw};
use std::marker::Model;

/// The code of travellers: the land in which they are under way. It has nothing.
#[derive(Drop)]
pub struct Land {}

/// How far a traveller has come.
#[derive(Clone, Copy)]
enum Stage {
    /// It was not polled yet.
    SetsOut,
    /// It hears a number, and logs it.
    Hears,
    /// It has logged the number, and ends.
    Arrives,
}

/// It is given two numbers. One of kind 0 pauses for the first of them and is told the second; one of kind 1 draws a number
/// from the first to the second; one of kind 2 does nothing. One of kind 3 is given the first alone, and pauses for it; its
/// second is 0. Then it logs the number that it was told, and ends: with the second number as its value, or of kind 2 by a
/// throw of kind 1 with that value.
#[derive(Drop)]
pub struct Traveller {
    kind: u32,
    first: i64,
    second: i64,
    stage: Stage,
}

impl Model for Traveller {
    ghost use Rattle.sim_bodies.specs.Travellers.{TravellerOf};

    ghost Value = { TravellerOf };

    ghost view = { λ a. record {
      kind = a.kind;
      first = a.first;
      second = a.second;
      stage = a.stage;
    } };
}

impl PlainBody for Traveller {
    ghost use Rattle.sim_bodies.specs.Travellers.{traveller_params, begun_traveller, traveller_turn};

    type Code = Land;

    ghost params = { λ land. traveller_params };

    ghost begun = { λ land. begun_traveller };

    ghost turn = { λ land b time told. traveller_turn b told };

    fn begin(_code: &Land, kind: u32, args: &[i64]) -> Traveller {
        let [first, second] = numbers(args);
        Traveller {
            kind,
            first,
            second,
            stage: Stage::SetsOut,
        }
    }

    fn poll(&mut self, _code: &Land, _now: i64, signal: Signal) -> PlainOp {
        match self.stage {
            Stage::SetsOut => {
                self.stage = Stage::Hears;
                self.sets_out()
            }
            Stage::Hears => {
                self.stage = Stage::Arrives;
                PlainOp::Log(heard(signal))
            }
            Stage::Arrives => self.arrives(),
        }
    }
}

impl Traveller {
    ghost use Rattle.sim_bodies.specs.Travellers.{sets_out, arrives};

    // What it does first.
    fn sets_out(&self) -> PlainOp
        ensures { result ≡ sets_out self.now.kind self.now.first self.now.second }
    {
        match self.kind {
            1 => PlainOp::Draw(self.first, self.second),
            2 => PlainOp::Nop,
            _ => PlainOp::Pause(self.first, self.second),
        }
    }

    // How it ends.
    fn arrives(&self) -> PlainOp
        ensures { result ≡ arrives self.now.kind self.now.second }
    {
        match self.kind {
            2 => PlainOp::Die(Throw {
                kind: 1,
                value: self.second,
            }),
            _ => PlainOp::Finish(self.second),
        }
    }
}

// The number in what a process is told.
fn heard(told: Signal) -> i64
    ensures { result ≡ heard told }
{
    match told {
        Signal::Value(value) => value,
        Signal::Number(number) => number,
        Signal::Raised(error) => i64::from(error),
        _ => 0,
    }
}

/// The first two numbers; 0 where there is none.
pub(crate) fn numbers(args: &[i64]) -> [i64; 2]
    ensures { result ≡ slice_index_or args.now 0 (pos 0) ∷ slice_index_or args.now 1 (pos 0) ∷ [] }
{
    match args {
        [] => [0, 0],
        [first] => [*first, 0],
        [first, second, ..] => [*first, *second],
    }
}
