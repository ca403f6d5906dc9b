//! Plain bodies, and what makes a body of the machine of one.
ghost use Rattle.std.specs.Prelude.{◌≡◌, ℕ, ℤ, List};
ghost use Rattle.sim_types.specs.declared.event.Signal.{Signal};
ghost use Rattle.sim_types.specs.declared.setup.Class.{Class};
ghost use Rattle.sim_plain.specs.declared.op.PlainOp.{PlainOp};

use crate::op::PlainOp;
use sim_machine::LawfulBody;
use sim_procs::Body;
use sim_types::{EventId, Op, ProcId, Signal};
use std::alloc::{AllocError, Global};
use std::marker::Model;

/// A body that names no event, no resource and no process: its state, how it begins, and its turn. `Plain` of it is a `Body`.
pub trait PlainBody: Sized + Drop {
    /// What the bodies of one run share.
    type Code;

    /// The classes of the parameters of each kind of process.
    ghost params: { Self.Code → List (List Class) };

    /// How a process of a kind begins with these numbers.
    ghost begun: { Self.Code → ℕ → List ℤ → Self };

    /// What it asks for at this time when it is told this, and its next state.
    ghost turn: { Self.Code → Self → ℤ → Signal → PlainOp × Self };

    /// Makes the start of a process of a kind, with the numbers that it begins with. `Plain` also calls it with others, to have
    /// a state that no process is in yet.
    fn begin(code: &Self::Code, kind: u32, args: &[i64]) -> Self
        ensures { result ≡ begun code.now kind args.now };

    /// Tells the body what came of its last operation, and returns the next one.
    fn poll(&mut self, code: &Self::Code, now: i64, signal: Signal) -> PlainOp
        ensures asks { result ≡ (turn code.now self.old now signal).0 }
        ensures leaves { self.new ≡ (turn code.now self.old now signal).1 };
}

/// A plain body, with its number and the operation that it asked for last.
#[derive(Drop)]
pub struct Plain<B: PlainBody> {
    own: ProcId,
    last: Option<PlainOp>,
    state: B,
}

impl<B: PlainBody> Model for Plain<B> {
    ghost use Rattle.sim_plain.specs.PlainTurns.{PlainOf};

    ghost Value = { PlainOf B };

    ghost view = { λ a. record { own = a.own; last = a.last; state = a.state } };
}

impl<B: PlainBody> LawfulBody for Plain<B> {
    ghost use Rattle.sim_plain.specs.PlainTurns.{plain_body};
    ghost use Rattle.sim_plain.specs.PlainLaw.{plain_body_lawful};

    type Code = B::Code;

    ghost body = { plain_body B.params B.begun B.turn };

    ghost lawful = { plain_body_lawful B.params B.begun B.turn };
}

impl<B: PlainBody> Body for Plain<B> {
    ghost use Rattle.std.specs.Prelude.{None, [], refl};
    ghost use Rattle.std.proofs.lemmas.Option.{none-some};
    ghost use Rattle.sim_plain.specs.PlainLaw.{plain_enters_within};

    ghost events_held = { λ b. [] };

    ghost told_place = { λ code b. None };

    ghost is_for = { λ code b. Unit {0} };

    ghost most_open = { λ code. 0 };

    fn scopes_needed(_code: &B::Code) -> usize {
        0
    }

    fn blank(_alloc: Global, code: &B::Code) -> Result<Plain<B>, AllocError> {
        Ok(Plain {
            own: ProcId(0),
            last: None,
            state: B::begin(code, 0, &[]),
        })
    }

    fn fill(&mut self, code: &B::Code, kind: u32, args: &[i64]) {
        self.own = ProcId(0);
        self.last = None;
        self.state = B::begin(code, kind, args);
    }

    fn own(&mut self, id: ProcId) {
        self.own = id;
    }

    fn poll(
        &mut self,
        code: &B::Code,
        now: i64,
        signal: Signal,
        _most: u32,
        asked: &mut Op,
    ) -> u32 {
        let next = self.state.poll(code, now, signal);
        self.last = Some(next);
        *asked = next.to_op();
        1
    }

    fn place(&self, _at: u8) -> EventId {
        EventId(0)
    }

    fn places_in_use(&self) -> u8 {
        0
    }

    fn place_told(&self, _code: &B::Code) -> Option<u8> {
        None
    }

    ghost places = { λ code b sound. refl };

    ghost told_place_within = { λ code b e at can is. absurd (none-some at is) };

    ghost other_places_stay = { λ code b time e asked d can turned. record {
      length = refl;
      each = λ i other. refl;
    } };

    ghost enters_within = { plain_enters_within B.params B.begun B.turn };
}
