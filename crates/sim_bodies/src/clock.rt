//! Clocks: the smallest body that goes on for ever.
use sim_plain::{PlainBody, PlainOp};
use sim_types::Signal;

/// The code of clocks: how long they pause.
#[derive(Drop)]
pub struct Pace {
    /// How many units of time they pause. Where that is negative or leads past the last time, the machine refuses the pause,
    /// and the clock goes on at once.
    pub delay: i64,
}

/// It logs the time and pauses, for ever.
#[derive(Drop)]
pub struct Clock {
    /// Whether it logged the time last.
    pub logged: bool,
}

impl PlainBody for Clock {
    ghost use Rattle.std.specs.Prelude.{[], ◌∷◌, pos, true, false, if◌then◌else◌};
    ghost use Rattle.sim_plain.specs.declared.op.PlainOp.TheVariants as op;

    type Code = Pace;

    ghost params = { λ pace. [] ∷ [] };

    ghost begun = { λ pace kind args. record { logged = false } };

    ghost turn = { λ pace b time told.
        if b.logged then (op.Pause pace.delay (pos 0), record { logged = false })
        else (op.Log time, record { logged = true }) };

    fn begin(_code: &Pace, _kind: u32, _args: &[i64]) -> Clock {
        Clock { logged: false }
    }

    fn poll(&mut self, code: &Pace, now: i64, _signal: Signal) -> PlainOp {
        self.logged = !self.logged;
        if self.logged {
            PlainOp::Log(now)
        } else {
            PlainOp::Pause(code.delay, 0)
        }
    }
}
