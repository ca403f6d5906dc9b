//! What a plain body asks for.
ghost use Rattle.std.specs.Prelude.{◌≡◌};
ghost use Rattle.sim_plain.specs.PlainTurns.{op_of};

use sim_types::{Op, Throw};

/// An operation that names no event, no resource and no process.
#[derive(Clone, Copy)]
pub enum PlainOp {
    Nop,
    /// Delay and value.
    Pause(i64, i64),
    Log(i64),
    /// The least and the greatest number.
    Draw(i64, i64),
    Finish(i64),
    Die(Throw),
}

impl PlainOp {
    /// Returns the same as an operation of any body.
    pub fn to_op(self) -> Op
        ensures { result ≡ op_of self }
    {
        match self {
            PlainOp::Nop => Op::Nop,
            PlainOp::Pause(delay, value) => Op::Pause(delay, value),
            PlainOp::Log(value) => Op::Log(value),
            PlainOp::Draw(lo, hi) => Op::Draw(lo, hi),
            PlainOp::Finish(value) => Op::Finish(value),
            PlainOp::Die(thrown) => Op::Die(thrown),
        }
    }
}
