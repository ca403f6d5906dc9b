//! Random numbers (this project's own: SimPy leaves them to Python).
ghost use Rattle.std.specs.Prelude.{◌≡◌, ◌≤ℤ◌};
ghost use Rattle.sim_machine.specs.Effect.{draw, drawn_number};
ghost use Rattle.sim_steps_model.specs.Becoming.{Becomes};
ghost use Rattle.sim_steps_model.specs.PartsOf.{IsRunningIn, KeepsResources, plan_of};

use crate::parts::Parts;
use rand_core::utils::NextWord;
use sim_procs::Body;
use sim_types::{EMPTY_RANGE, EventId, ProcId, Signal};

/// The number from `lo` to `hi` that a random word stands for.
#[tactic(auto, using(crate::proofs::Drawing::whole_word, crate::proofs::Drawing::rest_below))]
fn number_between(word: u64, lo: i64, hi: i64) -> i64
    requires { lo ≤ℤ hi }
    ensures { result ≡ drawn_number word lo hi }
{
    let width = hi.abs_diff(lo);
    let offset = match width.checked_add(1) {
        Some(count) => word % count,
        None => word,
    };
    match lo.checked_add_unsigned(offset) {
        Some(number) => number,
        None => unreachable!(),
    }
}

impl<B: Body> Parts<B> {
    /// The running process draws a number of a range, unless the range is empty.
    #[inline(always)]
    pub(crate) fn draw(&mut self, event: EventId, process: ProcId, lo: i64, hi: i64)
        requires running { IsRunningIn event process self.old.control }
        ensures becomes { Becomes B.body (draw (plan_of B.body self.old) lo hi)
            self.old self.new }
        ensures resources { KeepsResources self.old self.new }
    {
        if hi < lo {
            self.tell(event, process, Signal::Raised(EMPTY_RANGE));
        } else {
            let word = self.generator.next_word();
            self.tell(event, process, Signal::Number(number_between(word, lo, hi)));
        }
    }
}
