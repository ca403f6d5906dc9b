//! What the runs of a batch log, added up.
ghost use Rattle.std.specs.Prelude.{◌≡◌, ◌+◌, ◌-◌, ◌^◌, ◌<◌, ◌+ℤ◌, All, length};
ghost use Rattle.sim_trace.specs.SummaryTexts.{all_logs, all_total};
ghost use Rattle.sim_engine.specs.Counting.{LogsAtMost, IsWithin};

use sim_types::Summary;

/// How many numbers some runs logged, and the sum of these.
#[derive(Clone, Copy)]
pub(crate) struct Sums {
    pub(crate) logs: u64,
    pub(crate) total: i128,
}

impl Sums {
    /// Adds what one more run logged.
    fn add(&mut self, run: &Summary)
        requires { LogsAtMost (2 ^ 64 - 1) (self.old.logs + run.now.logs)
            (self.old.total +ℤ run.now.total) }
        ensures logs { self.new.logs ≡ self.old.logs + run.now.logs }
        ensures total { self.new.total ≡ self.old.total +ℤ run.now.total }
    {
        self.logs += run.logs;
        self.total += run.total;
    }
}

/// The sums over runs that made so many units at most.
pub(crate) fn sums_of(limit: u32, runs: &[Summary]) -> Sums
    requires few { length runs.now < 2 ^ 32 }
    requires within { All (IsWithin limit) runs.now }
    ensures logs { result.logs ≡ all_logs runs.now }
    ensures total { result.total ≡ all_total runs.now }
{
    let mut sums = Sums { logs: 0, total: 0 };
    for run in runs {
        sums.add(run);
    }
    sums
}
