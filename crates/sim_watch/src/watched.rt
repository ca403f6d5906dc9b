//! One resource, as it is watched.
ghost use Rattle.std.specs.Prelude.{◌≡◌, ◌+◌, ◌≤◌, ◌^◌, ◌≤ℤ◌, ◌+ℤ◌, ◌-ℤ◌, ◌*ℤ◌, ℕ, ℤ, pos, max};
ghost use Rattle.std.specs.Int.{int_max, int_min};
ghost use Rattle.sim_types.specs.Limits.{last_time, most_level};
ghost use Rattle.sim_types.specs.declared.line.Measure.{Measure};
ghost use Rattle.sim_machine.specs.Measures.{row_of};
ghost use Rattle.sim_watch.specs.Watched.{IsWatched, IsSteady, IsSumWithin, row_at};

use sim_types::{Measure, WatchRow};
use std::marker::Model;

/// A resource as it is watched: what was measured last, since when, and what is told of it up to then.
#[derive(Clone, Copy)]
pub(crate) struct Watched {
    measure: Measure,
    since: i64,
    row: WatchRow,
}

impl Model for Watched {
    ghost use Rattle.sim_watch.specs.Watched.{WatchedOf, IsWithin};

    ghost Value = { WatchedOf };

    ghost view = { λ a. record { measure = a.measure; since = a.since; row = a.row } };

    ghost inverse = { λ w. record { measure = w.measure; since = w.since; row = w.row } };

    ghost invariant = { λ a. IsWithin a.measure a.since a.row };
}

impl Watched {
    /// This is measured at time 0, before the first unit.
    pub(crate) fn new(measure: Measure) -> Watched
        requires held_low { pos 0 ≤ℤ measure.held }
        requires held_high { measure.held ≤ℤ most_level }
        ensures watched { (time : ℕ → ℤ) (m : ℕ → Measure) → time 0 ≡ pos 0 → m 0 ≡ measure →
            IsWatched time m 0 result }
        ensures since { result.since ≡ pos 0 }
    {
        let row = WatchRow {
            psum: 0,
            pmost: measure.puts,
            gsum: 0,
            gmost: measure.gets,
            hsum: 0,
            hleast: measure.held,
            hmost: measure.held,
        };
        Watched {
            measure,
            since: 0,
            row,
        }
    }

    /// What was measured last was so until now, and from now on this is measured.
    pub(crate) fn change(&mut self, now: i64, measure: Measure)
        requires later { self.old.since ≤ℤ now }
        requires within { now ≤ℤ last_time }
        requires held_low { pos 0 ≤ℤ measure.held }
        requires held_high { measure.held ≤ℤ most_level }
        // After n units more, of which only the last changes something.
        ensures watched { (time : ℕ → ℤ) (m : ℕ → Measure) (k n : ℕ) →
            IsWatched time m k self.old → IsSteady time m k n → 1 ≤ n →
            time (k + n) ≡ now → m (k + n) ≡ measure → IsWatched time m (k + n) self.new }
        // After the same units, where it tells what is measured then.
        ensures again { (time : ℕ → ℤ) (m : ℕ → Measure) (k : ℕ) →
            IsWatched time m k self.old → time k ≡ now → m k ≡ measure →
            IsWatched time m k self.new }
        ensures since { self.new.since ≡ now }
    {
        self.pass(now);
        self.set(measure);
    }

    /// What is told of it, up to now.
    pub(crate) fn close(self, now: i64) -> WatchRow
        requires later { self.since ≤ℤ now }
        requires within { now ≤ℤ last_time }
        ensures at { result ≡ row_at now self }
        ensures row { (time : ℕ → ℤ) (m : ℕ → Measure) (k : ℕ) →
            IsWatched time m k self → time k ≡ now → result ≡ row_of time m k }
    {
        let mut watched = self;
        watched.pass(now);
        watched.row
    }

    /// The sums are brought up to now.
    fn pass(&mut self, now: i64)
        requires later { self.old.since ≤ℤ now }
        requires within { now ≤ℤ last_time }
        ensures { self.new ≡ record self.old { since = now; row = row_at now self.old } }
    {
        let measure = self.measure;
        let since = self.since;
        self.row.psum = sum_after(self.row.psum, i128::from(measure.puts), since, now);
        self.row.gsum = sum_after(self.row.gsum, i128::from(measure.gets), since, now);
        self.row.hsum = sum_after(self.row.hsum, i128::from(measure.held), since, now);
        self.since = now;
    }

    /// From now on this is measured.
    fn set(&mut self, measure: Measure)
        requires held_low { pos 0 ≤ℤ measure.held }
        requires held_high { measure.held ≤ℤ most_level }
        ensures { self.new ≡ record self.old {
          measure = measure;
          row = record self.old.row {
            pmost = max self.old.row.pmost measure.puts;
            gmost = max self.old.row.gmost measure.gets;
            hleast = int_min self.old.row.hleast measure.held;
            hmost = int_max self.old.row.hmost measure.held;
          };
        } }
    {
        self.row.pmost = self.row.pmost.max(measure.puts);
        self.row.gmost = self.row.gmost.max(measure.gets);
        self.row.hleast = self.row.hleast.min(measure.held);
        self.row.hmost = self.row.hmost.max(measure.held);
        self.measure = measure;
    }
}

/// The sum over time by now of a number that was this since then.
fn sum_after(sum: i128, number: i128, since: i64, now: i64) -> i128
    requires from_0 { pos 0 ≤ℤ since }
    requires later { since ≤ℤ now }
    requires to_last { now ≤ℤ last_time }
    requires low { pos 0 ≤ℤ number }
    requires high { number ≤ℤ pos (2 ^ 64) }
    requires within { IsSumWithin since sum }
    ensures sum { result ≡ sum +ℤ (number *ℤ (now -ℤ since)) }
    ensures within { IsSumWithin now result }
{
    sum + number * i128::from(now - since)
}
