//! A live run under way.
ghost use Rattle.std.specs.Prelude.{◌≡◌, ◌⊎◌, ◌<◌, ◌≤◌, ◌++◌, ◌∷◌, [], length, IfOk, OnOk, IsTrue};
ghost use Rattle.sim_language.specs.WellFormed.{never_falls};
ghost use Rattle.sim_outside.specs.Writes.{IsUnflushed};
ghost use Rattle.sim_engine.specs.declared.session.Turn.TheVariants as turn;
ghost use Rattle.sim_engine.specs.Sessions.{report_of, takes_arrivals, turn_of};
ghost use Rattle.sim_live.specs.Journals.{arrival_of};
ghost use Rattle.sim_live.specs.LiveRuns.{IsLive, WritesOn};

use sim_engine::{EngineFault, Report, Session, Turn};
use sim_inbox::Taken;
use sim_outside::Sink;
use sim_scenario::Scenario;
use sim_types::{Arrival, List};
use std::alloc::{AllocError, Global};
use std::marker::Model;

/// A run under way, and the journal of what came by now. It must be spent by `close`.
pub(crate) struct LiveRun {
    session: Session,
    journal: List<Arrival>,
}

impl Model for LiveRun {
    ghost use Rattle.sim_live.specs.LiveRuns.{LiveOf};

    ghost Value = { LiveOf };

    ghost view = { λ a. record { session = a.session; journal = a.journal } };
}

impl LiveRun {
    /// Opens a run of the scenario with its own seed, in which at most so many units are made. Nothing came yet.
    pub(crate) fn new(alloc: Global, scenario: &Scenario, limit: u32) -> Result<LiveRun, AllocError>
        ensures live { IfOk result (IsLive scenario.now) }
        ensures limit { IfOk result (λ x. x.session.limit ≡ limit) }
        ensures units { IfOk result (λ x. x.session.units ≡ 0) }
        ensures journal { IfOk result (λ x. x.journal ≡ []) }
    {
        let session = Session::new(alloc, scenario, scenario.seed(), limit)?;
        let journal = List::new(alloc);
        Ok(LiveRun { session, journal })
    }

    /// Where it stands.
    pub(crate) fn state(&self) -> Turn
        ensures { result ≡ turn_of self.now.session }
    {
        self.session.state()
    }

    /// Whether something may come in.
    fn takes_arrivals(&self) -> bool
        ensures { result ≡ takes_arrivals (turn_of self.now.session) }
    {
        match self.session.state() {
            Turn::Idle | Turn::Empty => true,
            Turn::Over(_) => false,
        }
    }

    /// Makes the units of an event. After a fault it may only be closed.
    pub(crate) fn turn<K: Sink>(
        &mut self,
        scenario: &Scenario,
        out: &mut K,
    ) -> Result<(), EngineFault>
        requires live { IsLive scenario.now self.old }
        requires idle { turn_of self.old.session ≡ turn.Idle }
        ensures live { OnOk result (IsLive scenario.now self.new) }
        ensures more { OnOk result (self.old.session.units < self.new.session.units) }
        ensures journal { self.new.journal ≡ self.old.journal }
        ensures limit { self.new.session.limit ≡ self.old.session.limit }
        ensures within { self.new.session.units ≤ self.new.session.limit }
        ensures writes { WritesOn scenario.now self.old self.new
            (K.tells out.old) (K.tells out.new) result }
        ensures unflushed { IsUnflushed (K.tells out.old) (K.tells out.new) }
    {
        let _state = self.session.turn(scenario, out)?;
        Ok(())
    }

    /// Journals a post, and lets it come in unless the run is over. After a fault it may only be closed.
    pub(crate) fn arrive<K: Sink>(
        &mut self,
        scenario: &Scenario,
        taken: Taken,
        out: &mut K,
    ) -> Result<(), EngineFault>
        requires live { IsLive scenario.now self.old }
        requires port { taken.item.port < length scenario.now.setup.ports }
        ensures live { OnOk result (IsLive scenario.now self.new) }
        ensures journal { OnOk result (self.new.journal
            ≡ self.old.journal ++ arrival_of self.old.session.parts.processed taken ∷ []) }
        ensures at_most_one { (self.new.journal ≡ self.old.journal) ⊎ (self.new.journal
            ≡ self.old.journal ++ arrival_of self.old.session.parts.processed taken ∷ []) }
        ensures falls { IsTrue (never_falls self.new.journal) }
        ensures limit { self.new.session.limit ≡ self.old.session.limit }
        ensures within { self.new.session.units ≤ self.new.session.limit }
        ensures writes { WritesOn scenario.now self.old self.new
            (K.tells out.old) (K.tells out.new) result }
        ensures unflushed { IsUnflushed (K.tells out.old) (K.tells out.new) }
    {
        let entry = arrival(self.session.processed(), taken);
        self.journal.push(entry)?;
        if !self.takes_arrivals() {
            return Ok(());
        }
        self.session.arrive(scenario, entry.port, entry.value, out)?;
        Ok(())
    }

    /// Spends it, and tells what it came to, and what came.
    pub(crate) fn close(self) -> (Report, List<Arrival>)
        ensures report { result.0 ≡ report_of self.session }
        ensures journal { result.1 ≡ self.journal }
    {
        let LiveRun { session, journal } = self;
        (session.close(), journal)
    }
}

/// The entry of a post that comes in once so many events were processed.
fn arrival(processed: u64, taken: Taken) -> Arrival
    ensures { result ≡ arrival_of processed taken }
{
    Arrival {
        after: processed,
        poster: taken.poster,
        serial: taken.serial,
        port: taken.item.port,
        value: taken.item.value,
    }
}
