//! A run of a scenario that is made step by step.
ghost use Rattle.std.specs.Prelude.{◌≡◌, ◌<◌, ◌≤◌, ◌↔◌, IsSome, IfOk, IfSome, IsOk, OnOk, length};
ghost use Rattle.sim_types.specs.declared.setup.Arrival.{Arrival};
ghost use Rattle.sim_engine.specs.Counting.{IsWithin};
ghost use Rattle.sim_engine.specs.Sessions.{GoesOn};
ghost use Rattle.sim_host.specs.Hosting.{IsHosted, IsOver, IsStep, IsTurn, IsArrival, next_in, summary_in};

use sim_engine::{Next, Report, Session, next_of};
use sim_outside::NullSink;
use sim_scenario::Scenario;
use sim_types::{End, Summary};
use std::alloc::{AllocError, Global};
use std::marker::Model;

/// A run of a scenario on the scenario's journal, which is made step by step. It must be spent by `close`.
pub struct Hosted {
    session: Session,
    /// How many entries of the journal have arrived.
    arrived: usize,
}

impl Model for Hosted {
    ghost use Rattle.sim_host.specs.Hosting.{HostedOf};

    ghost Value = { HostedOf };

    ghost view = { λ a. record { session = a.session; arrived = a.arrived } };
}

impl Hosted {
    /// Opens a run of the scenario with the random words of this seed, in which at most so many units are made.
    pub fn new(
        alloc: Global,
        scenario: &Scenario,
        seed: u64,
        limit: u32,
    ) -> Result<Hosted, AllocError>
        ensures hosted { IfOk result (IsHosted scenario.now) }
        ensures seed { IfOk result (λ x. x.session.parts.seed ≡ seed) }
        ensures limit { IfOk result (λ x. x.session.limit ≡ limit) }
        ensures units { IfOk result (λ x. x.session.units ≡ 0) }
        ensures arrived { IfOk result (λ x. x.arrived ≡ 0) }
    {
        let session = Session::new(alloc, scenario, seed, limit)?;
        Ok(Hosted {
            session,
            arrived: 0,
        })
    }

    /// Tells what the run comes to, where it is over: it has ended, or all its units are made.
    pub fn summary(&self, scenario: &Scenario) -> Option<Summary>
        requires hosted { IsHosted scenario.now self.now }
        ensures over { IsSome result ↔ IsOver scenario.now self.now }
        ensures summary { IfSome result (λ s. s ≡ summary_in scenario.now self.now) }
        ensures counts { IfSome result (IsWithin self.now.session.limit) }
    {
        let next = self.next(scenario);
        let Report { summary, units } = self.session.report();
        match next {
            Next::End => Some(summary),
            Next::Turn => None,
            Next::Arrival(_) if units < self.session.limit() => None,
            // an entry is left for which there is no unit
            Next::Arrival(_) => Some(Summary {
                end: End::Limit,
                ..summary
            }),
        }
    }

    /// Lets the next entry of the journal arrive if it is due, and else makes a turn. Tells what the run comes to if it is
    /// over by then. Where it was over before, nothing is done. After an error it may only be closed.
    pub fn step(&mut self, scenario: &Scenario) -> Result<Option<Summary>, AllocError>
        requires hosted { IsHosted scenario.now self.old }
        ensures step { OnOk result (IsStep scenario.now self.old self.new) }
        ensures over { IfOk result (λ told. IsSome told ↔ IsOver scenario.now self.new) }
        ensures summary { IfOk result (λ told.
            IfSome told (λ s. s ≡ summary_in scenario.now self.old)) }
        ensures counts { IfOk result (λ told. IfSome told (IsWithin self.old.session.limit)) }
        ensures again { IsOver scenario.now self.old →
            result ≡ Ok (Some (summary_in scenario.now self.old)) }
        ensures goes_on { GoesOn self.old.session self.new.session }
    {
        self.advance(scenario)?;
        Ok(self.summary(scenario))
    }

    /// Spends it.
    pub fn close(self) {
        let Hosted {
            session,
            arrived: _,
        } = self;
        session.close();
    }

    /// What comes next in it.
    fn next(&self, scenario: &Scenario) -> Next
        requires arrived { self.now.arrived ≤ length scenario.now.journal }
        ensures { result ≡ next_in scenario.now self.now }
    {
        next_of(&self.session, &scenario.journal()[self.arrived..])
    }

    /// Makes the next arrival or turn, if there is one for which a unit is left.
    fn advance(&mut self, scenario: &Scenario) -> Result<(), AllocError>
        requires hosted { IsHosted scenario.now self.old }
        ensures step { OnOk result (IsStep scenario.now self.old self.new) }
        ensures again { IsOver scenario.now self.old → IsOk result }
        ensures goes_on { GoesOn self.old.session self.new.session }
    {
        match self.next(scenario) {
            Next::Turn => self.turn(scenario),
            Next::Arrival(_) => self.arrive(scenario),
            Next::End => Ok(()),
        }
    }

    /// Makes a turn.
    fn turn(&mut self, scenario: &Scenario) -> Result<(), AllocError>
        requires hosted { IsHosted scenario.now self.old }
        requires next { next_in scenario.now self.old ≡ Next.Turn }
        ensures hosted { OnOk result (IsHosted scenario.now self.new) }
        ensures turn { OnOk result (IsTurn scenario.now self.old self.new) }
        ensures goes_on { GoesOn self.old.session self.new.session }
    {
        match self.session.turn(scenario, &mut NullSink::new()) {
            Ok(_) => Ok(()),
            Err(_) => Err(AllocError),
        }
    }

    /// Lets the next entry of the journal arrive, if a unit is left for it.
    fn arrive(&mut self, scenario: &Scenario) -> Result<(), AllocError>
        requires hosted { IsHosted scenario.now self.old }
        requires next { (a : Arrival) × (next_in scenario.now self.old ≡ Next.Arrival a) }
        ensures hosted { OnOk result (IsHosted scenario.now self.new) }
        ensures arrival { OnOk result (self.old.session.units < self.old.session.limit →
            IsArrival self.old self.new) }
        ensures spent { self.old.session.units ≡ self.old.session.limit →
            (self.new ≡ self.old) × IsOk result }
        ensures goes_on { GoesOn self.old.session self.new.session }
    {
        if self.session.units() == self.session.limit() {
            return Ok(());
        }
        let next = scenario.journal()[self.arrived];
        match self
            .session
            .arrive(scenario, next.port, next.value, &mut NullSink::new())
        {
            Ok(_) => {
                self.arrived += 1;
                Ok(())
            }
            Err(_) => Err(AllocError),
        }
    }
}
