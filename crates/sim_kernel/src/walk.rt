//! A run by units, over any body: a kernel, and the journal of what arrives.
ghost use Rattle.std.specs.Prelude.{◌≡◌, ◌+◌, ◌≤◌, IfNone, IfOk, IfSome, OnErr};
ghost use Rattle.sim_types.specs.Setups.{HavePorts};
ghost use Rattle.sim_machine.specs.Effect.{calendar};
ghost use Rattle.sim_machine.specs.Runs.{end_word};
ghost use Rattle.sim_machine.specs.Setups.{FitsCode};
ghost use Rattle.sim_machine.specs.Units.{Course};
ghost use Rattle.sim_steps_model.specs.PartsOf.{IsOpenedAs, plan_of};
ghost use Rattle.sim_machine.specs.Runs.{empty_end};
ghost use Rattle.sim_kernel.specs.Walking.{end_in, next_in};
ghost use Rattle.sim_kernel.specs.Walks.{BeginsOn, IsOver, StandsAt, WaitsAsBefore, Walks};

use crate::kernel::Kernel;
use sim_procs::Body;
use sim_steps::{Rest, Touched, Unit, Units};
use sim_types::{Arrival, End, Setup, Until};
use std::alloc::{AllocError, Global};
use std::marker::Model;

/// A run by units: from the opening state on, each unit is made in its order, and the entries of a journal come in when they
/// are due. It must be spent, by `finish` or `abandon`.
pub struct Walk<'j, B: Body> {
    kernel: Kernel<B>,
    until: Until,
    /// What is left of the journal.
    left: &'j [Arrival],
    /// How many units it may make.
    limit: u32,
}

impl<'j, B: Body> Model for Walk<'j, B> {
    ghost use Rattle.sim_kernel.specs.Walks.{WalkOf};
    ghost use Rattle.sim_kernel.specs.Walking.{IsSoundWalk};

    ghost Value = { WalkOf B B.Code };

    ghost view = { λ a. record {
      kernel = a.kernel;
      left = a.left.now;
      limit = a.limit;
    } };

    ghost invariant = { λ a. IsSoundWalk a.kernel a.until a.left.now a.limit };
}

/// What comes next in a run.
#[derive(Clone, Copy)]
enum Next {
    /// Units in which nothing arrives.
    Step,
    /// This arrival.
    Arrival(Arrival),
    /// Nothing: the run has ended, or all units are made.
    End,
}

impl<'j, B: Body> Walk<'j, B> {
    /// Opens a run of at most so many units, with the random words of this seed.
    pub fn new(
        alloc: Global,
        code: &B::Code,
        setup: &Setup,
        seed: u64,
        journal: &'j [Arrival],
        limit: u32,
    ) -> Result<Walk<'j, B>, AllocError>
        requires fits { FitsCode (B.body.facts code.now) setup.now }
        requires ports { HavePorts setup.now journal.now }
        ensures code { IfOk result (λ w. w.kernel.parts.code ≡ code.now) }
        ensures setup { IfOk result (λ w. w.kernel.parts.setup ≡ setup.now) }
        ensures seed { IfOk result (λ w. w.kernel.parts.seed ≡ seed) }
        ensures units { IfOk result (λ w. w.kernel.units ≡ 0) }
        ensures limit { IfOk result (λ w. w.limit ≡ limit) }
        ensures begins { IfOk result (BeginsOn B.body journal.now) }
    {
        let kernel = Kernel::<B>::new(alloc, code, setup, seed)?;
        Ok(Walk {
            kernel,
            until: setup.until,
            left: journal,
            limit,
        })
    }

    /// Makes units in a row, at least one: the next entry of the journal comes in where it is due, or else units are made as
    /// by `Kernel::units`. None where the run has ended or all its units are made. All memory is taken first.
    #[inline(always)]
    pub fn units(&mut self, code: &B::Code) -> Result<Option<Units>, AllocError>
        requires code { code.now ≡ self.old.kernel.parts.code }
        ensures none { IfOk result (λ x. IfNone x (IsOver B.body self.old)) }
        ensures same { IfOk result (λ x. IfNone x (self.new ≡ self.old)) }
        // From each course that it stood at, and there is one.
        ensures walks { IfOk result (λ x. IfSome x (λ units.
            Walks B.body units self.old self.new)) }

        ensures units { IfOk result (λ x. IfSome x (λ units.
            self.new.kernel.units ≡ self.old.kernel.units + units.made)) }
        ensures within { self.new.kernel.units ≤ self.new.limit }
        ensures opened { IsOpenedAs self.old.kernel.parts self.new.kernel.parts }
        ensures limit { self.new.limit ≡ self.old.limit }
        ensures err { OnErr result (WaitsAsBefore self.old self.new) }
    {
        match self.next() {
            Next::End => Ok(None),
            Next::Step => {
                let left = self.limit - self.kernel.made() as u32;
                let units = self.kernel.units(code, left)?;
                Ok(Some(units))
            }
            Next::Arrival(arrival) => {
                let line = self.kernel.arrive(code, arrival.port, arrival.value)?;
                self.left = &self.left[1..];
                Ok(Some(Units {
                    made: 1,
                    last: Unit::Line(line),
                    touched: Touched::Nothing,
                }))
            }
        }
    }

    /// What comes next.
    #[inline(always)]
    fn next(&self) -> Next
        ensures { result ≡ next_in self.now }
    {
        if self.kernel.made() >= u64::from(self.limit) {
            return Next::End;
        }
        match (self.kernel.rest(), self.left.first()) {
            (Rest::Busy, _) | (Rest::Idle, None) => Next::Step,
            (Rest::Idle, Some(arrival)) => {
                if arrival.after <= self.kernel.processed() {
                    Next::Arrival(*arrival)
                } else {
                    Next::Step
                }
            }
            (Rest::Empty, Some(arrival)) => Next::Arrival(*arrival),
            (Rest::Empty, None) | (Rest::Over(_), _) => Next::End,
        }
    }

    /// The kernel.
    pub fn kernel(&self) -> &Kernel<B>
        ensures { result.now ≡ self.now.kernel }
    {
        &self.kernel
    }

    /// Spends it, and tells how it ends, its time, and how many events were processed. Where the run has not ended its limit
    /// ends it.
    pub fn finish(self) -> (End, i64, u64)
        ensures end { (m : Course B) → StandsAt B.body self.entry m →
            result.0 ≡ end_word (plan_of B.body self.entry.kernel.parts) m }
        ensures time { (m : Course B) → StandsAt B.body self.entry m →
            result.1 ≡ (calendar m.state).time }
        ensures processed { (m : Course B) → StandsAt B.body self.entry m →
            result.2 ≡ m.state.processed }
    {
        let end = self.end();
        let Walk {
            kernel,
            until: _,
            left: _,
            limit: _,
        } = self;
        let (time, processed) = kernel.finish();
        (end, time, processed)
    }

    /// Spends it.
    pub fn abandon(self) {
        let Walk {
            kernel,
            until: _,
            left: _,
            limit: _,
        } = self;
        let _told = kernel.finish();
    }

    /// How it ends where no more units are made.
    fn end(&self) -> End
        ensures { result ≡ end_in self.now }
    {
        match self.kernel.rest() {
            Rest::Empty if self.left.is_empty() => empty_end(self.until),
            Rest::Busy | Rest::Idle | Rest::Empty => End::Limit,
            Rest::Over(why) => why,
        }
    }
}

/// How a run ends for want of events: one that was to end by an event has starved.
pub fn empty_end(until: Until) -> End
    ensures { result ≡ empty_end until }
{
    match until {
        Until::Event(_) => End::Starved,
        Until::Never | Until::At(_) => End::Empty,
    }
}
