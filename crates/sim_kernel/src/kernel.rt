//! A kernel stands for a lawful state of the machine, and makes one unit of it at a time.
ghost use Rattle.std.specs.Prelude.{◌≡◌, ◌+◌, ◌<◌, ◌≤◌, ◌^◌, length, IfOk, OnOk, OnErr};
ghost use Rattle.sim_machine.specs.Setups.{FitsCode};
ghost use Rattle.sim_machine.specs.Measures.{measure_at};
ghost use Rattle.sim_machine.specs.Runs.{opening};
ghost use Rattle.sim_machine.specs.State.{State};
ghost use Rattle.sim_steps_model.specs.PartsOf.{IsOpenedAs, plan_of};
ghost use Rattle.sim_steps_model.specs.Resting.{CanArrive, CanStep, rest_in};
ghost use Rattle.sim_steps_model.specs.StandsFor.{IsLawfulOpening, StandsFor, StandsForOpening};
ghost use Rattle.sim_steps_model.specs.Touching.{touched_places};
ghost use Rattle.sim_kernel.specs.Accounting.{HasAccounts, kept_of};
ghost use Rattle.sim_kernel.specs.Arriving.{MakesArrival};
ghost use Rattle.sim_kernel.specs.KernelOf.{IsAsBefore};
ghost use Rattle.sim_kernel.specs.Stepping.{MakesSteps};

use crate::opening::open;
use sim_procs::Body;
use sim_steps::{Parts, Rest, Units};
use sim_types::{Line, Measure, Places, Setup};
use std::alloc::{AllocError, Global};
use std::marker::Model;

/// A machine whose processes are bodies of one type. It must be spent by `finish`.
pub struct Kernel<B: Body> {
    parts: Parts<B>,
    /// How many units it has made.
    units: u64,
    /// The places of the resources that the last drop of a process may have changed.
    listed: Places,
}

impl<B: Body> Model for Kernel<B> {
    ghost use Rattle.sim_kernel.specs.KernelOf.{KernelOf};
    ghost use Rattle.sim_kernel.specs.Holding.{Holds};

    ghost Value = { KernelOf B B.Code };

    ghost view = { λ a. record {
      parts = a.parts;
      units = a.units;
      listed = a.listed;
    } };

    ghost invariant = { λ a. Holds B.body a.units a.parts };
}

impl<B: Body> Kernel<B> {
    /// A kernel that stands for the opening state of the machine: the processes that run from the start are made, and
    /// what is to stop the run is set.
    pub fn new(
        alloc: Global,
        code: &B::Code,
        setup: &Setup,
        seed: u64,
    ) -> Result<Kernel<B>, AllocError>
        requires fits { FitsCode (B.body.facts code.now) setup.now }
        ensures code { IfOk result (λ k. k.parts.code ≡ code.now) }
        ensures setup { IfOk result (λ k. k.parts.setup ≡ setup.now) }
        ensures seed { IfOk result (λ k. k.parts.seed ≡ seed) }
        ensures units { IfOk result (λ k. k.units ≡ 0) }
        ensures stands { IfOk result (λ k. StandsForOpening B.body k.parts) }
        ensures lawful { IfOk result (λ k. IsLawfulOpening B.body k.parts) }
        ensures accounts { IfOk result
            (λ k. HasAccounts B.body k.parts (opening (plan_of B.body k.parts))) }
    {
        let mut parts = Parts::<B>::blank(alloc, code, setup, seed)?;
        match open(&mut parts, code, setup) {
            Ok(()) => {
                let _known = parts.slots();
                Ok(Kernel {
                    parts,
                    units: 0,
                    listed: Places::new(),
                })
            }
            Err(AllocError) => {
                parts.abandon();
                Err(AllocError)
            }
        }
    }

    /// Where the kernel stands.
    pub fn rest(&self) -> Rest
        ensures { result ≡ rest_in self.now.parts }
    {
        self.parts.rest_now()
    }

    /// Makes units in a row, at least one and at most so many: an event is popped, a callback is called, an event is settled,
    /// or a process is polled. It makes more than one where a process is polled and its body asks for nothing, as most
    /// statements of a script do: all but the last are such units. All memory is taken first.
    #[inline(always)]
    pub fn units(&mut self, code: &B::Code, most: u32) -> Result<Units, AllocError>
        requires some { 1 ≤ most }
        requires code { code.now ≡ self.old.parts.code }
        requires can { CanStep self.old.parts }
        requires units { self.old.units + most ≤ 2 ^ 32 }
        ensures most { IfOk result (λ units. units.made ≤ most) }
        // From each lawful state that it stood for, and by the invariant there is one.
        ensures steps { IfOk result (λ units. MakesSteps B.body units.made
            self.old.parts units.last (touched_places units.touched self.new.listed)
            self.new.parts) }

        ensures opened { OnOk result (IsOpenedAs self.old.parts self.new.parts) }
        ensures units { IfOk result (λ units. self.new.units ≡ self.old.units + units.made) }
        ensures err { OnErr result (IsAsBefore self.old self.new) }
    {
        self.parts.reserve_for_next(code)?;
        let units = self.parts.units(code, most, &mut self.listed);
        let _known = self.parts.slots();
        self.units += u64::from(units.made);
        Ok(units)
    }

    /// A value comes in by a port: a process of the port's kind is made, which begins with it. This is a unit too. All
    /// memory is taken first.
    pub fn arrive(&mut self, code: &B::Code, port: u32, value: i64) -> Result<Line, AllocError>
        requires code { code.now ≡ self.old.parts.code }
        requires idle { CanArrive self.old.parts }
        requires port { port < length self.old.parts.setup.ports }
        requires units { self.old.units < 2 ^ 32 }
        // From each lawful state that it stood for, and by the invariant there is one.
        ensures arrives { IfOk result
            (λ line. MakesArrival B.body port value self.old.parts line self.new.parts) }

        ensures opened { OnOk result (IsOpenedAs self.old.parts self.new.parts) }
        ensures units { OnOk result (self.new.units ≡ self.old.units + 1) }
        ensures err { OnErr result (IsAsBefore self.old self.new) }
    {
        let parts = &mut self.parts;
        parts.reserve(code)?;
        let line = parts.arrive(code, port, value);
        let _known = parts.slots();
        self.units += 1;
        Ok(line)
    }

    /// The places of the resources at which the last drop of a process may have changed what is measured.
    pub fn listed(&self) -> &[u32]
        ensures { result.now ≡ self.now.listed }
    {
        self.listed.as_slice()
    }

    /// How much waits at a resource and is held there, in the state that the kernel stands for.
    pub fn measure(&self, res: u32) -> Measure
        requires res { res < length self.now.parts.setup.resources }
        ensures measure { (s : State B) → StandsFor self.now.parts s →
            result ≡ measure_at self.now.parts.setup.resources res s.facilities }
    {
        self.parts.measure(res)
    }

    /// How many units were made.
    pub(crate) fn made(&self) -> u64
        ensures { result ≡ self.now.units }
    {
        self.units
    }

    /// How many events are kept, each of which has a slot in memory. They are just those that the machine keeps in the state
    /// that the kernel stands for, whose accounts are right by what `new`, `units` and `arrive` promise. (This project's own: in
    /// Python what nothing refers to is collected.)
    pub fn slots(&self) -> u64
        ensures slots { (s : State B) → StandsFor self.now.parts s →
            HasAccounts B.body self.now.parts s → result ≡ kept_of B.body self.now.parts s }
    {
        self.parts.slots()
    }

    /// How many events were processed.
    pub fn processed(&self) -> u64
        ensures { result ≡ self.now.parts.processed }
    {
        self.parts.processed()
    }

    /// The time of the machine.
    pub fn now(&self) -> i64
        ensures { result ≡ self.now.parts.shared.happen.time }
    {
        self.parts.now()
    }

    /// Spends the kernel and tells its time and how many events were processed.
    pub fn finish(self) -> (i64, u64)
        ensures time { result.0 ≡ self.parts.shared.happen.time }
        ensures processed { result.1 ≡ self.parts.processed }
    {
        let Kernel {
            parts,
            units: _,
            listed: _,
        } = self;
        let time = parts.now();
        let processed = parts.processed();
        parts.abandon();
        (time, processed)
    }
}
