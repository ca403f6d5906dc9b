ghost use Rattle.std.specs.Prelude.{◌≡◌, ◌+◌, ◌<◌, ◌≤◌, ◌^◌, [], pos, length, IfOk, OnOk, OnErr, IsTrue};
ghost use Rattle.std.specs.List.{AllPass};
ghost use Rattle.sim_types.specs.Setups.{resource_fits};
ghost use Rattle.sim_machine.specs.Runs.{blank_state, start_process};
ghost use Rattle.sim_machine.specs.Setups.{FitsCode, start_fits};
ghost use Rattle.sim_happen_model.specs.HappenOf.{held};
ghost use Rattle.sim_steps_model.specs.Becoming.{AreFew, BecomesWith};
ghost use Rattle.sim_steps_model.specs.PartsOf.{KeepsButHappen, KeepsButRoom, plan_of};
ghost use Rattle.sim_steps_model.specs.StandsFor.{Balances, StandsFor};
ghost use Rattle.sim_steps_model.specs.Opening.{CanStop, IsOpening, SetsStop, KeepsButProcesses, most_begun};

use crate::making::{make_named, set_stop};
use crate::parts::Parts;
use rand_core::SeedableRng;
use rand_pcg::Pcg64;
use sim_procs::{Body, Procs};
use sim_shared::Shared;
use sim_steps_model::Mode;
use sim_types::{Setup, Start};
use std::alloc::{AllocError, Global};
use std::snapshot::Snapshot;

impl<B: Body> Parts<B> {
    /// What a kernel has before any process is made.
    pub fn blank(
        alloc: Global,
        code: &B::Code,
        setup: &Setup,
        seed: u64,
    ) -> Result<Parts<B>, AllocError>
        requires few { setup.now.events ≤ 1024 }
        requires resources { length setup.now.resources ≤ 1024 }
        requires fit { AllPass resource_fits setup.now.resources }
        ensures code { IfOk result (λ p. p.code ≡ code.now) }
        ensures setup { IfOk result (λ p. p.setup ≡ setup.now) }
        ensures seed { IfOk result (λ p. p.seed ≡ seed) }
        ensures stands { IfOk result (λ p. StandsFor p (blank_state (plan_of B.body p))) }
        ensures balances { IfOk result
            (λ p. Balances B.body [] p (blank_state (plan_of B.body p))) }
        ensures few { IfOk result (λ p. AreFew 1 (held p.shared.happen)) }
    {
        let mut shared = Shared::new(alloc, &setup.resources)?;
        make_named(shared.happen_mut(), setup.events)?;
        shared.reserve_starts(setup.starts.len())?;
        let generator = Pcg64::seed_from_u64(seed);
        let ports = Vec::from_slice(alloc, setup.ports.as_slice())?;
        let processes = Procs::new(alloc, B::scopes_needed(code))?;
        Ok(Parts {
            shared,
            processed: 0,
            generator,
            processes,
            ready: None,
            mode: Mode::Idle,
            ports,
            code: Snapshot::of(code),
            setup: Snapshot::of(setup),
            seed: Snapshot::of(&seed),
            alloc,
        })
    }

    /// Makes a process that runs from the start.
    pub fn start(&mut self, code: &B::Code, start: &Start) -> Result<(), AllocError>
        requires code { code.now ≡ self.old.code }
        requires setup { FitsCode (B.body.facts code.now) self.old.setup }
        requires fits { IsTrue (start_fits (B.body.facts code.now) start.now) }
        requires opening { IsOpening B.body self.old }
        requires number { length self.old.shared.happen.events + 2 ≤ 2 ^ 62 }
        requires few { AreFew (2 ^ 40) (held self.old.shared.happen) }
        ensures kept { KeepsButProcesses self.old self.new }
        ensures err { OnErr result (KeepsButRoom self.old self.new) }
        ensures starts { OnOk result (BecomesWith B.body most_begun
            (λ s. start_process (plan_of B.body self.old) s start.now) self.old self.new) }
        ensures opening { OnOk result (IsOpening B.body self.new) }
    {
        self.shared.happen_mut().reserve(2, 1)?;
        self.reserve_process(code)?;
        self.begin(code, start.kind, start.args.as_slice());
        Ok(())
    }

    /// Sets what is to stop the run. So far it is time 0.
    pub fn set_stop(&mut self, setup: &Setup) -> Result<(), AllocError>
        requires at_start { self.old.shared.happen.time ≡ pos 0 }
        requires number { length self.old.shared.happen.events < 2 ^ 62 }
        requires possible { CanStop setup.now.until self.old.shared.happen }
        ensures kept { KeepsButHappen self.old self.new }
        ensures sets { OnOk result
            (SetsStop setup.now.until self.old.shared.happen self.new.shared.happen) }
    {
        self.shared.happen_mut().reserve(1, 1)?;
        set_stop(self.shared.happen_mut(), setup.until);
        Ok(())
    }

    /// Spends the parts.
    pub fn abandon(self) {
        let Parts {
            shared: _,
            processed: _,
            generator: _,
            processes,
            ready: _,
            mode: _,
            ports: _,
            code: _,
            setup: _,
            seed: _,
            alloc: _,
        } = self;
        processes.abandon();
    }
}
