ghost use Rattle.std.specs.Prelude.{◌≡◌, [], OnOk};
ghost use Rattle.sim_machine.specs.Runs.{blank_state, opening};
ghost use Rattle.sim_machine.specs.Setups.{FitsCode};
ghost use Rattle.sim_happen_model.specs.HappenOf.{held};
ghost use Rattle.sim_steps_model.specs.Becoming.{AreFew};
ghost use Rattle.sim_steps_model.specs.Opening.{KeepsButProcesses};
ghost use Rattle.sim_steps_model.specs.PartsOf.{IsOpenedAs, plan_of};
ghost use Rattle.sim_steps_model.specs.StandsFor.{Balances, StandsFor, StandsForOpening};
ghost use Rattle.sim_kernel.specs.Holding.{Holds};
ghost use Rattle.sim_kernel.specs.Opening.{HasStarted};

use sim_procs::Body;
use sim_steps::Parts;
use sim_types::Setup;
use std::alloc::AllocError;

// Makes all processes that run from the start.
fn start_all<B: Body>(parts: &mut Parts<B>, code: &B::Code, setup: &Setup) -> Result<(), AllocError>
    requires code { code.now ≡ parts.old.code }
    requires setup { setup.now ≡ parts.old.setup }
    requires fits { FitsCode (B.body.facts code.now) setup.now }
    requires blank { StandsFor parts.old (blank_state (plan_of B.body parts.old)) }
    requires balances { Balances B.body [] parts.old (blank_state (plan_of B.body parts.old)) }
    requires few { AreFew 1 (held parts.old.shared.happen) }
    ensures kept { KeepsButProcesses parts.old parts.new }
    ensures started { OnOk result
        (HasStarted B.body parts.old.setup.starts parts.old parts.new) }
{
    for start in setup.starts.as_slice() {
        parts.start(code, start)?;
    }
    Ok(())
}

/// Makes the processes that run from the start, and sets what is to stop the run.
pub(crate) fn open<B: Body>(
    parts: &mut Parts<B>,
    code: &B::Code,
    setup: &Setup,
) -> Result<(), AllocError>
    requires code { code.now ≡ parts.old.code }
    requires setup { setup.now ≡ parts.old.setup }
    requires fits { FitsCode (B.body.facts code.now) setup.now }
    requires blank { StandsFor parts.old (blank_state (plan_of B.body parts.old)) }
    requires balances { Balances B.body [] parts.old (blank_state (plan_of B.body parts.old)) }
    requires few { AreFew 1 (held parts.old.shared.happen) }
    ensures opened { IsOpenedAs parts.old parts.new }
    ensures stands { OnOk result (StandsForOpening B.body parts.new) }
    ensures balances { OnOk result
        (Balances B.body [] parts.new (opening (plan_of B.body parts.new))) }
    ensures holds { OnOk result (Holds B.body 0 parts.new) }
{
    start_all(parts, code, setup)?;
    let _known = parts.slots();
    parts.set_stop(setup)
}
