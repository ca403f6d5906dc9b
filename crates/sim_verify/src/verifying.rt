//! Checks a trace by the run that should have made it.
ghost use Rattle.std.specs.Prelude.{◌≡◌, ◌↔◌, IfOk};
ghost use Rattle.sim_types.specs.Setups.{HavePorts};
ghost use Rattle.sim_engine.specs.RunOfScenario.{printed_run};
ghost use Rattle.sim_verify.specs.declared.verdict.Verdict.TheVariants.{Yes};
ghost use Rattle.sim_verify.specs.TraceLines.{fed_lines};
ghost use Rattle.sim_verify.specs.Verdicts.{verdict};

use crate::checker::{Checker, Text};
use crate::verdict::Verdict;
use sim_engine::{EngineFault, run};
use sim_scenario::Scenario;
use sim_types::Arrival;
use std::alloc::{AllocError, Global};
use std::marker::Brand;

/// Says whether the text is the trace of the scenario's run, and else which line is the first that differs. The run has the
/// random words of the seed, makes at most `limit` units, and takes in the entries of the journal. It stops at the first byte
/// that differs, and no trace is kept.
pub fn verify(
    alloc: Global,
    scenario: &Scenario,
    seed: u64,
    journal: &[Arrival],
    limit: u32,
    text: &[u8],
) -> Result<Verdict, AllocError>
    requires ports { HavePorts scenario.now.setup journal.now }
    ensures said { IfOk result (λ said. said
        ≡ verdict scenario.now seed journal.now limit (fed_lines text.now)) }
    ensures yes { IfOk result (λ said. (said ≡ Yes)
        ↔ (text.now ≡ printed_run scenario.now seed journal.now limit)) }
{
    verify_text::<Brand>(alloc, scenario, seed, journal, limit, text)
}

/// Says the same, where the bytes of the text are named for contracts.
fn verify_text<T: Text>(
    alloc: Global,
    scenario: &Scenario,
    seed: u64,
    journal: &[Arrival],
    limit: u32,
    text: &[u8],
) -> Result<Verdict, AllocError>
    requires ports { HavePorts scenario.now.setup journal.now }
    requires text { text.now ≡ T.bytes }
    ensures { IfOk result (λ said. said
        ≡ verdict scenario.now seed journal.now limit (fed_lines text.now)) }
{
    let mut checker = Checker::<T>::new(text);
    match run(alloc, scenario, seed, journal, limit, &mut checker) {
        Ok(_) => Ok(checker.verdict(scenario.port_names())),
        // The checker took a byte that differs, and no more.
        Err(EngineFault::Write) => Ok(checker.verdict(scenario.port_names())),
        Err(EngineFault::Memory) => Err(AllocError),
    }
}
