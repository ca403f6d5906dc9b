//! Reads a text that has a trace after its scenario.
ghost use Rattle.std.specs.Prelude.{◌≡◌, IfOk, Some};
ghost use Rattle.sim_verify.specs.Givens.{GivesScenario};
ghost use Rattle.sim_verify.specs.TraceLines.{fed_lines, reads_with_trace, trace_lines};

use crate::parts::part;
use sim_code::{ReadError, read};
use sim_scenario::Scenario;
use sim_types::{Fault, FaultKind, MOST_BYTES};
use std::alloc::Global;

/// A scenario, and the trace that is given for it.
#[derive(Drop)]
pub struct Given<'t> {
    pub scenario: Scenario,
    pub trace: &'t [u8],
}

/// Reads the scenario before the first line that says just `trace`, and gives the bytes after that line.
pub fn read_with_trace(alloc: Global, text: &[u8]) -> Result<Given<'_>, ReadError>
    ensures gives { GivesScenario result (reads_with_trace text.now) }
    ensures trace { IfOk result (λ given.
        trace_lines (fed_lines text.now) ≡ Some (fed_lines given.trace.now)) }
{
    if text.len() > MOST_BYTES as usize {
        return Err(refused(0, FaultKind::TooLong));
    }
    match part(text) {
        Ok(parts) => {
            let scenario = read(alloc, parts.scenario)?;
            Ok(Given {
                scenario,
                trace: parts.trace,
            })
        }
        Err(count) => {
            let _scenario = read(alloc, text)?;
            Err(refused(count as u32 + 1, FaultKind::Unclosed))
        }
    }
}

/// Refuses the text at this line for this reason.
fn refused(line: u32, kind: FaultKind) -> ReadError
    ensures { result ≡ ReadError.Fault (record { line = line; kind = kind }) }
{
    ReadError::Fault(Fault { line, kind })
}
