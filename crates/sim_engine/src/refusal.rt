//! The answer to a text that is no scenario.
ghost use Rattle.std.specs.Prelude.{true};
ghost use Rattle.sim_outside.specs.Writes.{IsUnflushed, Writes};
ghost use Rattle.sim_trace.specs.Texts.{fault_text};

use sim_outside::{Failed, Sink, write_all};
use sim_trace::{LineBuf, render_fault};
use sim_types::Fault;

/// Writes why a text is no scenario. It takes no memory.
pub fn refuse<K: Sink>(fault: &Fault, out: &mut K) -> Result<(), Failed>
    ensures writes { Writes (λ _. true) (K.tells out.old) (K.tells out.new) result
        (fault_text fault.now) }
    ensures unflushed { IsUnflushed (K.tells out.old) (K.tells out.new) }
{
    let mut line = LineBuf::new();
    render_fault(fault, &mut line);
    write_all(out, line.bytes())
}
