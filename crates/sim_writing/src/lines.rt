//! One line.
ghost use Rattle.std.specs.Prelude.{◌≡◌, true, IsTrue};
ghost use Rattle.sim_outside.specs.Writes.{IsUnflushed, Writes};
ghost use Rattle.sim_trace.specs.Texts.{AreNamesShort, line_text};

use sim_outside::{Failed, Sink, write_all};
use sim_trace::{LineBuf, render};
use sim_types::{Line, Name};

/// Writes a line by way of the buffer, unless it makes no difference to the sink what is written.
pub fn write_line<K: Sink>(
    line: &Line,
    ports: &[Name],
    buffer: &mut LineBuf,
    out: &mut K,
) -> Result<(), Failed>
    requires names { AreNamesShort ports.now }
    ensures writes { Writes (λ _. true) (K.tells out.old) (K.tells out.new) result
        (line_text ports.now line.now) }
    ensures unflushed { IsUnflushed (K.tells out.old) (K.tells out.new) }
{
    if out.ignores_bytes() {
        return Ok(());
    }
    render(line, ports, buffer);
    write_all(out, buffer.bytes())
}
