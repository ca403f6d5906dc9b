//! The lines of a journal.
ghost use Rattle.std.specs.Prelude.{◌≡◌, ℕ, ◌≤◌, List, All, length};
ghost use Rattle.sim_trace.specs.Texts.{AreNamesShort, arrival_text};

use crate::buffer::LineBuf;
use crate::words::{append_number, append_signed, append_word, port_word};
use sim_types::{Arrival, Name};

/// Puts an entry of a journal into the buffer, as `render` does a line of a trace.
pub fn render_arrival(a: &Arrival, ports: &[Name], out: &mut LineBuf)
    requires names { AreNamesShort ports.now }
    ensures { out.new ≡ arrival_text ports.now a.now }
{
    out.begin(b"after");
    append_number(a.after, out);
    append_number(u64::from(a.poster), out);
    append_number(u64::from(a.serial), out);
    append_word(port_word(ports, a.port), out);
    append_signed(a.value, out);
    out.push(b'\n');
}
