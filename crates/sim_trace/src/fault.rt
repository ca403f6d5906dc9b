//! The line that tells why a text is refused.
ghost use Rattle.std.specs.Prelude.{◌≡◌, ◌≤◌, length};
ghost use Rattle.sim_trace.specs.Texts.{fault_word, fault_text};

use crate::buffer::LineBuf;
use crate::words::{append_number, append_word};
use sim_types::{Fault, FaultKind};

/// Puts the line of a fault into the buffer, as `render` does a line of a trace.
pub fn render_fault(fault: &Fault, out: &mut LineBuf)
    ensures { out.new ≡ fault_text fault.now }
{
    out.begin(b"fault");
    append_number(u64::from(fault.line), out);
    append_word(fault_word(fault.kind), out);
    out.push(b'\n');
}

/// What the kind of a fault is called.
fn fault_word(kind: FaultKind) -> &'static [u8]
    ensures word { result.now ≡ fault_word kind }
    ensures short { length result.now ≤ 11 }
{
    match kind {
        FaultKind::TooLong => b"TooLong",
        FaultKind::NotText => b"NotText",
        FaultKind::LineTooLong => b"LineTooLong",
        FaultKind::BadHeader => b"BadHeader",
        FaultKind::UnknownWord => b"UnknownWord",
        FaultKind::BadShape => b"BadShape",
        FaultKind::BadNumber => b"BadNumber",
        FaultKind::BadName => b"BadName",
        FaultKind::Duplicate => b"Duplicate",
        FaultKind::UnknownName => b"UnknownName",
        FaultKind::WrongKind => b"WrongKind",
        FaultKind::Misplaced => b"Misplaced",
        FaultKind::Unclosed => b"Unclosed",
        FaultKind::TooMany => b"TooMany",
        FaultKind::ClassClash => b"ClassClash",
        FaultKind::Unset => b"Unset",
        FaultKind::BadOrder => b"BadOrder",
    }
}
