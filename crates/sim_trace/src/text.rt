//! The lines of a trace.
ghost use Rattle.std.specs.Prelude.{◌≡◌, ℕ, ◌+◌, ◌≤◌, List, [], ◌∷◌, ◌++◌, All, length, codes, decimal};
ghost use Rattle.std.specs.Fmt.{signed_decimal};
ghost use Rattle.std.specs.List.{join_with_byte};
ghost use Rattle.sim_trace.specs.Texts.{AreNamesShort, kind_word, end_word, outcome_words, port_word, line_text};

use crate::buffer::LineBuf;
use crate::words::{
    append_kind, append_number, append_signed, append_signed_digits, append_word, end_word,
    port_word,
};
use sim_types::{End, EventId, EventKind, Line, Name, Outcome, ProcId};

/// Puts a line of a trace into the buffer, with a line feed at its end, in place of what stood there. The ports are
/// called by these names; one that is not among them has no name.
pub fn render(line: &Line, ports: &[Name], out: &mut LineBuf)
    requires names { AreNamesShort ports.now }
    ensures { out.new ≡ line_text ports.now line.now }
{
    match line {
        Line::Event {
            time,
            priority,
            number,
            kind,
            event,
            outcome,
        } => append_event(*time, *priority, *number, *kind, *event, *outcome, out),
        Line::Log {
            time,
            process,
            value,
        } => append_log(*time, *process, *value, out),
        Line::Arrive { after, port, value } => append_arrival(*after, *port, *value, ports, out),
        Line::Finish {
            end,
            time,
            processed,
        } => append_finish(*end, *time, *processed, out),
    }
}

#[tactic(auto, using(crate::proofs::LineTexts::join_outcome))]
fn append_event(
    time: i64,
    priority: u8,
    number: u64,
    kind: EventKind,
    event: EventId,
    outcome: Outcome,
    out: &mut LineBuf,
)
    ensures { out.new ≡ line_text [] (Line.Event time number event outcome priority kind) }
{
    begin_key(time, priority, number, out);
    append_kind(kind, out);
    out.append_event(event);
    append_outcome(outcome, out);
    out.push(b'\n');
}

/// Begins a line with what an event is ordered by.
fn begin_key(time: i64, priority: u8, number: u64, out: &mut LineBuf)
    ensures items { out.new
        ≡ 64 ∷ signed_decimal time ++ 32 ∷ decimal priority ++ 32 ∷ decimal number }
    ensures len { length out.new ≤ 64 }
{
    out.begin_event(time, priority);
    out.append_number_of_event(number);
}

/// Appends a space and the words of the outcome.
fn append_outcome(outcome: Outcome, out: &mut LineBuf)
    requires { length out.old + 48 ≤ 256 }
    ensures items { out.new ≡ out.old ++ 32 ∷ join_with_byte 32 (outcome_words outcome) }
    ensures len { length out.new ≤ length out.old + 48 }
{
    match outcome {
        Outcome::Ok(value) => {
            out.append(b" ok ");
            append_signed_digits(value, out);
        }
        Outcome::Fail(thrown) => {
            out.append(b" fail");
            append_number(thrown.kind as u64, out);
            append_signed(thrown.value, out);
        }
    }
}

fn append_log(time: i64, process: ProcId, value: i64, out: &mut LineBuf)
    ensures { out.new ≡ line_text [] (Line.Log time process value) }
{
    out.begin(b"log");
    append_signed(time, out);
    append_number(process.0, out);
    append_signed(value, out);
    out.push(b'\n');
}

fn append_arrival(after: u64, port: u32, value: i64, ports: &[Name], out: &mut LineBuf)
    requires { AreNamesShort ports.now }
    ensures { out.new ≡ line_text ports.now (Line.Arrive after value port) }
{
    out.begin(b"arrive");
    append_number(after, out);
    append_word(port_word(ports, port), out);
    append_signed(value, out);
    out.push(b'\n');
}

fn append_finish(end: End, time: i64, processed: u64, out: &mut LineBuf)
    ensures { out.new ≡ line_text [] (Line.Finish time processed end) }
{
    out.begin(b"end");
    append_word(end_word(end), out);
    append_signed(time, out);
    append_number(processed, out);
    out.push(b'\n');
}
