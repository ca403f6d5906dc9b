//! Lines of events.
ghost use Rattle.std.specs.Prelude.{◌≡◌};
ghost use Rattle.sim_trace_reader.specs.Readings.{event_in, kind_of, outcome_in};

use crate::cutting::cut;
use crate::number::{byte, number, signed};
use sim_types::{EventId, EventKind, Line, Outcome, Throw};

/// What the line of an event says, read from behind its `@`.
pub(crate) fn event_in(bytes: &[u8]) -> Option<Line>
    ensures { result ≡ event_in bytes.now }
{
    let (time, rest) = cut(bytes);
    let (priority, rest) = cut(rest);
    let (scheduled, rest) = cut(rest);
    let (kind, rest) = cut(rest);
    let (event, outcome) = cut(rest);
    Some(Line::Event {
        time: signed(time)?,
        priority: byte(priority)?,
        number: number(scheduled)?,
        kind: kind_of(kind)?,
        event: EventId(number(event)?),
        outcome: outcome_in(outcome)?,
    })
}

/// The outcome that the words tell.
fn outcome_in(bytes: &[u8]) -> Option<Outcome>
    ensures { result ≡ outcome_in bytes.now }
{
    let (word, rest) = cut(bytes);
    match word {
        b"ok" => Some(Outcome::Ok(signed(rest)?)),
        b"fail" => {
            let (kind, value) = cut(rest);
            Some(Outcome::Fail(Throw {
                kind: byte(kind)?,
                value: signed(value)?,
            }))
        }
        _ => None,
    }
}

/// The kind that is called so.
fn kind_of(word: &[u8]) -> Option<EventKind>
    ensures { result ≡ kind_of word.now }
{
    match word {
        b"init" => Some(EventKind::Init),
        b"timeout" => Some(EventKind::Timeout),
        b"event" => Some(EventKind::Plain),
        b"process" => Some(EventKind::Process),
        b"interrupt" => Some(EventKind::Interrupt),
        b"cond" => Some(EventKind::Cond),
        b"request" => Some(EventKind::Request),
        b"release" => Some(EventKind::Release),
        b"put" => Some(EventKind::Put),
        b"get" => Some(EventKind::Get),
        b"stop" => Some(EventKind::Stop),
        _ => None,
    }
}
