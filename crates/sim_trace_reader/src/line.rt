//! Lines of any kind.
ghost use Rattle.std.specs.Prelude.{◌≡◌, ◌↔◌, [], ◌∷◌, ◌++◌, IfSome, IsTrue, None, bytes_eq, is_some, position};
ghost use Rattle.sim_trace.specs.Texts.{AreNamesShort, line_text};
ghost use Rattle.sim_trace_reader.specs.LineTexts.{IsLineText, is_line};
ghost use Rattle.sim_trace_reader.specs.Readings.{arrival_in, end_of, finish_in, likely_line, log_in, named_in, port_of};

use crate::cutting::{cut, cut_last};
use crate::event::event_in;
use crate::number::{number, signed};
use sim_trace::{LineBuf, render};
use sim_types::{End, Line, Name, ProcId};

/// The line of a trace that is printed so, its line feed left out, where the ports have these names. Takes no memory.
pub fn parse_line(line: &[u8], ports: &[Name]) -> Option<Line>
    requires names { AreNamesShort ports.now }
    ensures prints { IfSome result (λ l. line_text ports.now l ≡ line.now ++ 10 ∷ []) }
    ensures none { result ≡ None → ¬ IsLineText ports.now (line.now ++ 10 ∷ []) }
    ensures decides { is_some result ≡ is_line ports.now (line.now ++ 10 ∷ []) }
{
    let likely = likely_line(line, ports)?;
    if prints_as(&likely, ports, line) {
        Some(likely)
    } else {
        None
    }
}

/// Whether the line is printed so, its line feed left out.
fn prints_as(line: &Line, ports: &[Name], text: &[u8]) -> bool
    requires { AreNamesShort ports.now }
    ensures { IsTrue result ↔ (line_text ports.now line.now ≡ text.now ++ 10 ∷ []) }
{
    let mut printed = LineBuf::new();
    render(line, ports, &mut printed);
    match printed.bytes() {
        [front @ .., b'\n'] => front == text,
        _ => false,
    }
}

/// A line that may be printed so: where any line is, this one is too.
fn likely_line(line: &[u8], ports: &[Name]) -> Option<Line>
    ensures { result ≡ likely_line ports.now line.now }
{
    match line {
        [b'@', rest @ ..] => event_in(rest),
        _ => named_in(line, ports),
    }
}

/// The same of a line that begins with a word.
fn named_in(line: &[u8], ports: &[Name]) -> Option<Line>
    ensures { result ≡ named_in ports.now line.now }
{
    let (word, rest) = cut(line);
    match word {
        b"log" => log_in(rest),
        b"arrive" => arrival_in(rest, ports),
        b"end" => finish_in(rest),
        _ => None,
    }
}

fn log_in(bytes: &[u8]) -> Option<Line>
    ensures { result ≡ log_in bytes.now }
{
    let (time, rest) = cut(bytes);
    let (process, value) = cut(rest);
    Some(Line::Log {
        time: signed(time)?,
        process: ProcId(number(process)?),
        value: signed(value)?,
    })
}

/// What the line of an arrival says. The name of its port may have spaces in it.
fn arrival_in(bytes: &[u8], ports: &[Name]) -> Option<Line>
    ensures { result ≡ arrival_in ports.now bytes.now }
{
    let (after, rest) = cut(bytes);
    let (port, value) = cut_last(rest);
    Some(Line::Arrive {
        after: number(after)?,
        port: port_of(port, ports)?,
        value: signed(value)?,
    })
}

/// The first port with this name, or the first number of no port.
fn port_of(name: &[u8], ports: &[Name]) -> Option<u32>
    ensures { result ≡ port_of ports.now name.now }
{
    u32::try_from(place_of(name, ports).unwrap_or(ports.len())).ok()
}

fn place_of(name: &[u8], ports: &[Name]) -> Option<usize>
    ensures { result ≡ position (λ port. bytes_eq port name.now) ports.now }
{
    ports.iter().position(|port| port.bytes() == name)
}

fn finish_in(bytes: &[u8]) -> Option<Line>
    ensures { result ≡ finish_in bytes.now }
{
    let (end, rest) = cut(bytes);
    let (time, processed) = cut(rest);
    Some(Line::Finish {
        end: end_of(end)?,
        time: signed(time)?,
        processed: number(processed)?,
    })
}

/// The end that is called so.
fn end_of(word: &[u8]) -> Option<End>
    ensures { result ≡ end_of word.now }
{
    match word {
        b"empty" => Some(End::Empty),
        b"until" => Some(End::Until),
        b"crash" => Some(End::Crash),
        b"limit" => Some(End::Limit),
        b"starved" => Some(End::Starved),
        _ => None,
    }
}
