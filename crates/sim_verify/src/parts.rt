//! A text in two parts: a scenario, and the trace after it.
ghost use Rattle.std.specs.Prelude.{◌≡◌, ◌≤◌, ◌<◌, ◌∷◌, MatchOption, MatchResult, None, Some, length, position, take, drop};
ghost use Rattle.std.specs.List.{concat};
ghost use Rattle.sim_language.specs.Lines.{is_line_feed};
ghost use Rattle.sim_verify.specs.TraceLines.{fed_lines, is_trace_line, scenario_lines, trace_lines};

use sim_lines::cut;
use sim_words::{Words, up_to};

/// A text in two parts, without the line that says `trace`.
#[derive(Clone, Copy)]
pub(crate) struct Parts<'t> {
    pub(crate) scenario: &'t [u8],
    pub(crate) trace: &'t [u8],
}

/// Parts the text at the first line that says just `trace`; where there is none, counts the lines of the text.
pub(crate) fn part(text: &[u8]) -> Result<Parts<'_>, usize>
    ensures parts { MatchResult result
        (λ parts. (concat (scenario_lines (fed_lines text.now)) ≡ parts.scenario.now)
        × (trace_lines (fed_lines text.now) ≡ Some (fed_lines parts.trace.now)))
        (λ count. (trace_lines (fed_lines text.now) ≡ None)
        × (length (fed_lines text.now) ≡ count)) }
    ensures few { MatchResult result (λ parts. length parts.scenario.now ≤ length text.now)
        (λ count. count ≤ length text.now) }
{
    let mut at = 0;
    let mut count = 0;
    while at < text.len() {
        let rest = &text[at..];
        let end = end_of_line(rest);
        if is_trace_line(&rest[..end]) {
            return Ok(Parts {
                scenario: &text[..at],
                trace: &rest[end..],
            });
        }
        at += end;
        count += 1;
    }
    Err(count)
}

/// Finds where the first line ends, after its line feed if it has one.
fn end_of_line(text: &[u8]) -> usize
    requires some { 0 < length text.now }
    ensures more { 0 < result }
    ensures inside { result ≤ length text.now }
    ensures first { fed_lines text.now
        ≡ take result text.now ∷ fed_lines (drop result text.now) }
{
    match first_line_feed(text) {
        Some(at) => at + 1,
        None => text.len(),
    }
}

/// Finds the first line feed.
pub(crate) fn first_line_feed(text: &[u8]) -> Option<usize>
    ensures { result ≡ position is_line_feed text.now }
{
    text.iter().position(|byte| *byte == b'\n')
}

/// Says whether the line, with its line feed, is just the word `trace`.
fn is_trace_line(line: &[u8]) -> bool
    ensures { result ≡ is_trace_line line.now }
{
    let mut words = Words::new(cut(up_to(b'\n', line)));
    words.next() == Some(b"trace".as_slice()) && words.is_empty()
}
