//! A sink that compares what it takes with bytes that are given.
ghost use Rattle.std.specs.Prelude.{◌≡◌, ◌≢◌, ◌≤◌, ◌<◌, false, ◌∷◌, ◌++◌, None, Some, ℕ, List, length, take, drop, slice_get};
ghost use Rattle.std.specs.List.{list_any};
ghost use Rattle.sim_language.specs.Lines.{is_line_feed};
ghost use Rattle.sim_trace.specs.Texts.{AreNamesShort};
ghost use Rattle.sim_verify.specs.Checkers.{taken_then};
ghost use Rattle.sim_verify.specs.TraceLines.{fed_lines};
ghost use Rattle.sim_verify.specs.Verdicts.{verdict_from, why_of};

use crate::parts::first_line_feed;
use crate::verdict::{Verdict, Why};
use sim_outside::{Failed, Sink};
use sim_trace_reader::parse_line;
use sim_types::Name;
use std::marker::{Brand, Model, PhantomData};

/// Names the bytes that a checker is given, for contracts alone: whoever writes to it, it still compares with these.
pub(crate) trait Text {
    ghost use Rattle.std.specs.Prelude.{ℕ, List};

    ghost bytes: { List ℕ };
}

impl Text for Brand {
    ghost use Rattle.std.specs.Prelude.{[]};

    ghost bytes = { [] };
}

/// A sink that compares what it takes with bytes that are given. It takes one byte that differs, and then it fails.
#[derive(Drop)]
pub(crate) struct Checker<'t, T: Text> {
    given: &'t [u8],
    text: PhantomData<T>,
    /// How many of them were taken.
    at: usize,
    /// What was taken in place of the next.
    wrong: Option<u8>,
    /// How many flushes there were, and whether any byte was taken since the last.
    flushes: u64,
    held_back: bool,
    faults: u64,
}

impl<'t, T: Text> Model for Checker<'t, T> {
    ghost use Rattle.std.specs.Prelude.{◌≡◌};
    ghost use Rattle.sim_verify.specs.Checkers.{CheckerOf, IsRightSoFar};

    ghost Value = { CheckerOf };

    ghost view = { λ a. record {
      given = a.given.now;
      at = a.at;
      wrong = a.wrong;
      flushes = a.flushes;
      held_back = a.held_back;
      faults = a.faults;
    } };

    ghost invariant = { λ a. IsRightSoFar (record {
      given = a.given.now;
      at = a.at;
      wrong = a.wrong;
      flushes = a.flushes;
      held_back = a.held_back;
      faults = a.faults;
    }) × (a.given.now ≡ T.bytes) };
}

impl<'t, T: Text> Checker<'t, T> {
    /// Makes a sink that has taken nothing yet.
    pub(crate) fn new(given: &'t [u8]) -> Checker<'t, T>
        requires text { given.now ≡ T.bytes }
        ensures { result ≡ record {
          given = given.now;
          at = 0;
          wrong = None;
          flushes = 0;
          held_back = false;
          faults = 0;
        } }
    {
        Checker {
            given,
            text: PhantomData,
            at: 0,
            wrong: None,
            flushes: 0,
            held_back: false,
            faults: 0,
        }
    }

    /// Says how the bytes that are given differ from a trace. The bytes that were taken are the whole trace; where one of
    /// them differs, they are the beginning of it. The ports have these names.
    pub(crate) fn verdict(&self, ports: &[Name]) -> Verdict
        requires names { AreNamesShort ports.now }
        ensures said { (more : List ℕ) → result ≡ verdict_from ports.now 1
            (fed_lines (taken_then self.now more)) (fed_lines T.bytes) }
        ensures no_fault { self.now.wrong ≡ None → self.now.faults ≡ 0 }
    {
        match self.wrong {
            Some(wrong) => verdict_where_wrong(self.given, self.at, wrong, ports),
            None if self.at == self.given.len() => Verdict::Yes,
            None => verdict_where_over(self.given, self.at, ports),
        }
    }
}

/// Says how the bytes that are given differ from a trace that has the first `at` of them and then another byte. The ports have
/// these names.
fn verdict_where_wrong(given: &[u8], at: usize, wrong: u8, ports: &[Name]) -> Verdict
    requires names { AreNamesShort ports.now }
    requires inside { at ≤ length given.now }
    requires differs { slice_get given.now at ≢ Some wrong }
    ensures { (more : List ℕ) → result ≡ verdict_from ports.now 1
        (fed_lines (take at given.now ++ wrong ∷ more)) (fed_lines given.now) }
{
    let (line, start) = last_line(&given[..at]);
    let why = if start == given.len() {
        Why::Short
    } else {
        why_of(&given[start..], ports)
    };
    Verdict::No { line, why }
}

/// Says how the bytes that are given differ from a trace that is the first `at` of them. The ports have these names.
fn verdict_where_over(given: &[u8], at: usize, ports: &[Name]) -> Verdict
    requires names { AreNamesShort ports.now }
    requires inside { at < length given.now }
    ensures { result ≡ verdict_from ports.now 1
        (fed_lines (take at given.now)) (fed_lines given.now) }
{
    let (line, start) = last_line(&given[..at]);
    let why = if start == at {
        Why::Extra
    } else {
        why_of(&given[start..], ports)
    };
    Verdict::No { line, why }
}

/// Gives the number of the last line of these bytes, counted from 1, and how many bytes are before it. It may be empty.
fn last_line(bytes: &[u8]) -> (u64, usize)
    ensures inside { result.1 ≤ length bytes.now }
    ensures unended { list_any is_line_feed (drop result.1 bytes.now) ≡ false }
    ensures goes_on { (ports : List (List ℕ)) (trace given : List ℕ) →
        verdict_from ports 1 (fed_lines (bytes.now ++ trace)) (fed_lines (bytes.now ++ given))
        ≡ verdict_from ports result.0 (fed_lines (drop result.1 bytes.now ++ trace))
        (fed_lines (drop result.1 bytes.now ++ given)) }
{
    let mut line = 1;
    let mut start = 0;
    while let Some(end) = first_line_feed(&bytes[start..]) {
        line += 1;
        start += end + 1;
    }
    (line, start)
}

/// Says how the first line of these bytes differs from the one of the trace, which is another. The ports have these names.
fn why_of(given: &[u8], ports: &[Name]) -> Why
    requires names { AreNamesShort ports.now }
    ensures { (first : List ℕ) (rest : List (List ℕ)) → fed_lines given.now ≡ first ∷ rest
        → result ≡ why_of ports.now first }
{
    match first_line_feed(given) {
        Some(end) if parse_line(&given[..end], ports).is_some() => Why::Step,
        _ => Why::Shape,
    }
}

impl<'t, T: Text> Sink for Checker<'t, T> {
    ghost use Rattle.std.specs.Prelude.{false};
    ghost use Rattle.sim_verify.specs.Checkers.{told_by_checker};

    ghost tells = { told_by_checker };

    ghost ignores = { λ _. false };

    fn ignores_bytes(&self) -> bool {
        false
    }

    fn write(&mut self, piece: &[u8]) -> Result<usize, Failed> {
        if self.wrong.is_some() {
            self.faults = self.faults.saturating_add(1);
            return Err(Failed);
        }
        let right = same_bytes(piece, &self.given[self.at..]);
        self.at += right;
        let mut taken = right;
        if right < piece.len() {
            self.wrong = Some(piece[right]);
            taken += 1;
        }
        self.held_back = self.held_back || taken > 0;
        Ok(taken)
    }

    fn pass_on(&mut self) -> Result<(), Failed> {
        Ok(())
    }

    fn flush(&mut self) -> Result<(), Failed> {
        self.flushes = self.flushes.saturating_add(1);
        self.held_back = false;
        Ok(())
    }
}

/// Counts the bytes at the front that are the same.
fn same_bytes(piece: &[u8], given: &[u8]) -> usize
    ensures piece { result ≤ length piece.now }
    ensures given { result ≤ length given.now }
    ensures same { take result piece.now ≡ take result given.now }
    ensures differs { (b : ℕ) → slice_get piece.now result ≡ Some b
        → slice_get given.now result ≢ Some b }
{
    if given.starts_with(piece) {
        return piece.len();
    }
    let most = piece.len().min(given.len());
    let mut count = 0;
    while count < most && piece[count] == given[count] {
        count += 1;
    }
    count
}
