//! Reads a text: the scenario that it says, or the fault of its first faulty line.
ghost use Rattle.std.specs.Prelude.{◌≡◌, ◌+◌, ◌≤◌, [], IfOk, OnOk, Result, length};
ghost use Rattle.sim_language.specs.Lines.{lines};
ghost use Rattle.sim_language.specs.Reads.{reads, reads_text};
ghost use Rattle.sim_language.specs.Variables.{variables_then};
ghost use Rattle.sim_types.specs.Limits.{most_bytes};
ghost use Rattle.sim_types.specs.Scenarios.{ScenarioOf};
ghost use Rattle.sim_code.specs.Readings.{AddsLine, Gives, GivesDraft, GoesOn, IsReading, IsSmall, TakesLine, passed_on};
ghost use Rattle.sim_faults.specs.AboveOf.{IsBelow};

use crate::draft::Draft;
use sim_faults::{Above, LineInText, fault_at, fault_past, variables_of};
use sim_language::Form;
use sim_lines::{Lines, ProcessLines, Saying, TextLine, WholeText};
use sim_scenario::Scenario;
use sim_types::{Class, Fault, FaultKind, MOST_BYTES};
use sim_words::Names;
use std::alloc::{AllocError, Global};
use std::marker::Model;
use std::mem;

/// Why a text was not read.
#[derive(Clone, Copy)]
pub enum ReadError {
    /// It is no scenario.
    Fault(Fault),
    /// No memory was found.
    Memory,
}

impl From<AllocError> for ReadError {
    ghost use Rattle.sim_code.specs.declared.reading.ReadError.TheVariants.{Memory};

    ghost from_gives = { λ _ error. error ≡ Memory };

    fn from(_error: AllocError) -> ReadError {
        ReadError::Memory
    }
}

/// What the text says: the scenario, or the fault of its first faulty line.
pub fn read(alloc: Global, text: &[u8]) -> Result<Scenario, ReadError>
    ensures { Gives result (reads text.now) }
{
    if text.len() > MOST_BYTES as usize {
        return Err(ReadError::Fault(Fault {
            line: 0,
            kind: FaultKind::TooLong,
        }));
    }
    let whole = WholeText::of(alloc, text)?;
    let draft = read_lines(alloc, text, &whole)?;
    let scenario = draft.finish(alloc, text)?;
    Ok(scenario)
}

/// What the lines of the text say, where this is the whole of it; the statements are yet to be linked.
fn read_lines<'t>(alloc: Global, text: &'t [u8], whole: &WholeText<'t>) -> Result<Draft, ReadError>
    requires { length text.now ≤ most_bytes }
    ensures gives { GivesDraft result (reads_text whole.now (lines text.now)) }
    ensures few { IfOk result (λ draft. length draft.code ≤ most_bytes) }
{
    let mut reading = Reading::of_text(alloc, text, whole);
    while reading.pass(alloc, whole.heads())? {}
    reading.end()
}

/// A text that is being read, line by line.
#[derive(Drop)]
struct Reading<'t, 'w> {
    /// The lines that are left.
    lines: Lines<'t, 'w>,
    /// The line that was read last.
    line: TextLine<'t>,
    /// The number of the next line, from 1.
    number: u32,
    above: Above<'t>,
    variables: Names<'t, Class>,
    draft: Draft,
}

impl<'t, 'w> Model for Reading<'t, 'w> {
    ghost use Rattle.sim_code.specs.Readings.{ReadingOf};

    ghost Value = { ReadingOf };

    ghost view = { λ a.
        record {
          lines = a.lines;
          line = a.line;
          number = a.number;
          above = a.above;
          variables = a.variables;
          draft = a.draft;
        } };
}

impl<'t, 'w> Reading<'t, 'w> {
    /// In front of the first line of a text.
    fn of_text(alloc: Global, text: &'t [u8], whole: &'w WholeText<'t>) -> Reading<'t, 'w>
        requires { length text.now ≤ most_bytes }
        ensures { IsReading whole.now.heads
            (reads_text whole.now (lines text.now)) result }
    {
        Reading {
            lines: Lines::of_text(text, whole),
            line: TextLine::new(alloc),
            number: 1,
            above: Above::new(alloc),
            variables: Names::new(alloc),
            draft: Draft::new(alloc),
        }
    }

    /// Reads one line more, or answers false where none is left.
    fn pass(&mut self, alloc: Global, heads: &ProcessLines<'t>) -> Result<bool, ReadError>
        requires { IsSmall self.old }
        ensures { (answer : Result ScenarioOf Fault) → IsReading heads.now answer self.old
            → GoesOn heads.now answer self.old result self.new }
    {
        if !self.take_line(alloc)? {
            return Ok(false);
        }
        self.add(alloc, heads)?;
        self.go_on()?;
        Ok(true)
    }

    /// Takes the next line, with the variables there; false where none is left.
    fn take_line(&mut self, alloc: Global) -> Result<bool, AllocError>
        requires { length self.old.lines ≤ most_bytes }
        ensures { IfOk result (λ more. TakesLine self.old more self.new) }
    {
        if !self.lines.next(&mut self.line)? {
            return Ok(false);
        }
        take_variables(alloc, &mut self.variables, &self.line, &self.lines)?;
        Ok(true)
    }

    /// Adds what the line says to the draft, unless it is faulty.
    fn add(&mut self, alloc: Global, heads: &ProcessLines<'t>) -> Result<(), ReadError>
        requires { self.old.draft.setup.events ≤ most_bytes }
        ensures { AddsLine heads.now self.old result self.new }
    {
        let place = LineInText::of(self.number, &self.above, &self.variables, &self.line);
        match fault_at(heads, &place) {
            Some(kind) => Err(fault(self.number, kind)),
            None => {
                self.draft.add(alloc, heads, &place)?;
                Ok(())
            }
        }
    }

    /// Goes on behind the line.
    fn go_on(&mut self) -> Result<(), AllocError>
        requires above { IsBelow most_bytes self.old.above }
        requires number { self.old.number ≤ most_bytes + 1 }
        ensures { OnOk result (self.new ≡ passed_on self.old) }
    {
        self.above.pass(&self.line)?;
        self.number += 1;
        Ok(())
    }

    /// What was read, behind the last line.
    fn end(self) -> Result<Draft, ReadError>
        ensures gives { (heads : _) (answer : _) → IsReading heads answer self.entry
            → self.entry.lines ≡ [] → GivesDraft result answer }
        ensures draft { IfOk result (λ draft. draft ≡ self.entry.draft) }
    {
        let Reading {
            number,
            above,
            draft,
            ..
        } = self;
        match fault_past(&above) {
            Some(kind) => Err(fault(number, kind)),
            None => Ok(draft),
        }
    }
}

/// Those of the process that the line begins, or else those above it.
fn take_variables<'t>(
    alloc: Global,
    variables: &mut Names<'t, Class>,
    line: &TextLine<'t>,
    below: &Lines<'t, '_>,
) -> Result<(), AllocError>
    requires { length below.now ≤ most_bytes }
    ensures { OnOk result
        (variables.new ≡ variables_then line.now.saying below.now variables.old) }
{
    if let Saying::Says(Form::Process) = line.saying() {
        let here = variables_of(alloc, line.operands(), below)?;
        let _above = mem::replace(variables, here);
    }
    Ok(())
}

/// That a line is refused for this.
fn fault(line: u32, kind: FaultKind) -> ReadError
    ensures { result ≡ ReadError.Fault (record { line = line; kind = kind }) }
{
    ReadError::Fault(Fault { line, kind })
}
