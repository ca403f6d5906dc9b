//! What the lines above a line say.
ghost use Rattle.std.specs.Prelude.{◌≡◌, ◌≤◌, [], OnOk};
ghost use Rattle.sim_language.specs.Places.{above_of};
ghost use Rattle.sim_language.specs.Sayings.{Blank, Says};
ghost use Rattle.sim_types.specs.Limits.{most_bytes};
ghost use Rattle.sim_faults.specs.AboveOf.{IsBelow, above_behind};

use crate::blocks::{Blocks, first_literal};
use crate::declared::Declared;
use sim_language::Form;
use sim_lines::{Operand, Saying, TextLine};
use std::alloc::{AllocError, Global};
use std::marker::Model;

/// What the lines above a line say.
#[derive(Drop)]
pub struct Above<'t> {
    /// How many have words.
    worded: u32,
    declared: Declared<'t>,
    process_or_start: bool,
    start: bool,
    journal: bool,
    blocks: Blocks<'t>,
    statements: u32,
    /// How many are entries of a journal or of posters.
    entries: u32,
    posters: u32,
    /// The number of events that the last journal entry gives.
    after: Option<i64>,
}

impl<'t> Model for Above<'t> {
    ghost use Rattle.sim_language.specs.Places.{Above};

    ghost Value = { Above };

    ghost view = { λ a.
        record {
          worded = a.worded;
          declared = a.declared;
          process_or_start = a.process_or_start;
          start = a.start;
          journal = a.journal;
          blocks = a.blocks;
          statements = a.statements;
          entries = a.entries;
          posters = a.posters;
          after = a.after;
        } };
}

impl<'t> Above<'t> {
    /// Above the first line. It takes no memory.
    pub fn new(alloc: Global) -> Above<'t>
        ensures { result ≡ above_of [] }
    {
        Above {
            worded: 0,
            declared: Declared::new(alloc),
            process_or_start: false,
            start: false,
            journal: false,
            blocks: Blocks::new(alloc),
            statements: 0,
            entries: 0,
            posters: 0,
            after: None,
        }
    }

    pub fn worded(&self) -> u32
        ensures { result ≡ self.now.worded }
    {
        self.worded
    }

    pub fn declared(&self) -> &Declared<'t>
        ensures { result.now ≡ self.now.declared }
    {
        &self.declared
    }

    /// Whether a process line or a start stands above.
    pub fn process_or_start(&self) -> bool
        ensures { result ≡ self.now.process_or_start }
    {
        self.process_or_start
    }

    /// Whether a start stands above.
    pub fn start(&self) -> bool
        ensures { result ≡ self.now.start }
    {
        self.start
    }

    /// Whether a line above begins with `journal`.
    pub fn journal(&self) -> bool
        ensures { result ≡ self.now.journal }
    {
        self.journal
    }

    pub fn blocks(&self) -> &Blocks<'t>
        ensures { result.now ≡ self.now.blocks }
    {
        &self.blocks
    }

    pub fn statements(&self) -> u32
        ensures { result ≡ self.now.statements }
    {
        self.statements
    }

    pub fn entries(&self) -> u32
        ensures { result ≡ self.now.entries }
    {
        self.entries
    }

    pub fn posters(&self) -> u32
        ensures { result ≡ self.now.posters }
    {
        self.posters
    }

    pub fn after(&self) -> Option<i64>
        ensures { result ≡ self.now.after }
    {
        self.after
    }

    /// Goes on behind a line. After want of memory a part of it may be counted, so this may only be dropped.
    pub fn pass(&mut self, line: &TextLine<'t>) -> Result<(), AllocError>
        requires { IsBelow most_bytes self.old }
        ensures { OnOk result (self.new ≡ above_behind self.old line.now) }
    {
        if let Saying::Says(form) = line.saying() {
            self.pass_form(form, line.operands())?;
        }
        self.pass_words(line);
        Ok(())
    }

    /// Goes on behind the words of a line, but not behind what it says.
    fn pass_words(&mut self, line: &TextLine<'t>)
        requires { self.old.worded ≤ most_bytes }
        ensures { self.new
            ≡ above_behind self.old (record { words = line.now.words; saying = Blank }) }
    {
        if !line.is_empty() {
            self.worded += 1;
        }
        if line.begins_with(b"journal") {
            self.journal = true;
        }
    }

    /// Goes on behind what a line of this form says, but not behind its words.
    fn pass_form(&mut self, form: Form, slots: &[Operand<'t>]) -> Result<(), AllocError>
        requires { IsBelow most_bytes self.old }
        ensures { OnOk result
            (self.new
            ≡ above_behind self.old (record { words = []; saying = Says form slots.now })) }
    {
        self.declared.add(form, slots)?;
        if form.is_statement() {
            self.statements += 1;
        }
        self.blocks.pass(self.statements, form, slots)?;
        match form {
            Form::Process => self.process_or_start = true,
            Form::Start => {
                self.process_or_start = true;
                self.start = true;
            }
            Form::After => {
                self.entries += 1;
                self.after = first_literal(slots);
            }
            Form::Post => self.entries += 1,
            Form::Poster => self.posters += 1,
            _ => (),
        }
        Ok(())
    }
}
