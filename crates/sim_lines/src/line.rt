//! A line with what it says.
ghost use Rattle.std.specs.Prelude.{◌≡◌, [], OnOk};
ghost use Rattle.sim_language.specs.Lines.{is_empty};
ghost use Rattle.sim_language.specs.Sayings.{Blank, begins_with, line_of};
ghost use Rattle.sim_language.specs.Said.{IsSaid};
ghost use Rattle.sim_lines.specs.LineOf.{operands_of, without_operands};

use crate::cutting::cut;
use crate::operand::Operand;
use crate::say::{begins_with, say};
use crate::setting::Setting;
use sim_language::Form;
use sim_types::FaultKind;
use sim_words::Words;
use std::alloc::{AllocError, Global};
use std::marker::Model;

/// What a line says by itself.
#[derive(Clone, Copy)]
pub enum Saying {
    /// It has no words.
    Blank,
    /// What is wrong with it.
    Wrong(FaultKind),
    /// A form.
    Says(Form),
}

/// A line of a text with what it says. It is used again for each line.
#[derive(Drop)]
pub struct TextLine<'t> {
    words: Words<'t>,
    saying: Saying,
    slots: Vec<Operand<'t>>,
}

impl<'t> Model for TextLine<'t> {
    ghost use Rattle.sim_language.specs.Sayings.{TextLine};
    ghost use Rattle.sim_language.specs.Said.{IsSaid};
    ghost use Rattle.sim_lines.specs.LineOf.{saying_of};

    ghost Value = { TextLine };

    ghost view = { λ a.
        record { words = a.words; saying = saying_of a.saying a.slots.items } };

    ghost invariant = { λ a. IsSaid (saying_of a.saying a.slots.items) };
}

impl<'t> TextLine<'t> {
    /// A line without words, to be read anew.
    pub fn new(alloc: Global) -> TextLine<'t>
        ensures { result ≡ record { words = []; saying = Blank } }
    {
        TextLine {
            words: Words::new(&[]),
            saying: Saying::Blank,
            slots: Vec::new(alloc),
        }
    }

    /// Reads a line of a text where it stands in this setting. After want of memory it is not told what it says, until it
    /// is read anew.
    pub fn read(&mut self, line: &'t [u8], setting: &Setting<'_, '_>) -> Result<(), AllocError>
        ensures { OnOk result (self.new ≡ line_of setting.now line.now) }
    {
        let cut = cut(line);
        self.words = Words::new(cut);
        self.saying = Saying::Blank;
        self.slots.clear();
        self.saying = say(&mut self.slots, setting, cut, &self.words)?;
        Ok(())
    }

    /// What it says.
    pub fn saying(&self) -> Saying
        ensures { result ≡ without_operands self.now.saying }
    {
        self.saying
    }

    /// The operands, where it says a form.
    pub fn operands(&self) -> &[Operand<'t>]
        ensures operands { result.now ≡ operands_of self.now.saying }
        ensures said { IsSaid self.now.saying }
    {
        match self.saying {
            Saying::Says(_) => &self.slots,
            _ => &[],
        }
    }

    /// Whether it has no words.
    pub fn is_empty(&self) -> bool
        ensures { result ≡ is_empty self.now.words }
    {
        self.words.is_empty()
    }

    /// Whether its first word is this one.
    pub fn begins_with(&self, word: &[u8]) -> bool
        ensures { result ≡ begins_with word.now self.now.words }
    {
        begins_with(&self.words, word)
    }
}
