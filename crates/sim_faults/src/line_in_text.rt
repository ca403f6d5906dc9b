//! A line in its text.
ghost use Rattle.std.specs.Prelude.{◌≡◌};

use crate::above::Above;
use sim_lines::TextLine;
use sim_types::Class;
use sim_words::Names;
use std::marker::Model;

/// A line in its text, with all that its faults and its statement depend on.
#[derive(Drop)]
pub struct LineInText<'p, 't> {
    number: u32,
    above: &'p Above<'t>,
    variables: &'p Names<'t, Class>,
    line: &'p TextLine<'t>,
}

impl<'p, 't> Model for LineInText<'p, 't> {
    ghost use Rattle.sim_language.specs.Places.{LineInText};

    ghost Value = { LineInText };

    ghost view = { λ a.
        record {
          number = a.number;
          above = a.above.now;
          variables = a.variables.now;
          line = a.line.now;
        } };
}

impl<'p, 't> LineInText<'p, 't> {
    /// A line with its number, counted from 1, what stands above it, and the variables of its process.
    pub fn of(
        number: u32,
        above: &'p Above<'t>,
        variables: &'p Names<'t, Class>,
        line: &'p TextLine<'t>,
    ) -> LineInText<'p, 't>
        ensures { result
            ≡ record {
              number = number;
              above = above.now;
              variables = variables.now;
              line = line.now;
            } }
    {
        LineInText {
            number,
            above,
            variables,
            line,
        }
    }

    pub fn number(&self) -> u32
        ensures { result ≡ self.now.number }
    {
        self.number
    }

    pub fn above(&self) -> &'p Above<'t>
        ensures { result.now ≡ self.now.above }
    {
        self.above
    }

    /// The variables of the process that the line stands in or begins.
    pub fn variables(&self) -> &'p Names<'t, Class>
        ensures { result.now ≡ self.now.variables }
    {
        self.variables
    }

    pub fn line(&self) -> &'p TextLine<'t>
        ensures { result.now ≡ self.now.line }
    {
        self.line
    }
}
