//! The lines of a text, one after the other.
ghost use Rattle.std.specs.Prelude.{◌≡◌, ◌≤◌, [], ◌∷◌, false, IfOk, OnErr, cond, length};
ghost use Rattle.sim_language.specs.Lines.{lines};
ghost use Rattle.sim_language.specs.Sayings.{sayings};
ghost use Rattle.sim_types.specs.Limits.{most_bytes};

use crate::cutting::first_line;
use crate::line::TextLine;
use crate::setting::Setting;
use crate::whole_text::WholeText;
use std::alloc::AllocError;
use std::marker::Model;

/// The lines that are left of a text.
#[derive(Drop)]
pub struct Lines<'t, 'w> {
    rest: &'t [u8],
    setting: Setting<'t, 'w>,
}

impl<'t, 'w> Model for Lines<'t, 'w> {
    ghost use Rattle.std.specs.Prelude.{List, ◌+◌, ◌≤◌, length};
    ghost use Rattle.sim_language.specs.Lines.{lines};
    ghost use Rattle.sim_language.specs.Sayings.{TextLine, lines_from};
    ghost use Rattle.sim_types.specs.Limits.{most_bytes};

    ghost Value = { List TextLine };

    ghost view = { λ a. lines_from a.setting (lines a.rest.now) };

    ghost invariant = { λ a. a.setting.posters + length a.rest.now ≤ most_bytes };
}

impl<'t, 'w> Lines<'t, 'w> {
    /// The lines of a text, where this is the whole of it.
    #[tactic(auto, using(crate::proofs::CountsOfLines::few_lines))]
    pub fn of_text(text: &'t [u8], whole: &'w WholeText<'t>) -> Lines<'t, 'w>
        requires { length text.now ≤ most_bytes }
        ensures lines { result ≡ sayings whole.now (lines text.now) }
        ensures few { length result ≤ length text.now }
    {
        Lines {
            rest: text,
            setting: Setting::in_front(whole),
        }
    }

    /// The same lines once more.
    pub fn again(&self) -> Lines<'t, 'w>
        ensures { result ≡ self.now }
    {
        Lines {
            rest: self.rest,
            setting: self.setting.again(),
        }
    }

    /// Reads the next line, or answers false where none is left. After want of memory the lines are as before, and `line`
    /// is to be read anew.
    pub fn next(&mut self, line: &mut TextLine<'t>) -> Result<bool, AllocError>
        ensures next { IfOk result (λ more. self.old ≡ cond more (line.new ∷ self.new) []) }
        ensures err { OnErr result (self.new ≡ self.old) }
        ensures none { IfOk result (λ more. more ≡ false → self.new ≡ []) }
    {
        let Some((first, rest)) = first_line(self.rest) else {
            return Ok(false);
        };
        line.read(first, &self.setting)?;
        self.rest = rest;
        self.setting.pass(line);
        Ok(true)
    }
}
