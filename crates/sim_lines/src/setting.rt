//! Where a line stands in its text.
ghost use Rattle.std.specs.Prelude.{◌≡◌, ◌<◌};
ghost use Rattle.sim_language.specs.Sayings.{section_behind, setting_behind};
ghost use Rattle.sim_language.specs.declared.form.Section.TheVariants.{Plain};
ghost use Rattle.sim_types.specs.Limits.{most_bytes};

use crate::line::TextLine;
use crate::whole_text::WholeText;
use sim_language::Section;
use std::marker::Model;

/// Where a line stands in its text: what a line says depends on this beside its words.
#[derive(Drop)]
pub struct Setting<'t, 'w> {
    whole: &'w WholeText<'t>,
    section: Section,
    /// How many `poster` lines stand above.
    posters: u32,
}

impl<'t, 'w> Model for Setting<'t, 'w> {
    ghost use Rattle.sim_language.specs.Sayings.{Setting};

    ghost Value = { Setting };

    ghost view = { λ a.
        record { whole = a.whole.now; section = a.section; posters = a.posters } };
}

impl<'t, 'w> Setting<'t, 'w> {
    /// In front of the first line of a text.
    pub fn in_front(whole: &'w WholeText<'t>) -> Setting<'t, 'w>
        ensures { result ≡ record { whole = whole.now; section = Plain; posters = 0 } }
    {
        Setting {
            whole,
            section: Section::Plain,
            posters: 0,
        }
    }

    /// The same once more.
    pub fn again(&self) -> Setting<'t, 'w>
        ensures { result ≡ self.now }
    {
        Setting {
            whole: self.whole,
            section: self.section,
            posters: self.posters,
        }
    }

    pub fn whole(&self) -> &'w WholeText<'t>
        ensures { result.now ≡ self.now.whole }
    {
        self.whole
    }

    pub fn section(&self) -> Section
        ensures { result ≡ self.now.section }
    {
        self.section
    }

    pub fn posters(&self) -> u32
        ensures { result ≡ self.now.posters }
    {
        self.posters
    }

    /// Goes on behind a line.
    pub fn pass(&mut self, line: &TextLine<'_>)
        requires { self.old.posters < most_bytes }
        ensures { self.new ≡ setting_behind line.now.words self.old }
    {
        self.section = section_behind(self.section, line);
        if line.begins_with(b"poster") {
            self.posters += 1;
        }
    }
}

/// The section behind a line that stands in this one.
fn section_behind(section: Section, line: &TextLine<'_>) -> Section
    ensures { result ≡ section_behind line.now.words section }
{
    match section {
        Section::InPosters => Section::InPosters,
        _ if line.begins_with(b"poster") => Section::InPosters,
        _ if line.begins_with(b"journal") => Section::InJournal,
        section => section,
    }
}
