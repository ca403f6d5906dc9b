//! What the lines of a text take from lines anywhere in it, above them or below.
ghost use Rattle.std.specs.Prelude.{◌≡◌, ◌≤◌, IfOk, length, option_map};
ghost use Rattle.sim_language.specs.AnywhereInText.{ahead, declaration, declarations, first_worded, heads_of, is_second_header, version_of, whole_text};
ghost use Rattle.sim_language.specs.Forms.{same_sort};
ghost use Rattle.sim_language.specs.declared.form.Sort.TheVariants.{Event};
ghost use Rattle.sim_language.specs.Lines.{lines};
ghost use Rattle.sim_types.specs.Limits.{most_bytes};
ghost use Rattle.sim_lines.specs.NamesAhead.{AreAhead};

use crate::cutting::{cut, first_line};
use crate::process_lines::ProcessLines;
use sim_language::{Ahead, Sort, Version};
use sim_words::{Names, Words, sort_begun};
use std::alloc::{AllocError, Global};
use std::marker::Model;

/// A text with what a line takes from it, wherever in it the line stands.
#[derive(Drop)]
pub struct WholeText<'t> {
    /// Only contracts look at it.
    text: &'t [u8],
    version: Version,
    heads: ProcessLines<'t>,
    /// Each name that a line declares, with what the first such line declares it as.
    names: Names<'t, Ahead>,
}

impl<'t> Model for WholeText<'t> {
    ghost use Rattle.std.specs.Prelude.{◌≤◌, length};
    ghost use Rattle.sim_language.specs.AnywhereInText.{WholeText, declarations};
    ghost use Rattle.sim_language.specs.Lines.{lines};
    ghost use Rattle.sim_lines.specs.NamesAhead.{AreAhead};

    ghost Value = { WholeText };

    ghost view = { λ a.
        record {
          version = a.version;
          heads = a.heads;
          declarations = declarations (lines a.text.now);
        } };

    ghost invariant = { λ a. AreAhead a.names (declarations (lines a.text.now)) };
}

impl<'t> WholeText<'t> {
    /// The text with its version, its process lines and the names that its lines declare.
    pub fn of(alloc: Global, text: &'t [u8]) -> Result<WholeText<'t>, AllocError>
        requires { length text.now ≤ most_bytes }
        ensures { IfOk result (λ whole. whole ≡ whole_text (lines text.now)) }
    {
        let version = version_of(text);
        let (heads, names) = look_ahead(alloc, version, text)?;
        Ok(WholeText {
            text,
            version,
            heads,
            names,
        })
    }

    /// The version of the language that the text is written in.
    pub fn version(&self) -> Version
        ensures { result ≡ self.now.version }
    {
        self.version
    }

    /// Its process lines.
    pub fn heads(&self) -> &ProcessLines<'t>
        ensures { result.now ≡ self.now.heads }
    {
        &self.heads
    }

    /// What the first line that declares the name declares it as.
    pub fn ahead(&self, name: &[u8]) -> Ahead
        ensures { result ≡ ahead name.now self.now.declarations }
    {
        self.names.get(name).unwrap_or(Ahead::Undeclared)
    }
}

/// The version of a text, told by the first line that has words.
fn version_of(text: &[u8]) -> Version
    ensures { result ≡ version_of (lines text.now) }
{
    if is_second_header(&first_worded(text)) {
        Version::Two
    } else {
        Version::One
    }
}

/// The words of the first line that has some; none where no line has.
fn first_worded(text: &[u8]) -> Words<'_>
    ensures { result ≡ first_worded (lines text.now) }
{
    let mut rest = text;
    while let Some((line, behind)) = first_line(rest) {
        let words = Words::new(cut(line));
        if !words.is_empty() {
            return words;
        }
        rest = behind;
    }
    Words::new(&[])
}

/// Whether the words are `scenario 2`.
fn is_second_header(words: &Words<'_>) -> bool
    ensures { result ≡ is_second_header words.now }
{
    let mut rest = words.again();
    match (rest.next(), rest.next()) {
        (Some(first), Some(second)) => {
            first == b"scenario".as_slice() && second == b"2".as_slice() && rest.is_empty()
        }
        _ => false,
    }
}

/// The process lines of a text of this version, and the names that its lines declare, each with what the first such line
/// declares it as. Only a line that declares something can be a process line.
fn look_ahead<'t>(
    alloc: Global,
    version: Version,
    text: &'t [u8],
) -> Result<(ProcessLines<'t>, Names<'t, Ahead>), AllocError>
    requires { length text.now ≤ most_bytes }
    ensures heads { IfOk result (λ found. found.0 ≡ heads_of version (lines text.now)) }
    ensures names { IfOk result (λ found. AreAhead found.1 (declarations (lines text.now))) }
{
    let mut heads = ProcessLines::new(alloc);
    let mut names = Names::new(alloc);
    let mut events = 0;
    let mut rest = text;
    while let Some((line, behind)) = first_line(rest) {
        rest = behind;
        let words = Words::new(cut(line));
        let Some((name, sort)) = declaration(&words) else {
            continue;
        };
        heads.add(version, &words)?;
        if is_event(sort) {
            names.add(name, Ahead::EventAt(events))?;
            events += 1;
        } else {
            names.add(name, Ahead::NoEvent)?;
        }
    }
    Ok((heads, names))
}

fn is_event(sort: Sort) -> bool
    ensures { result ≡ same_sort Event sort }
{
    matches!(sort, Sort::Event)
}

/// The name that a line with these words declares, and what it stands for, if it declares one.
fn declaration<'t>(line: &Words<'t>) -> Option<(&'t [u8], Sort)>
    ensures { option_map (λ found. record { name = found.0.now; value = found.1 }) result
        ≡ declaration line.now }
{
    let sort = sort_begun(line.first()?)?;
    let name = line.behind_first().first()?;
    Some((name, sort))
}
