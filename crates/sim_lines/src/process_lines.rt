//! The process lines of a text.
ghost use Rattle.std.specs.Prelude.{◌≡◌, ◌<◌, ◌≤◌, [], ◌∷◌, ◌++◌, OnOk, false, length, map, option_map, option_to_list, vec_len};
ghost use Rattle.sim_language.specs.Named.{is_named, place_of, with_all};
ghost use Rattle.sim_language.specs.Parameters.{parameter_class};
ghost use Rattle.sim_lines.specs.Spans.{head_by};
ghost use Rattle.sim_language.specs.AnywhereInText.{head_of, parameters};
ghost use Rattle.sim_types.specs.Limits.{most_bytes};

use sim_language::Version;
use sim_types::Class;
use sim_words::{Names, Words, is_name, parameter_class};
use std::alloc::{AllocError, Global};
use std::marker::Model;

/// Where the classes of a process's parameters stand.
#[derive(Clone, Copy)]
struct Span {
    from: usize,
    to: usize,
}

/// The process lines of a text, each with the classes of its parameters. The first line of a name counts.
#[derive(Drop)]
pub struct ProcessLines<'t> {
    spans: Names<'t, Span>,
    /// The classes of all parameters, process by process.
    classes: Vec<Class>,
}

impl<'t> Model for ProcessLines<'t> {
    ghost use Rattle.std.specs.Prelude.{All, ◌≤◌, length};
    ghost use Rattle.sim_language.specs.AnywhereInText.{ProcessLines};
    ghost use Rattle.sim_types.specs.Limits.{most_bytes};
    ghost use Rattle.sim_lines.specs.Spans.{IsWithin, heads_in};

    ghost Value = { ProcessLines };

    ghost view = { λ a. heads_in a.classes.items a.spans };

    ghost invariant = { λ a.
        (length a.spans ≤ most_bytes) × All (λ n. IsWithin a.classes.items n.value) a.spans };
}

impl<'t> ProcessLines<'t> {
    /// No process lines. It takes no memory.
    pub(crate) fn new(alloc: Global) -> ProcessLines<'t>
        ensures { result ≡ [] }
    {
        ProcessLines {
            spans: Names::new(alloc),
            classes: Vec::new(alloc),
        }
    }

    /// The process that the line declares behind the others, if it declares one and its name is not there.
    pub(crate) fn add(&mut self, version: Version, line: &Words<'t>) -> Result<(), AllocError>
        requires { length self.old < most_bytes }
        ensures { OnOk result
            (self.new ≡ with_all self.old (option_to_list (head_of version line.now))) }
    {
        match head_of(version, line) {
            Some((name, parameters)) if !self.contains(name) => self.push(name, parameters),
            _ => Ok(()),
        }
    }

    /// A process behind the others.
    fn push(&mut self, name: &'t [u8], parameters: Words<'t>) -> Result<(), AllocError>
        requires few { length self.old < most_bytes }
        requires other { is_named name.now self.old ≡ false }
        ensures { OnOk result
            (self.new ≡ self.old ++ head_by name.now parameters.entry ∷ []) }
    {
        let from = self.classes.len();
        push_classes(&mut self.classes, parameters)?;
        let to = self.classes.len();
        self.spans.add(name, Span { from, to })
    }

    pub fn contains(&self, name: &[u8]) -> bool
        ensures { result ≡ is_named name.now self.now }
    {
        self.spans.contains(name)
    }

    /// The number of the process, counted from 0.
    pub fn index_of(&self, name: &[u8]) -> Option<u32>
        ensures { result ≡ place_of name.now self.now }
    {
        match self.spans.index_of(name) {
            Some(index) => Some(index as u32),
            None => None,
        }
    }

    /// The classes of the parameters; none where no process has the name.
    pub fn parameters(&self, name: &[u8]) -> &[Class]
        ensures { result.now ≡ parameters self.now name.now }
    {
        match self.spans.get(name) {
            Some(span) => &self.classes[span.from..span.to],
            None => &[],
        }
    }
}

/// The name and the parameters in a process line of a text of this version.
fn head_of<'t>(version: Version, line: &Words<'t>) -> Option<(&'t [u8], Words<'t>)>
    ensures { option_map (λ head. head_by head.0.now head.1) result ≡ head_of version line.now }
{
    let first = line.first()?;
    let mut words = line.behind_first();
    let name = words.next()?;
    if first == b"process".as_slice() && is_name(version, name) {
        Some((name, words))
    } else {
        None
    }
}

/// The classes of parameters behind the others.
fn push_classes(classes: &mut Vec<Class>, mut words: Words<'_>) -> Result<(), AllocError>
    ensures classes { OnOk result
        (classes.new.items ≡ classes.old.items ++ map parameter_class words.entry) }
    ensures more { vec_len classes.old ≤ vec_len classes.new }
{
    while let Some(word) = words.next() {
        classes.push(parameter_class(word))?;
    }
    Ok(())
}
