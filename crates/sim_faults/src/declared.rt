//! The names that the lines above declare.
ghost use Rattle.std.specs.Prelude.{◌≡◌, ◌<◌, ◌^◌, ◌+◌, [], length, OnErr, OnOk};
ghost use Rattle.sim_language.specs.Declarations.{count_of, is_event, sort_of, with_declared};
ghost use Rattle.sim_language.specs.Forms.{declares_sort};
ghost use Rattle.sim_language.specs.Named.{is_named, value_of};

use sim_language::{Form, Meaning, Sort};
use sim_lines::{Operand, ProcessLines};
use sim_words::Names;
use std::alloc::{AllocError, Global};
use std::marker::Model;

/// The names that the lines above declare, in their order, with how many there are of each sort.
#[derive(Drop)]
pub struct Declared<'t> {
    names: Names<'t, Meaning>,
    resources: u32,
    events: u32,
    ports: u32,
    processes: u32,
}

impl<'t> Model for Declared<'t> {
    ghost use Rattle.std.specs.Prelude.{◌≡◌, List};
    ghost use Rattle.sim_language.specs.declared.form.Meaning.{Meaning};
    ghost use Rattle.sim_language.specs.declared.form.Sort.TheVariants as sort;
    ghost use Rattle.sim_language.specs.Declarations.{count_of};
    ghost use Rattle.sim_language.specs.Named.{Named};

    ghost Value = { List (Named Meaning) };

    ghost view = { λ a. a.names };

    ghost invariant = { λ a.
        (a.resources ≡ count_of sort.Resource a.names)
        × (a.events ≡ count_of sort.Event a.names)
        × (a.ports ≡ count_of sort.Port a.names)
        × (a.processes ≡ count_of sort.Process a.names) };
}

impl<'t> Declared<'t> {
    /// No names. It takes no memory.
    pub fn new(alloc: Global) -> Declared<'t>
        ensures { result ≡ [] }
    {
        Declared {
            names: Names::new(alloc),
            resources: 0,
            events: 0,
            ports: 0,
            processes: 0,
        }
    }

    /// What the name is declared as.
    pub fn get(&self, name: &[u8]) -> Option<Meaning>
        ensures { result ≡ value_of name.now self.now }
    {
        self.names.get(name)
    }

    pub fn contains(&self, name: &[u8]) -> bool
        ensures { result ≡ is_named name.now self.now }
    {
        self.names.contains(name)
    }

    /// How many names of the sort there are.
    pub fn count(&self, sort: Sort) -> u32
        ensures { result ≡ count_of sort self.now }
    {
        match sort {
            Sort::Resource => self.resources,
            Sort::Event => self.events,
            Sort::Port => self.ports,
            Sort::Process => self.processes,
        }
    }

    /// Whether the word is a named event.
    pub fn is_event(&self, word: &[u8]) -> bool
        ensures { result ≡ is_event self.now word.now }
    {
        match self.names.get(word) {
            Some(meaning) => matches!(meaning.form.sort(), Some(Sort::Event)),
            None => false,
        }
    }

    /// What sort of name the word is: as declared above, or a process anywhere in the text.
    pub fn sort(&self, heads: &ProcessLines<'_>, word: &[u8]) -> Option<Sort>
        ensures { result ≡ sort_of heads.now self.now word.now }
    {
        match self.names.get(word) {
            Some(meaning) => meaning.form.sort(),
            None if heads.contains(word) => Some(Sort::Process),
            None => None,
        }
    }

    /// Adds the name that a line of this form declares, if it declares one.
    #[tactic(auto, using(crate::proofs::SortCounts::length_filter_bound))]
    pub fn add(&mut self, form: Form, slots: &[Operand<'t>]) -> Result<(), AllocError>
        requires { length self.old + 1 < 2 ^ 32 }
        ensures err { OnErr result (self.new ≡ self.old) }
        ensures ok { OnOk result
            (self.new ≡ with_declared self.old form (declares_sort form) slots.now) }
    {
        let (Some(sort), Some(slot)) = (form.sort(), slots.first()) else {
            return Ok(());
        };
        let name = slot.word();
        if self.names.contains(name) {
            return Ok(());
        }
        let number = self.count(sort);
        self.names.add(name, Meaning { form, number })?;
        match sort {
            Sort::Resource => self.resources += 1,
            Sort::Event => self.events += 1,
            Sort::Port => self.ports += 1,
            Sort::Process => self.processes += 1,
        }
        Ok(())
    }
}
