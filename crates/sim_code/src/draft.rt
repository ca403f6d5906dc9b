//! A scenario that is being read.
ghost use Rattle.std.specs.Prelude.{◌≡◌, ◌<◌, ◌≤◌, ◌^◌, None, IfOk, OnOk, false, Ok, length, map, pos, take};
ghost use Rattle.sim_language.specs.AnywhereInText as anywhere;
ghost use Rattle.sim_code.specs.Readings.{with_links};
ghost use Rattle.sim_code.specs.LineGroups.{add_of, is_of_declarations, is_of_entries, is_of_headers, is_of_resources};
ghost use Rattle.sim_language.specs.Faults.{fault_at};
ghost use Rattle.sim_language.specs.LimitFaults.{form_is_full};
ghost use Rattle.sim_language.specs.Places as places;
ghost use Rattle.sim_language.specs.Reads.{add, add_said, capacity_of, classes_of, event_ahead, kind_of, natural_of, nothing_said, onto_last, reads, start_argument_of, with_arrival, with_kind, with_port, with_resource, with_statement};
ghost use Rattle.sim_language.specs.Said.{Fits};
ghost use Rattle.sim_language.specs.Statements as statements;
ghost use Rattle.sim_language.specs.Statements.{literal_of};
ghost use Rattle.sim_language.specs.Variables.{given_by};
ghost use Rattle.sim_language.specs.declared.form.Form.TheVariants as form;
ghost use Rattle.sim_types.specs.Limits.{most_bytes, most_items, most_level};
ghost use Rattle.sim_types.specs.declared.setup.ResourceKind.TheVariants as resource;

use crate::link::link;
use crate::statement::{kind_number, literal_of, number_declared, statement};
use sim_faults::LineInText;
use sim_language::{Ahead, Form, Role};
use sim_lines::{Operand, ProcessLines, Saying};
use sim_scenario::Scenario;
use sim_types::{
    Arrival, Class, Classes, EventId, Kind, List, MOST_ITEMS, MOST_LEVEL, Name, Post, Resource,
    ResourceKind, Setup, Start, Stmt, Until,
};
use sim_words::Names;
use std::alloc::{AllocError, Global};
use std::marker::Model;

/// How many numbers a process begins with at most.
const MOST_ARGUMENTS: usize = 8;

/// How many variables a process has beside `val`.
const MOST_VARIABLES: usize = 63;

/// What the lines that were read say.
#[derive(Drop)]
pub struct Draft {
    until: Until,
    seed: u64,
    events: u64,
    resources: Vec<Resource>,
    ports: Vec<u32>,
    port_names: Vec<Name>,
    starts: Vec<Start>,
    kinds: Vec<Kind>,
    code: Vec<Stmt>,
    journal: Vec<Arrival>,
    posters: Vec<List<Post>>,
}

impl Model for Draft {
    ghost use Rattle.sim_types.specs.Scenarios.{ScenarioOf};

    ghost Value = { ScenarioOf };

    ghost view = { λ a.
        record {
          setup = record {
            until = a.until;
            events = a.events;
            resources = a.resources.items;
            ports = a.ports.items;
            starts = a.starts.items;
          };
          seed = a.seed;
          port_names = a.port_names.items;
          kinds = a.kinds.items;
          code = a.code.items;
          journal = a.journal.items;
          posters = a.posters.items;
        } };
}

impl Draft {
    /// Before the first line. It takes no memory.
    pub fn new(alloc: Global) -> Draft
        ensures { result ≡ nothing_said }
    {
        Draft {
            until: Until::Never,
            seed: 0,
            events: 0,
            resources: Vec::new(alloc),
            ports: Vec::new(alloc),
            port_names: Vec::new(alloc),
            starts: Vec::new(alloc),
            kinds: Vec::new(alloc),
            code: Vec::new(alloc),
            journal: Vec::new(alloc),
            posters: Vec::new(alloc),
        }
    }

    /// Adds what a line says. After want of memory a part of it may be added, so the draft may only be dropped.
    pub fn add(
        &mut self,
        alloc: Global,
        heads: &ProcessLines<'_>,
        place: &LineInText<'_, '_>,
    ) -> Result<(), AllocError>
        requires clean { fault_at heads.now place.now ≡ None }
        requires room { self.old.setup.events < 2 ^ 63 }
        ensures { OnOk result
            (self.new ≡ add_said heads.now place.now place.now.line.saying self.old) }
    {
        let line = place.line();
        let slots = line.operands();
        match line.saying() {
            Saying::Says(form) => self.add_form(alloc, heads, place, form, slots),
            _ => Ok(()),
        }
    }

    /// Adds what a line of this form says.
    fn add_form(
        &mut self,
        alloc: Global,
        heads: &ProcessLines<'_>,
        place: &LineInText<'_, '_>,
        form: Form,
        slots: &[Operand<'_>],
    ) -> Result<(), AllocError>
        requires fits { Fits form slots.now }
        requires not_full { form_is_full place.now.above form slots.now ≡ false }
        requires room { self.old.setup.events < 2 ^ 63 }
        ensures { OnOk result (self.new ≡ add heads.now place.now form slots.now self.old) }
    {
        match form {
            Form::UntilTime | Form::UntilEvent | Form::Seed => {
                self.add_header(form, slots);
                Ok(())
            }
            Form::Resource
            | Form::Priority
            | Form::Preemptive
            | Form::Container
            | Form::Store
            | Form::PStore
            | Form::FStore => self.add_resource(form, slots),
            Form::Event | Form::Port => self.add_declaration(alloc, heads, form, slots),
            Form::Process => self.add_process(place, slots),
            Form::Start => self.add_start(alloc, heads, place, slots),
            Form::After | Form::Poster | Form::Post => self.add_entry(alloc, place, form, slots),
            _ => self.add_statement(heads, place, form, slots),
        }
    }

    /// Sets what a header line gives.
    fn add_header(&mut self, form: Form, slots: &[Operand<'_>])
        ensures { (heads : anywhere.ProcessLines) (place : places.LineInText)
            → self.new ≡ add_of is_of_headers heads place form slots.now self.old }
    {
        match (form, slots) {
            (Form::UntilTime, [time]) => self.until = Until::At(literal_of(time)),
            (Form::UntilEvent, [event]) => self.until = Until::Event(event_ahead(event)),
            (Form::Seed, [seed]) => self.seed = natural(seed),
            _ => {}
        }
    }

    fn push_resource(
        &mut self,
        kind: ResourceKind,
        capacity: i64,
        opening: i64,
    ) -> Result<(), AllocError>
        ensures { OnOk result (self.new ≡ with_resource self.old kind capacity opening) }
    {
        self.resources.push(Resource {
            kind,
            capacity,
            opening,
        })?;
        Ok(())
    }

    /// Adds a resource that so many can use at once.
    fn push_shared(&mut self, kind: ResourceKind, users: &Operand<'_>) -> Result<(), AllocError>
        ensures { OnOk result
            (self.new ≡ with_resource self.old kind (literal_of users.now.word) (pos 0)) }
    {
        self.push_resource(kind, literal_of(users), 0)
    }

    fn push_container(
        &mut self,
        most: &Operand<'_>,
        opening: &Operand<'_>,
    ) -> Result<(), AllocError>
        ensures { OnOk result
            (self.new
            ≡ with_resource self.old resource.Container
            (capacity_of most_level most.now.word) (literal_of opening.now.word)) }
    {
        self.push_resource(
            ResourceKind::Container,
            capacity_of(MOST_LEVEL, most),
            literal_of(opening),
        )
    }

    fn push_store(&mut self, kind: ResourceKind, most: &Operand<'_>) -> Result<(), AllocError>
        ensures { OnOk result
            (self.new
            ≡ with_resource self.old kind (capacity_of most_items most.now.word) (pos 0)) }
    {
        self.push_resource(kind, capacity_of(MOST_ITEMS, most), 0)
    }

    /// Adds the resource that a line declares.
    fn add_resource(&mut self, form: Form, slots: &[Operand<'_>]) -> Result<(), AllocError>
        ensures { (heads : anywhere.ProcessLines) (place : places.LineInText)
            → OnOk result (self.new ≡ add_of is_of_resources heads place form slots.now self.old) }
    {
        match (form, slots) {
            (Form::Resource, [_, users]) => self.push_shared(ResourceKind::Plain, users),
            (Form::Priority, [_, users]) => self.push_shared(ResourceKind::Priority, users),
            (Form::Preemptive, [_, users]) => self.push_shared(ResourceKind::Preemptive, users),
            (Form::Container, [_, most, opening]) => self.push_container(most, opening),
            (Form::Store, [_, most]) => self.push_store(ResourceKind::Store, most),
            (Form::PStore, [_, most]) => self.push_store(ResourceKind::PStore, most),
            (Form::FStore, [_, most]) => self.push_store(ResourceKind::FStore, most),
            _ => Ok(()),
        }
    }

    /// Adds the event or the port that a line declares.
    fn add_declaration(
        &mut self,
        alloc: Global,
        heads: &ProcessLines<'_>,
        form: Form,
        slots: &[Operand<'_>],
    ) -> Result<(), AllocError>
        requires { self.old.setup.events < 2 ^ 63 }
        ensures { (place : places.LineInText)
            → OnOk result
            (self.new ≡ add_of is_of_declarations heads.now place form slots.now self.old) }
    {
        match (form, slots) {
            (Form::Event, _) => {
                self.events += 1;
                Ok(())
            }
            (Form::Port, [name, kind]) => self.push_port(
                alloc,
                name.word(),
                kind_number(heads, kind.word()),
            ),
            _ => Ok(()),
        }
    }

    fn push_port(&mut self, alloc: Global, name: &[u8], kind: u32) -> Result<(), AllocError>
        ensures { OnOk result (self.new ≡ with_port self.old name.now kind) }
    {
        self.port_names.push(Name::new(alloc, name)?)?;
        self.ports.push(kind)?;
        Ok(())
    }

    /// Adds a process kind.
    fn add_process(
        &mut self,
        place: &LineInText<'_, '_>,
        slots: &[Operand<'_>],
    ) -> Result<(), AllocError>
        requires { length slots.now ≤ 9 }
        ensures { OnOk result (self.new ≡ with_kind self.old (kind_of place.now slots.now)) }
    {
        self.kinds.push(Kind {
            params: count_given(slots) as u8,
            first: place.above().statements(),
            classes: classes_of(place.variables()),
        })?;
        Ok(())
    }

    /// Adds a process that runs from the start.
    fn add_start(
        &mut self,
        alloc: Global,
        heads: &ProcessLines<'_>,
        place: &LineInText<'_, '_>,
        slots: &[Operand<'_>],
    ) -> Result<(), AllocError>
        ensures { OnOk result (self.new ≡ add heads.now place.now form.Start slots.now self.old) }
    {
        if let [kind, args @ ..] = slots {
            self.starts.push(Start {
                kind: kind_number(heads, kind.word()),
                args: start_arguments(alloc, place, args)?,
            })?;
        }
        Ok(())
    }

    /// Adds an entry of the journal, a poster, or a value that the last poster posts.
    fn add_entry(
        &mut self,
        alloc: Global,
        place: &LineInText<'_, '_>,
        form: Form,
        slots: &[Operand<'_>],
    ) -> Result<(), AllocError>
        requires { Fits form slots.now }
        ensures { (heads : anywhere.ProcessLines)
            → OnOk result
            (self.new ≡ add_of is_of_entries heads place.now form slots.now self.old) }
    {
        match (form, slots) {
            (Form::After, [after, poster, serial, port, value]) => {
                self.push_arrival(Arrival {
                    after: natural(after),
                    poster: natural(poster) as u32,
                    serial: natural(serial) as u32,
                    port: number_declared(place, port.word()),
                    value: literal_of(value),
                })?;
            }
            (Form::Poster, _) => self.posters.push(List::new(alloc))?,
            (Form::Post, [port, value]) => self.push_post(Post {
                port: number_declared(place, port.word()),
                value: literal_of(value),
            })?,
            _ => {}
        }
        Ok(())
    }

    fn push_arrival(&mut self, arrival: Arrival) -> Result<(), AllocError>
        ensures { OnOk result (self.new ≡ with_arrival self.old arrival) }
    {
        self.journal.push(arrival)?;
        Ok(())
    }

    /// Adds a value to the last poster.
    fn push_post(&mut self, post: Post) -> Result<(), AllocError>
        ensures { OnOk result
            (self.new ≡ record self.old { posters = onto_last post self.old.posters }) }
    {
        if let Some(posts) = self.posters.last_mut() {
            posts.push(post)?;
        }
        Ok(())
    }

    /// Adds a statement, if the line is one.
    fn add_statement(
        &mut self,
        heads: &ProcessLines<'_>,
        place: &LineInText<'_, '_>,
        form: Form,
        slots: &[Operand<'_>],
    ) -> Result<(), AllocError>
        ensures { OnOk result
            (self.new
            ≡ with_statement self.old
            (statements.statement heads.now place.now form slots.now)) }
    {
        if let Some(statement) = statement(heads, place, form, slots) {
            self.code.push(statement)?;
        }
        Ok(())
    }

    /// The scenario that the text says: each statement is told where it goes on.
    pub fn finish(self, alloc: Global, text: &[u8]) -> Result<Scenario, AllocError>
        requires few { length self.code ≤ most_bytes }
        requires says { reads text.now ≡ Ok (with_links self) }
        ensures { IfOk result (λ scenario. scenario ≡ with_links self) }
    {
        let Draft {
            until,
            seed,
            events,
            resources,
            ports,
            port_names,
            starts,
            kinds,
            mut code,
            journal,
            posters,
        } = self;
        link(alloc, &mut code)?;
        let setup = Setup {
            until,
            events,
            resources: List::from_vec(resources),
            ports: List::from_vec(ports),
            starts: List::from_vec(starts),
        };
        Ok(Scenario::new(
            text,
            setup,
            seed,
            List::from_vec(port_names),
            List::from_vec(kinds),
            List::from_vec(code),
            List::from_vec(journal),
            List::from_vec(posters),
        ))
    }
}

/// Returns the number that the operand writes, without its sign, or 0 where it is no literal.
fn natural(slot: &Operand<'_>) -> u64
    ensures { result ≡ natural_of slot.now.word }
{
    literal_of(slot).unsigned_abs()
}

/// Returns the capacity that the operand gives, or 0 where it gives none.
fn capacity_of(most: i64, slot: &Operand<'_>) -> i64
    ensures { result ≡ capacity_of most slot.now.word }
{
    slot.capacity(most).unwrap_or(0)
}

/// The event that an `until event` names.
fn event_ahead(slot: &Operand<'_>) -> EventId
    ensures { result ≡ record { 0 = event_ahead slot.now } }
{
    match slot.role() {
        Role::EventAhead(Ahead::EventAt(above)) => EventId(u64::from(above) + 1),
        _ => EventId(0),
    }
}

/// How many variables the operands give.
fn count_given(slots: &[Operand<'_>]) -> usize
    ensures { result ≡ length (given_by slots.now) }
{
    slots
        .iter()
        .filter(|slot| matches!(slot.role(), Role::Gives(_) | Role::Parameter))
        .count()
}

/// The class of each variable by its number; `val`, which has the number 0, is a number.
fn classes_of(variables: &Names<'_, Class>) -> Classes
    ensures { result ≡ classes_of variables.now }
{
    let mut classes = Classes::new();
    for place in 0..variables.len().min(MOST_VARIABLES) {
        classes.set(place + 1, variables.at(place));
    }
    classes
}

/// The number that an argument of a start gives.
fn start_argument(place: &LineInText<'_, '_>, slot: &Operand<'_>) -> i64
    ensures { result ≡ start_argument_of place.now.above.declared slot.now }
{
    match slot.role() {
        Role::Names(_) => i64::from(number_declared(place, slot.word())) + 1,
        _ => literal_of(slot),
    }
}

/// The first 8 arguments of a start.
fn start_arguments(
    alloc: Global,
    place: &LineInText<'_, '_>,
    slots: &[Operand<'_>],
) -> Result<List<i64>, AllocError>
    ensures { IfOk result (λ args. args
        ≡ take 8 (map (start_argument_of place.now.above.declared) slots.now)) }
{
    let first = &slots[..slots.len().min(MOST_ARGUMENTS)];
    let mut args = List::new(alloc);
    for slot in first {
        args.push(start_argument(place, slot))?;
    }
    Ok(args)
}
