//! A run under way: it goes on by turns and arrivals, and each line is written as its unit gives it.
ghost use Rattle.std.specs.Prelude.{◌≡◌, ◌+◌, ◌-◌, ◌<◌, ◌≤◌, ◌==◌, [], ◌∷◌, length, true, false, ◌+ℤ◌, nat_lt, if◌then◌else◌, IsTrue, IfOk, OnOk};
ghost use Rattle.sim_types.specs.declared.line.Line.TheVariants as line;
ghost use Rattle.sim_machine.specs.State.{State};
ghost use Rattle.sim_machine.specs.Runs.{opening, logged, total};
ghost use Rattle.sim_machine.specs.Units.{arrive};
ghost use Rattle.sim_outside.specs.Writes.{IsUnflushed, Writes};
ghost use Rattle.sim_steps_model.specs.PartsOf.{plan_of};
ghost use Rattle.sim_steps_model.specs.Resting.{CanStep, rest_in};
ghost use Rattle.sim_script_model.specs.Scripts.{Script};
ghost use Rattle.sim_script_law.specs.ScriptMembers.{script_body};
ghost use Rattle.sim_trace.specs.Texts.{line_text};
ghost use Rattle.sim_engine.specs.Counting.{IsWithin};
ghost use Rattle.sim_writing.specs.RunFaults.{is_write};
ghost use Rattle.sim_engine.specs.Sessions.{IsAt, GoesOn, turn_of, takes_arrivals, IsSettled, is_under_way, steps_in, IsBusyBetween, text_of_steps, end_in, report_of};

use crate::report::Report;
use sim_kernel::{Kernel, Rest, Unit, empty_end};
use sim_outside::{Failed, Sink};
use sim_scenario::Scenario;
use sim_script::Script;
use sim_trace::LineBuf;
use sim_types::{End, Line, Summary, Until};
use sim_writing::{RunFault as EngineFault, write_line};
use std::alloc::{AllocError, Global};
use std::marker::Model;

/// Where a run under way stands.
#[derive(Clone, Copy, Debug, PartialEq, Eq)]
pub enum Turn {
    /// Nothing is being done, an event is due, and a unit may be made.
    Idle,
    /// Nothing is being done, and no event is due. What arrives is taken where a unit may be made.
    Empty,
    /// It makes no more units: it was stopped, it crashed, or all its units are spent.
    Over(End),
}

/// A run under way. It must be spent by `close`.
pub struct Session {
    kernel: Kernel<Script>,
    until: Until,
    /// How many units it has made, and may make.
    units: u32,
    limit: u32,
    /// Whether something arrived when no unit was left for it.
    refused: bool,
    /// The number and the sum of what was logged.
    logs: u64,
    total: i128,
    /// The line that was written last.
    buffer: LineBuf,
}

impl Model for Session {
    ghost use Rattle.sim_engine.specs.Sessions.{SessionOf};
    ghost use Rattle.sim_engine.specs.Counting.{CountsRightly};

    ghost Value = { SessionOf };

    ghost view = { λ a. record {
      parts = a.kernel.parts;
      units = a.units;
      limit = a.limit;
      refused = a.refused;
      logs = a.logs;
      total = a.total;
    } };

    ghost invariant = { λ a. CountsRightly a.kernel a.until a.units a.limit a.logs a.total };
}

impl Session {
    /// Opens a run of the scenario, with the random words of this seed, in which at most so many units are made.
    pub fn new(
        alloc: Global,
        scenario: &Scenario,
        seed: u64,
        limit: u32,
    ) -> Result<Session, AllocError>
        ensures code { IfOk result (λ x. x.parts.code ≡ scenario.now) }
        ensures setup { IfOk result (λ x. x.parts.setup ≡ scenario.now.setup) }
        ensures seed { IfOk result (λ x. x.parts.seed ≡ seed) }
        ensures units { IfOk result (λ x. x.units ≡ 0) }
        ensures limit { IfOk result (λ x. x.limit ≡ limit) }
        ensures none_refused { IfOk result (λ x. x.refused ≡ false) }
        ensures opening { IfOk result (λ x. IsAt x (opening (plan_of script_body x.parts))) }
        ensures settled { IfOk result (λ x. IsSettled x) }
    {
        let kernel = Kernel::<Script>::new(alloc, scenario, scenario.setup(), seed)?;
        Ok(Session {
            kernel,
            until: scenario.setup().until,
            units: 0,
            limit,
            refused: false,
            logs: 0,
            total: 0,
            buffer: LineBuf::new(),
        })
    }

    /// Where it stands.
    pub fn state(&self) -> Turn
        ensures { result ≡ turn_of self.now }
    {
        if self.refused {
            return Turn::Over(End::Limit);
        }
        match self.kernel.rest() {
            Rest::Idle if self.units < self.limit => Turn::Idle,
            Rest::Idle | Rest::Busy => Turn::Over(End::Limit),
            Rest::Empty => Turn::Empty,
            Rest::Over(why) => Turn::Over(why),
        }
    }

    /// Makes a unit, and goes on until the run is idle or empty again, is over, or has spent all its units. The lines are
    /// written. After a fault it may only be closed.
    #[inline(always)]
    pub fn turn<K: Sink>(&mut self, scenario: &Scenario, out: &mut K) -> Result<Turn, EngineFault>
        requires code { scenario.now ≡ self.old.parts.code }
        requires idle { turn_of self.old ≡ Turn.Idle }
        ensures answer { IfOk result (λ turn. turn ≡ turn_of self.new) }
        ensures goes_on { GoesOn self.old self.new }
        ensures none_refused { self.new.refused ≡ false }
        ensures within { self.new.units ≤ self.old.limit }
        ensures never_fewer { self.old.units ≤ self.new.units }
        ensures more { OnOk result (self.old.units < self.new.units) }
        // All units between the first and the last are of one event, and the last one ends that or is the last of all.
        ensures busy { (t : State Script) → IsAt self.old t →
            IsBusyBetween self.old.parts (self.new.units - self.old.units) t }
        ensures settled { OnOk result (IsSettled self.new) }
        // From each state that it stood for.
        ensures steps { (t : State Script) → IsAt self.old t →
            IsAt self.new (steps_in self.old.parts (self.new.units - self.old.units) t) }
        ensures writes { (t : State Script) → IsAt self.old t →
            Writes is_write (K.tells out.old) (K.tells out.new) result
            (text_of_steps scenario.now.port_names self.old.parts
            (self.new.units - self.old.units) t) }
        ensures unflushed { IsUnflushed (K.tells out.old) (K.tells out.new) }
    {
        // (called at one place alone, since all of it is put in there)
        loop {
            self.go_on(scenario, out)?;
            if !self.is_under_way() {
                return Ok(self.state());
            }
        }
    }

    /// A value comes in by a port, if a unit is left for that: whether one was. The line is written. After a fault it may
    /// only be closed.
    pub fn arrive<K: Sink>(
        &mut self,
        scenario: &Scenario,
        port: u32,
        value: i64,
        out: &mut K,
    ) -> Result<bool, EngineFault>
        requires code { scenario.now ≡ self.old.parts.code }
        requires takes { IsTrue (takes_arrivals (turn_of self.old)) }
        requires port { port < length self.old.parts.setup.ports }
        ensures answer { IfOk result (λ taken. taken ≡ nat_lt self.old.units self.old.limit) }
        ensures refused { self.old.units ≡ self.old.limit →
            self.new ≡ record self.old { refused = true } }
        ensures goes_on { GoesOn self.old self.new }
        ensures none_refused { self.old.units < self.old.limit → self.new.refused ≡ false }
        ensures units { OnOk result (self.old.units < self.old.limit →
            self.new.units ≡ self.old.units + 1) }
        ensures within { self.new.units ≤ self.old.limit }
        ensures at_most_one { self.new.units ≤ self.old.units + 1 }
        ensures never_fewer { self.old.units ≤ self.new.units }
        // From each state that it stood for, where a unit was made, and where none was.
        ensures arrives { (t : State Script) → IsAt self.old t → self.old.units < self.new.units →
            IsAt self.new (arrive (plan_of script_body self.old.parts) port value t) }
        ensures stays { (t : State Script) → IsAt self.old t → self.new.units ≡ self.old.units →
            IsAt self.new t }
        ensures settled { (t : State Script) → IsAt self.old t → IsSettled self.new }
        ensures writes { (t : State Script) → IsAt self.old t →
            Writes is_write (K.tells out.old) (K.tells out.new) result
            (if nat_lt self.old.units self.new.units then line_text scenario.now.port_names
            (Line.Arrive self.old.parts.processed value port) else []) }
        ensures unflushed { IsUnflushed (K.tells out.old) (K.tells out.new) }
    {
        if self.units == self.limit {
            self.refused = true;
            return Ok(false);
        }
        let line = self.kernel.arrive(scenario, port, value)?;
        self.units += 1;
        self.tell(&line, scenario, out)?;
        Ok(true)
    }

    /// How many events were processed.
    pub fn processed(&self) -> u64
        ensures { result ≡ self.now.parts.processed }
    {
        self.kernel.processed()
    }

    /// How many units were made.
    pub fn units(&self) -> u32
        ensures { result ≡ self.now.units }
    {
        self.units
    }

    /// How many units may be made.
    pub fn limit(&self) -> u32
        ensures { result ≡ self.now.limit }
    {
        self.limit
    }

    /// Tells what it has come to.
    pub fn report(&self) -> Report
        ensures report { result ≡ report_of self.now }
        ensures counts { IsWithin self.now.limit result.summary }
    {
        let summary = Summary {
            end: self.end(),
            time: self.kernel.now(),
            processed: self.kernel.processed(),
            logs: self.logs,
            total: self.total,
        };
        Report {
            summary,
            units: self.units,
        }
    }

    /// Spends it, and tells what it came to.
    pub fn close(self) -> Report
        ensures report { result ≡ report_of self }
        ensures counts { IsWithin self.limit result.summary }
    {
        let report = self.report();
        let Session {
            kernel,
            until: _,
            units: _,
            limit: _,
            refused: _,
            logs: _,
            total: _,
            buffer: _,
        } = self;
        kernel.finish();
        report
    }

    /// How it ends where no more units are made.
    fn end(&self) -> End
        ensures { result ≡ end_in self.now }
    {
        if self.refused {
            return End::Limit;
        }
        match self.kernel.rest() {
            Rest::Busy | Rest::Idle => End::Limit,
            Rest::Empty => empty_end(self.until),
            Rest::Over(why) => why,
        }
    }

    /// Whether an event is being processed and a unit may be made.
    #[inline(always)]
    fn is_under_way(&self) -> bool
        ensures { result ≡ is_under_way self.now }
    {
        self.units < self.limit && matches!(self.kernel.rest(), Rest::Busy)
    }

    /// Makes at least one unit in which nothing arrives, and as many as are left at most: all but the last are such in which a
    /// process asks for nothing. The line of the last is written if it has one.
    #[inline(always)]
    fn go_on<K: Sink>(&mut self, scenario: &Scenario, out: &mut K) -> Result<(), EngineFault>
        requires code { scenario.now ≡ self.old.parts.code }
        requires can { CanStep self.old.parts }
        requires left { self.old.units < self.old.limit }
        ensures goes_on { GoesOn self.old self.new }
        ensures refused { self.new.refused ≡ self.old.refused }
        ensures within { self.new.units ≤ self.old.limit }
        ensures never_fewer { self.old.units ≤ self.new.units }
        ensures more { OnOk result (self.old.units < self.new.units) }
        ensures busy { (t : State Script) → IsAt self.old t →
            IsBusyBetween self.old.parts (self.new.units - self.old.units) t }
        ensures steps { (t : State Script) → IsAt self.old t →
            IsAt self.new (steps_in self.old.parts (self.new.units - self.old.units) t) }
        ensures writes { (t : State Script) → IsAt self.old t →
            Writes is_write (K.tells out.old) (K.tells out.new) result
            (text_of_steps scenario.now.port_names self.old.parts
            (self.new.units - self.old.units) t) }
        ensures unflushed { IsUnflushed (K.tells out.old) (K.tells out.new) }
    {
        let units = self.kernel.units(scenario, self.limit - self.units)?;
        self.units += units.made;
        match units.last {
            Unit::Quiet => Ok(()),
            Unit::Line(line) => {
                self.tell(&line, scenario, out)?;
                Ok(())
            }
        }
    }

    /// Counts a line that the last unit gave, and writes it.
    fn tell<K: Sink>(&mut self, line: &Line, scenario: &Scenario, out: &mut K) -> Result<(), Failed>
        requires one_less { self.old.logs < self.old.units }
        ensures logs { self.new ≡ record self.old {
          logs = self.old.logs + length (logged (line.now ∷ []));
          total = self.old.total +ℤ total (logged (line.now ∷ []));
        } }
        ensures writes { Writes (λ _. true) (K.tells out.old) (K.tells out.new) result
            (line_text scenario.now.port_names line.now) }
        ensures unflushed { IsUnflushed (K.tells out.old) (K.tells out.new) }
    {
        if let Line::Log { value, .. } = line {
            self.logs += 1;
            self.total += i128::from(*value);
        }
        write_line(line, scenario.port_names(), &mut self.buffer, out)
    }
}
