//! The state of a script.
ghost use Rattle.std.specs.Prelude.{◌≡◌, ℕ, ◌+◌, ◌-◌, ◌^◌, ◌<◌, ◌≤◌, pos, [], ◌∷◌, ◌++◌, length, replicate, slice_index_or, vec_len, IfOk, IsTrue, MatchOption};
ghost use Rattle.sim_types.specs.Throws.{error};
ghost use Rattle.sim_types.specs.declared.op.Op.TheVariants as op;
ghost use Rattle.sim_script_model.specs.Scripts.{Throwing, variable, set_variable, set_place, set_mode, tail_of, push_frame, pop_frame, stmt_at, value_of_num, value_of_arg, event_in, event_of_ref, process_of_ref};
ghost use Rattle.sim_script_model.specs.Needs.{last_variable, most_frames};
ghost use Rattle.sim_script_model.specs.Polls.{store, given_by, last_stmt, open_with, catch_by, leave_try, leave_loop, end_by_mode, do_stmt, take_in, unwind, ask_in_mode, script_turn};
ghost use Rattle.sim_script_law.specs.Ready.{event_is_small, keeps_given, has_room, scope_finds_room, can_take, can_do, can_leave, can_ask};
ghost use Rattle.sim_script_law.specs.ScriptMembers.{script_holds};
ghost use Rattle.sim_script.specs.Kept.{frame_of, mode_of, script_of_kind, MarksNumbers};
ghost use Rattle.sim_script.specs.StatementGroups.{asked_where};

use crate::frames::{Frame, Frames};
use crate::mode::Mode;
use sim_scenario::Scenario;
use sim_types::{
    Class, Classes, ERROR, EventId, Kind, Num, Op, ProcId, Ref, Signal, SpawnArg, Stmt, Throw,
};
use std::alloc::{AllocError, Global};
use std::marker::Model;
use std::snapshot::Snapshot;

/// A process that does the statements of its kind.
#[derive(Drop)]
pub struct Script {
    /// The scenario that its kind and its statements stand in, which contracts alone see.
    scenario: Snapshot<Scenario>,
    /// The statement that comes next.
    place: usize,
    mode: Mode,
    /// `val`, then the parameters, then the others, up to the last that is given a value. The others of the 64 are 0. An
    /// event is held by its number.
    variables: Vec<i64>,
    frames: Frames,
    /// Which of the variables that are kept are numbers, by their bits.
    numbers: u64,
    me: ProcId,
    /// Its kind, the classes of its variables, and what it asked for last, which contracts alone see.
    kind: Snapshot<u32>,
    classes: Snapshot<Classes>,
    asked: Snapshot<Option<Snapshot<Op>>>,
}

impl Model for Script {
    ghost use Rattle.std.specs.Prelude.{◌≡◌, ◌+◌, ◌<◌, ◌^◌, vec_len};
    ghost use Rattle.sim_script_model.specs.Scripts.{Script};
    ghost use Rattle.sim_script_model.specs.Needs.{last_variable, most_frames};
    ghost use Rattle.sim_script.specs.Kept.{mode_of, asked_of, variables_with, MarksNumbers};

    ghost Value = { Script };

    ghost view = { λ a. record {
      scenario = a.scenario.value;
      me = a.me;
      kind = a.kind.value;
      classes = a.classes.value;
      place = a.place;
      variables = variables_with (last_variable a.scenario.value) a.variables.items;
      frames = a.frames.blocks;
      mode = mode_of a.mode;
      asked = asked_of a.asked.value;
    } };

    ghost invariant = { λ a. (a.me.0 < 2 ^ 63)
        × (vec_len a.variables ≡ last_variable a.scenario.value + 1)
        × (a.frames.room ≡ most_frames a.scenario.value.code)
        × MarksNumbers (vec_len a.variables) a.numbers a.classes.value };
}

impl Script {
    /// A script of a scenario that is of no process kind. All memory that it will need is taken here.
    pub(crate) fn new(alloc: Global, scenario: &Scenario) -> Result<Script, AllocError>
        ensures { IfOk result (λ script. script.scenario ≡ scenario.now) }
    {
        let variables = scenario.last_variable() + 1;
        Ok(Script {
            scenario: Snapshot::of(scenario),
            place: 0,
            mode: Mode::Running,
            frames: Frames::new(alloc, scenario.most_frames())?,
            variables: Vec::from_slice(alloc, &[0; 64][..variables])?,
            numbers: u64::MAX,
            me: ProcId(0),
            kind: Snapshot::of(&0),
            classes: Snapshot::of(&Classes::new()),
            asked: Snapshot::of(&None),
        })
    }

    /// Stands at the begin of a process of a kind, which has not been told its number.
    pub(crate) fn begin(&mut self, kind: u32, declared: &Kind, args: &[i64])
        requires { length args.now ≤ last_variable self.old.scenario }
        ensures { self.new ≡ script_of_kind self.old.scenario kind declared.now args.now }
    {
        self.place = declared.first as usize;
        self.mode = Mode::Running;
        begin_variables(&mut self.variables, args);
        self.frames.clear();
        self.numbers = numbers_of(&declared.classes, self.variables.len());
        self.me = ProcId(0);
        self.kind = Snapshot::of(&kind);
        self.classes = Snapshot::of(&declared.classes);
        self.asked = Snapshot::of(&None);
    }

    /// Its process has this number.
    pub(crate) fn set_number(&mut self, id: ProcId)
        requires { id.0 < 2 ^ 63 }
        ensures { self.new ≡ record (self.old) { me = id } }
    {
        self.me = id;
    }

    /// The event in the place of a variable, or event 0 where the variable is a number.
    pub(crate) fn held(&self, at: u8) -> EventId
        requires { at < 64 }
        ensures { result ≡ slice_index_or (script_holds self.now) at (record { 0 = 0 }) }
    {
        if (self.numbers >> at) & 1 == 1 {
            EventId(0)
        } else {
            self.event_in(at)
        }
    }

    /// How many variables are kept, counted from the first: 0 stands in all others.
    pub(crate) fn kept_variables(&self) -> u8
        ensures few { result ≤ 64 }
        ensures rest { (at : ℕ) → result ≤ at
            → slice_index_or (script_holds self.now) at (record { 0 = 0 }) ≡ record { 0 = 0 } }
    {
        self.variables.len() as u8
    }

    /// What a number of a statement stands for.
    pub(crate) fn number(&self, number: Num, time: i64) -> i64
        ensures { result ≡ value_of_num time self.now number }
    {
        match number {
            Num::Lit(value) => value,
            Num::Var(at) => self.variable(at),
            Num::Now => time,
        }
    }

    // What a variable holds: 0 where it is given no value.
    fn variable(&self, at: u8) -> i64
        ensures { result ≡ variable self.now at }
    {
        self.variables.get(usize::from(at)).copied().unwrap_or(0)
    }

    /// The event that a variable holds.
    pub(crate) fn event_in(&self, at: u8) -> EventId
        ensures { result ≡ event_in self.now at }
    {
        EventId(self.variable(at).unsigned_abs())
    }

    /// The event that a statement names.
    pub(crate) fn event(&self, named: Ref) -> EventId
        ensures { result ≡ event_of_ref self.now named }
    {
        match named {
            Ref::Var(at) => self.event_in(at),
            Ref::Named(number) => EventId(number),
            Ref::Me => EventId(self.me.0),
        }
    }

    /// The process that a statement names.
    pub(crate) fn process(&self, named: Ref) -> ProcId
        ensures { result ≡ process_of_ref self.now named }
    {
        ProcId(self.event(named).0)
    }

    /// What a process is given.
    pub(crate) fn argument(&self, given: SpawnArg, time: i64) -> i64
        requires { IsTrue (event_is_small self.now given) }
        ensures { result ≡ value_of_arg time self.now given }
    {
        match given {
            SpawnArg::Num(number) => self.number(number, time),
            SpawnArg::Ref(Ref::Var(at)) => self.variable(at),
            SpawnArg::Ref(Ref::Named(number)) => number as i64,
            SpawnArg::Ref(Ref::Me) => self.me.0 as i64,
        }
    }

    /// The innermost block that it stands in.
    pub(crate) fn innermost(&self) -> Option<Frame>
        ensures innermost { MatchOption result (self.now.frames ≡ [])
            (λ frame. self.now.frames ≡ frame_of frame ∷ tail_of self.now.frames) }
        ensures few { length self.now.frames ≤ most_frames self.now.scenario.code }
    {
        self.frames.innermost()
    }

    /// Gives a variable a value.
    pub(crate) fn set_variable(&mut self, at: u8, value: i64)
        requires { at ≤ last_variable self.old.scenario }
        ensures { self.new ≡ set_variable at value self.old }
    {
        self.variables[usize::from(at)] = value;
    }

    /// Goes on at a statement.
    pub(crate) fn go_to(&mut self, place: u32)
        ensures { self.new ≡ set_place place self.old }
    {
        self.place = place as usize;
    }

    /// Goes on in another way.
    pub(crate) fn set_mode(&mut self, mode: Mode)
        ensures { self.new ≡ set_mode (mode_of mode) self.old }
    {
        self.mode = mode;
    }

    /// Throws this.
    pub(crate) fn throw(&mut self, thrown: Throw)
        ensures { self.new ≡ set_mode (Throwing thrown) self.old }
    {
        self.mode = Mode::Throwing {
            kind: thrown.kind,
            value: thrown.value,
        };
    }

    /// Throws an error of its own.
    pub(crate) fn throw_error(&mut self, number: u8)
        ensures { self.new
            ≡ set_mode (Throwing (record { kind = error; value = pos number })) self.old }
    {
        self.throw(Throw {
            kind: ERROR,
            value: i64::from(number),
        });
    }

    /// Enters a block.
    pub(crate) fn enter(&mut self, frame: Frame)
        requires { IsTrue (has_room self.old) }
        ensures { self.new ≡ push_frame (frame_of frame) self.old }
    {
        self.frames.push(frame);
    }

    /// Leaves its innermost block.
    pub(crate) fn leave(&mut self)
        ensures { self.new ≡ pop_frame self.old }
    {
        self.frames.pop();
    }

    /// The variable that the last statement gives to what it makes, counts or draws, where there is one.
    pub(crate) fn given(&self, code: &[Stmt]) -> Option<u8>
        ensures { result ≡ given_by (last_stmt code.now self.now) }
    {
        match code.get(self.place.saturating_sub(1)) {
            Some(last) => given_by(last),
            None => None,
        }
    }

    /// Is polled: takes in what it is told, and goes on. Whether it asks for an operation, which is written then: it is large,
    /// and nothing is written where it asks for nothing.
    #[inline(always)]
    pub(crate) fn turn(&mut self, code: &[Stmt], time: i64, signal: Signal, asked: &mut Op) -> bool
        requires take { IsTrue (can_take code.now signal self.old) }
        requires ask { IsTrue (can_ask code.now (take_in code.now signal self.old)) }
        ensures { (asked_where result asked.new, self.new)
            ≡ script_turn code.now self.old time signal }
    {
        self.take_in(code, signal);
        let asks = self.ask(code, time, asked);
        self.asked = Snapshot::of(&Some(last_asked(asks, asked)));
        asks
    }

    // Takes in what it is told.
    #[inline(always)]
    fn take_in(&mut self, code: &[Stmt], signal: Signal)
        requires { IsTrue (can_take code.now signal self.old) }
        ensures { self.new ≡ take_in code.now signal self.old }
    {
        match signal {
            Signal::Begin | Signal::Done => {}
            Signal::Value(value) => self.set_variable(0, value),
            Signal::Thrown(thrown) => self.throw(thrown),
            Signal::Raised(number) => self.throw_error(number),
            Signal::Number(number) => self.store(code, number),
            Signal::Made(event) => {
                self.store(code, event.0 as i64);
                self.open_scope(code, event);
            }
        }
    }

    // The number goes into the variable that the last statement gives it, where there is one.
    fn store(&mut self, code: &[Stmt], value: i64)
        requires { IsTrue (keeps_given self.old (last_stmt code.now self.old)) }
        ensures { self.new ≡ store (given_by (last_stmt code.now self.old)) value self.old }
    {
        if let Some(to) = self.given(code) {
            self.set_variable(to, value);
        }
    }

    // Where the last statement was a `with`, its scope is open now.
    fn open_scope(&mut self, code: &[Stmt], request: EventId)
        requires { IsTrue (scope_finds_room self.old (last_stmt code.now self.old)) }
        ensures { self.new ≡ open_with (last_stmt code.now self.old) request self.old }
    {
        if let Some(Stmt::With { .. }) = code.get(self.place.saturating_sub(1)) {
            self.enter(Frame::InScope(request));
        }
    }

    // Does the statement at its place, or leaves a block.
    #[inline(always)]
    fn ask(&mut self, code: &[Stmt], time: i64, asked: &mut Op) -> bool
        requires { IsTrue (can_ask code.now self.old) }
        ensures { (asked_where result asked.new, self.new) ≡ ask_in_mode code.now time self.old }
    {
        match self.mode {
            Mode::Running => self.go_on(code, time, asked),
            Mode::Throwing { .. } | Mode::Breaking | Mode::Finishing(_) => self.unwind(code, asked),
        }
    }

    // Does the statement at its place.
    #[inline(always)]
    fn go_on(&mut self, code: &[Stmt], time: i64, asked: &mut Op) -> bool
        requires { IsTrue (can_do code.now self.old) }
        ensures { (asked_where result asked.new, self.new) ≡ do_stmt time
            (set_place (self.old.place + 1) self.old) (stmt_at code.now self.old.place) }
    {
        let statement = &code[self.place];
        self.place += 1;
        self.do_statement(statement, time, asked)
    }

    // Leaves the innermost block, for the reason that the mode tells, or ends.
    #[inline(never)]
    fn unwind(&mut self, code: &[Stmt], asked: &mut Op) -> bool
        requires { IsTrue (can_leave code.now self.old self.old.frames) }
        ensures { (asked_where result asked.new, self.new)
            ≡ unwind code.now self.old self.old.frames }
    {
        match self.innermost() {
            None => {
                self.end(asked);
                true
            }
            Some(Frame::InScope(_)) => {
                self.leave_scope(asked);
                true
            }
            Some(Frame::InTry(catch)) => {
                self.leave();
                self.leave_try(code, catch);
                false
            }
            Some(Frame::InLoop(past) | Frame::InRepeat(past, _)) => {
                self.leave();
                self.leave_loop(past);
                false
            }
        }
    }

    /// Leaves its innermost block, which is a scope, and asks for that.
    #[inline(never)]
    pub(crate) fn leave_scope(&mut self, asked: &mut Op)
        ensures asked { asked.new ≡ op.Leave }
        ensures left { self.new ≡ pop_frame self.old }
    {
        self.leave();
        *asked = Op::Leave;
    }

    // What is thrown is caught by the line of this try, and it goes on behind.
    fn leave_try(&mut self, code: &[Stmt], catch: u32)
        requires { IsTrue (keeps_given self.old (stmt_at code.now catch)) }
        ensures { self.new ≡ leave_try code.now catch self.old.mode self.old }
    {
        if let Mode::Throwing { kind, value } = self.mode {
            self.catch(code, catch, Throw { kind, value });
            self.place = catch as usize + 1;
            self.mode = Mode::Running;
        }
    }

    // The variables of the catch line get what was thrown.
    fn catch(&mut self, code: &[Stmt], at: u32, thrown: Throw)
        requires { IsTrue (keeps_given self.old (stmt_at code.now at)) }
        ensures { self.new ≡ catch_by (stmt_at code.now at) thrown self.old }
    {
        if let Some(Stmt::Catch { kind, value, .. }) = code.get(at as usize) {
            self.set_variable(*kind, i64::from(thrown.kind));
            self.set_variable(*value, thrown.value);
        }
    }

    // A break goes no further than this loop.
    fn leave_loop(&mut self, past: u32)
        ensures { self.new ≡ leave_loop past self.old.mode self.old }
    {
        if let Mode::Breaking = self.mode {
            self.go_to(past);
            self.set_mode(Mode::Running);
        }
    }

    // No block is left: it ends.
    fn end(&self, asked: &mut Op)
        ensures { asked.new ≡ end_by_mode self.now.mode }
    {
        match self.mode {
            Mode::Throwing { kind, value } => *asked = Op::Die(Throw { kind, value }),
            Mode::Finishing(value) => *asked = Op::Finish(value),
            Mode::Running | Mode::Breaking => *asked = Op::Nop,
        }
    }
}

/// Asks for nothing. What writes an operation clears the memory of a whole one first, so a poll that asks for something is
/// kept free of this.
#[inline(never)]
pub(crate) fn ask_nothing(asked: &mut Op)
    ensures { asked.new ≡ op.Nop }
{
    *asked = Op::Nop;
}

/// What a script asked for that tells whether it asked for an operation.
fn last_asked(asks: bool, asked: &Op) -> Snapshot<Op>
    ensures { result.value ≡ asked_where asks asked.now }
{
    if asks {
        Snapshot::of(asked)
    } else {
        Snapshot::of(&Op::Nop)
    }
}

/// The variable that a statement gives to what it makes, counts or draws.
fn given_by(statement: &Stmt) -> Option<u8>
    ensures { result ≡ given_by statement.now }
{
    match statement {
        Stmt::Count { to, .. }
        | Stmt::Timer { to, .. }
        | Stmt::Fresh { to }
        | Stmt::All { to, .. }
        | Stmt::Any { to, .. }
        | Stmt::Has { to, .. }
        | Stmt::With { to, .. }
        | Stmt::Draw { to, .. } => Some(*to),
        Stmt::Spawn { to, .. } | Stmt::Put { to, .. } | Stmt::Get { to, .. } => *to,
        _ => None,
    }
}

/// The variables of a process that begins: `val`, its arguments, and 0 in all others.
fn begin_variables(variables: &mut Vec<i64>, args: &[i64])
    requires { length args.now + 1 ≤ vec_len variables.old }
    ensures { variables.new.items ≡ pos 0 ∷ args.now
        ++ replicate (vec_len variables.old - 1 - length args.now) (pos 0) }
{
    variables.fill(0);
    for (at, value) in args.iter().enumerate() {
        variables[at + 1] = *value;
    }
}

/// Which of the variables that are kept are numbers, by their bits, of the classes of all 64.
fn numbers_of(classes: &Classes, kept: usize) -> u64
    requires { kept ≤ 64 }
    ensures { MarksNumbers kept result classes.now }
{
    let mut numbers = 0;
    for at in 0..kept {
        if let Class::Number = classes.get(at) {
            numbers |= 1 << at;
        }
    }
    numbers
}
