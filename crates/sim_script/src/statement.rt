//! How a script does a statement.
ghost use Rattle.std.specs.Prelude.{◌≡◌, ◌≤◌, IsTrue, map};
ghost use Rattle.std.specs.List.{list_all};
ghost use Rattle.sim_types.specs.declared.op.Op.TheVariants as op;
ghost use Rattle.sim_script_model.specs.Scripts.{event_of_ref, value_of_arg};
ghost use Rattle.sim_script_model.specs.Polls.{answer_to, do_stmt, end_repeat};
ghost use Rattle.sim_script_model.specs.Needs.{last_variable};
ghost use Rattle.sim_script_law.specs.Ready.{event_is_small, events_are_small, enters_room, keeps_given};
ghost use Rattle.sim_script.specs.Kept.{answer_of};
ghost use Rattle.sim_script.specs.StatementGroups.{is_of_changes, is_of_blocks, is_of_events, is_of_processes, is_of_resources, is_of_operations, asked_where};

use crate::arithmetic::compute;
use crate::frames::Frame;
use crate::mode::Mode;
use crate::script::Script;
use sim_types::{Args, FAILURE, Members, Op, Refs, SpawnArgs, Stmt, Throw};

impl Script {
    /// Does a statement. The script stands behind it already. Whether it asks for an operation, which is written then.
    #[inline(always)]
    pub(crate) fn do_statement(&mut self, statement: &Stmt, time: i64, asked: &mut Op) -> bool
        requires variables { IsTrue (keeps_given self.old statement.now) }
        requires small { IsTrue (events_are_small self.old statement.now) }
        requires room { IsTrue (enters_room self.old statement.now) }
        ensures { (asked_where result asked.new, self.new)
            ≡ do_stmt time self.old statement.now }
    {
        match statement {
            Stmt::Let { .. }
            | Stmt::Raise { .. }
            | Stmt::Finish { .. }
            | Stmt::If { .. }
            | Stmt::Else { .. }
            | Stmt::Break => {
                self.change(statement, time);
                false
            }
            Stmt::Loop { .. }
            | Stmt::Repeat { .. }
            | Stmt::Try { .. }
            | Stmt::Catch { .. }
            | Stmt::EndLoop { .. }
            | Stmt::EndRepeat { .. } => {
                self.change_blocks(statement, time);
                false
            }
            Stmt::EndPlain => false,
            Stmt::EndWith => {
                self.leave_scope(asked);
                true
            }
            _ => {
                self.operation(statement, time, asked);
                true
            }
        }
    }

    // The statements that ask for an operation and change nothing themselves.
    #[inline(always)]
    fn operation(&self, statement: &Stmt, time: i64, asked: &mut Op)
        requires group { IsTrue (is_of_operations statement.now) }
        requires small { IsTrue (events_are_small self.now statement.now) }
        ensures { (asked.new, self.now) ≡ do_stmt time self.now statement.now }
    {
        match statement {
            Stmt::Sleep { .. }
            | Stmt::Spawn { .. }
            | Stmt::Interrupt { .. }
            | Stmt::Drop { .. }
            | Stmt::EndProcess
            | Stmt::Log { .. }
            | Stmt::Draw { .. } => self.of_processes(statement, time, asked),
            Stmt::Count { .. }
            | Stmt::With { .. }
            | Stmt::Release { .. }
            | Stmt::Put { .. }
            | Stmt::Get { .. }
            | Stmt::Cancel { .. } => self.of_resources(statement, time, asked),
            _ => self.of_events(statement, time, asked),
        }
    }

    // The statements that change a variable, the mode or the place.
    fn change(&mut self, statement: &Stmt, time: i64)
        requires group { IsTrue (is_of_changes statement.now) }
        requires variables { IsTrue (keeps_given self.old statement.now) }
        ensures { (op.Nop, self.new) ≡ do_stmt time self.old statement.now }
    {
        match statement {
            Stmt::Let { to, op, a, b } => {
                let answer = compute(*op, self.number(*a, time), self.number(*b, time));
                self.answer(*to, answer);
            }
            Stmt::Raise { code } => {
                let value = self.number(*code, time);
                self.throw(Throw {
                    kind: FAILURE,
                    value,
                });
            }
            Stmt::Finish { value } => {
                let value = self.number(*value, time);
                self.set_mode(Mode::Finishing(value));
            }
            Stmt::If { test, other } => {
                if self.number(*test, time) == 0 {
                    self.go_to(*other);
                }
            }
            Stmt::Else { past } => self.go_to(*past),
            Stmt::Break => self.set_mode(Mode::Breaking),
            _ => unreachable!(),
        }
    }

    // A variable gets the number, or the error is thrown.
    fn answer(&mut self, to: u8, answer: Result<i64, u8>)
        requires { to ≤ last_variable self.old.scenario }
        ensures { self.new ≡ answer_to to (answer_of answer) self.old }
    {
        match answer {
            Ok(value) => self.set_variable(to, value),
            Err(number) => self.throw_error(number),
        }
    }

    // The statements that enter a block, or come to its end.
    #[inline(always)]
    fn change_blocks(&mut self, statement: &Stmt, time: i64)
        requires group { IsTrue (is_of_blocks statement.now) }
        requires room { IsTrue (enters_room self.old statement.now) }
        ensures { (op.Nop, self.new) ≡ do_stmt time self.old statement.now }
    {
        match statement {
            Stmt::Loop { past } => self.enter(Frame::InLoop(*past)),
            Stmt::Repeat { times, past } => {
                let times = self.number(*times, time);
                if times < 1 {
                    self.go_to(*past);
                } else {
                    self.enter(Frame::InRepeat(*past, times));
                }
            }
            Stmt::Try { catch } => self.enter(Frame::InTry(*catch)),
            Stmt::Catch { past, .. } => {
                self.leave();
                self.go_to(*past);
            }
            Stmt::EndLoop { first } => self.go_to(*first),
            Stmt::EndRepeat { first } => self.end_repeat(*first),
            _ => unreachable!(),
        }
    }

    // The end of a repeat: once more while turns are left.
    fn end_repeat(&mut self, first: u32)
        ensures { self.new ≡ end_repeat first self.old.frames self.old }
    {
        if let Some(Frame::InRepeat(past, count)) = self.innermost() {
            self.leave();
            if 1 < count {
                self.enter(Frame::InRepeat(past, count - 1));
                self.go_to(first);
            }
        }
    }

    // The statements that ask something of an event or a condition.
    fn of_events(&self, statement: &Stmt, time: i64, asked: &mut Op)
        requires group { IsTrue (is_of_events statement.now) }
        ensures { (asked.new, self.now) ≡ do_stmt time self.now statement.now }
    {
        match statement {
            Stmt::Timer { delay, value, .. } => {
                *asked = Op::Timeout(self.number(*delay, time), self.number(*value, time));
            }
            Stmt::Fresh { .. } => *asked = Op::NewEvent,
            Stmt::Wait { on } => *asked = Op::Wait(self.event(*on)),
            Stmt::Succeed { on, value } => {
                *asked = Op::Succeed(self.event(*on), self.number(*value, time));
            }
            Stmt::Fail { on, value } => {
                *asked = Op::Fail(self.event(*on), self.number(*value, time));
            }
            Stmt::All { of, .. } => self.all_of(of, asked),
            Stmt::Any { of, .. } => self.any_of(of, asked),
            Stmt::Has { cond, on, .. } => *asked = Op::Has(self.event_in(*cond), self.event(*on)),
            Stmt::Chain { on, to } => *asked = Op::Chain(self.event(*on), self.event(*to)),
            _ => unreachable!(),
        }
    }

    // Asks for a condition over all of these events. Apart, as the next one, since its members are large.
    #[inline(never)]
    fn all_of(&self, of: &Refs, asked: &mut Op)
        ensures { asked.new ≡ op.AllOf (map (event_of_ref self.now) of.now) }
    {
        *asked = Op::AllOf(self.members(of));
    }

    // Asks for a condition over any of these events.
    #[inline(never)]
    fn any_of(&self, of: &Refs, asked: &mut Op)
        ensures { asked.new ≡ op.AnyOf (map (event_of_ref self.now) of.now) }
    {
        *asked = Op::AnyOf(self.members(of));
    }

    // The members of a condition.
    fn members(&self, of: &Refs) -> Members
        ensures { result ≡ map (event_of_ref self.now) of.now }
    {
        let mut members = Members::new();
        for named in of.as_slice() {
            let _ = members.push(self.event(*named));
        }
        members
    }

    // The statements that ask something of the process itself or of another.
    fn of_processes(&self, statement: &Stmt, time: i64, asked: &mut Op)
        requires group { IsTrue (is_of_processes statement.now) }
        requires small { IsTrue (events_are_small self.now statement.now) }
        ensures { (asked.new, self.now) ≡ do_stmt time self.now statement.now }
    {
        match statement {
            Stmt::Sleep { delay } => *asked = Op::Pause(self.number(*delay, time), 0),
            Stmt::Spawn { kind, args, .. } => self.spawn(*kind, args, time, asked),
            Stmt::Interrupt { who, value } => {
                *asked = Op::Interrupt(self.process(*who), self.number(*value, time));
            }
            Stmt::Drop { who, value } => {
                *asked = Op::Drop(self.process(*who), self.number(*value, time));
            }
            Stmt::EndProcess => *asked = Op::Finish(0),
            Stmt::Log { value } => *asked = Op::Log(self.number(*value, time)),
            Stmt::Draw { lo, hi, .. } => {
                *asked = Op::Draw(self.number(*lo, time), self.number(*hi, time));
            }
            _ => unreachable!(),
        }
    }

    // Asks for a process of a kind. Apart, since what it is given is large.
    #[inline(never)]
    fn spawn(&self, kind: u32, given: &SpawnArgs, time: i64, asked: &mut Op)
        requires { IsTrue (list_all (event_is_small self.now) given.now) }
        ensures { asked.new ≡ op.Spawn kind (map (value_of_arg time self.now) given.now) }
    {
        *asked = Op::Spawn(kind, self.arguments(given, time));
    }

    // What a process that is spawned is given.
    fn arguments(&self, given: &SpawnArgs, time: i64) -> Args
        requires { IsTrue (list_all (event_is_small self.now) given.now) }
        ensures { result ≡ map (value_of_arg time self.now) given.now }
    {
        let mut args = Args::new();
        for argument in given.as_slice() {
            let _ = args.push(self.argument(*argument, time));
        }
        args
    }

    // The statements that ask something of a resource.
    fn of_resources(&self, statement: &Stmt, time: i64, asked: &mut Op)
        requires group { IsTrue (is_of_resources statement.now) }
        ensures { (asked.new, self.now) ≡ do_stmt time self.now statement.now }
    {
        match statement {
            Stmt::Count { res, .. } => *asked = Op::Count(*res),
            Stmt::With {
                res,
                priority,
                preempt,
                ..
            } => *asked = Op::Enter(*res, self.number(*priority, time), *preempt),
            Stmt::Release { on } => *asked = Op::Release(self.event_in(*on)),
            Stmt::Put { to, res, a, p } => {
                let (a, p) = (self.number(*a, time), self.number(*p, time));
                match to {
                    None => *asked = Op::PutWait(*res, a, p),
                    Some(_) => *asked = Op::Put(*res, a, p),
                }
            }
            Stmt::Get { to, res, lo, hi } => {
                let (lo, hi) = (self.number(*lo, time), self.number(*hi, time));
                match to {
                    None => *asked = Op::GetWait(*res, lo, hi),
                    Some(_) => *asked = Op::Get(*res, lo, hi),
                }
            }
            Stmt::Cancel { on } => *asked = Op::Cancel(self.event_in(*on)),
            _ => unreachable!(),
        }
    }
}
