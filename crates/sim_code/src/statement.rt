//! The statement that a line of a process is.
ghost use Rattle.std.specs.Prelude.{◌≡◌};
ghost use Rattle.sim_code.specs.StatementGroups.{is_of_blocks, is_of_events, is_of_gets, is_of_numbers, is_of_processes, is_of_resources, statement_of};
ghost use Rattle.sim_language.specs.AnywhereInText as anywhere;
ghost use Rattle.sim_language.specs.Statements.{argument_of, arguments, event_of, kind_number, literal_of, members, number_declared, number_of, number_or_nothing, operator_of, preempts, statement, variable, variable_or_now};

use sim_faults::{LineInText, variable};
use sim_language::{Form, Role};
use sim_lines::{Operand, ProcessLines, WordKind};
use sim_types::{Arith, Num, Ref, Refs, SpawnArg, SpawnArgs, Stmt};

/// What stands for a number that the form has not.
const NOTHING: Num = Num::Lit(0);

/// The statement of a line, if it is one. Where it goes on besides at the next is still 0.
pub fn statement(
    heads: &ProcessLines<'_>,
    place: &LineInText<'_, '_>,
    form: Form,
    slots: &[Operand<'_>],
) -> Option<Stmt>
    ensures { result ≡ statement heads.now place.now form slots.now }
{
    match form {
        Form::Let | Form::Draw | Form::Log | Form::Timeout => of_numbers(place, form, slots),
        Form::NewTimeout
        | Form::NewEvent
        | Form::Wait
        | Form::Succeed
        | Form::Fail
        | Form::NewAll
        | Form::NewAny
        | Form::Has
        | Form::Chain => of_events(place, form, slots),
        Form::Spawn | Form::NewSpawn | Form::Interrupt | Form::Drop | Form::Raise | Form::Finish =>
            of_processes(heads, place, form, slots),
        Form::Count | Form::With | Form::Release | Form::Put | Form::NewPut | Form::Cancel =>
            of_resources(place, form, slots),
        Form::Get | Form::NewGet => of_gets(place, form, slots),
        _ => of_blocks(place, form, slots),
    }
}

/// Returns the number that the operand writes, or 0 where it is no literal.
pub fn literal_of(slot: &Operand<'_>) -> i64
    ensures { result ≡ literal_of slot.now.word }
{
    slot.literal().unwrap_or(0)
}

/// The number of a declared name among those of its sort.
pub fn number_declared(place: &LineInText<'_, '_>, word: &[u8]) -> u32
    ensures { result ≡ number_declared place.now.above.declared word.now }
{
    match place.above().declared().get(word) {
        Some(meaning) => meaning.number,
        None => 0,
    }
}

/// The number of a process.
pub fn kind_number(heads: &ProcessLines<'_>, word: &[u8]) -> u32
    ensures { result ≡ kind_number heads.now word.now }
{
    heads.index_of(word).unwrap_or(0)
}

/// The number of the variable that the operand names.
fn variable_of(place: &LineInText<'_, '_>, slot: &Operand<'_>) -> u8
    ensures { result ≡ variable place.now.variables slot.now.word }
{
    variable(place.variables(), slot.word())
}

/// The number that the operand gives.
fn number(place: &LineInText<'_, '_>, slot: &Operand<'_>) -> Num
    ensures { result ≡ number_of place.now.variables slot.now }
{
    match slot.role() {
        Role::Within(_, _) => Num::Lit(literal_of(slot)),
        _ => variable_or_now(place, slot),
    }
}

/// Returns the number that the operand stands for where it is no literal: the time now, `val` or a variable.
fn variable_or_now(place: &LineInText<'_, '_>, slot: &Operand<'_>) -> Num
    ensures number { result ≡ variable_or_now place.now.variables slot.now.word }
{
    match slot.kind() {
        WordKind::Now => Num::Now,
        WordKind::Val => Num::Var(0),
        _ => Num::Var(variable_of(place, slot)),
    }
}

/// Returns the event that the operand refers to.
fn event(place: &LineInText<'_, '_>, slot: &Operand<'_>) -> Ref
    ensures { result ≡ event_of place.now slot.now.word }
{
    let word = slot.word();
    if slot.is_me() {
        Ref::Me
    } else if place.above().declared().is_event(word) {
        Ref::Named(u64::from(number_declared(place, word)) + 1)
    } else {
        Ref::Var(variable(place.variables(), word))
    }
}

/// The argument that the operand gives.
fn argument(place: &LineInText<'_, '_>, slot: &Operand<'_>) -> SpawnArg
    ensures { result ≡ argument_of place.now slot.now }
{
    match slot.role() {
        Role::Refers(_) => SpawnArg::Ref(event(place, slot)),
        _ => SpawnArg::Num(number(place, slot)),
    }
}

/// The first 8 arguments.
fn arguments(place: &LineInText<'_, '_>, slots: &[Operand<'_>]) -> SpawnArgs
    ensures { result ≡ arguments place.now slots.now }
{
    let mut args = SpawnArgs::new();
    for slot in slots {
        let _ = args.push(argument(place, slot));
    }
    args
}

/// The first 16 members.
fn members(place: &LineInText<'_, '_>, slots: &[Operand<'_>]) -> Refs
    ensures { result ≡ members place.now slots.now }
{
    let mut events = Refs::new();
    for slot in slots {
        let _ = events.push(event(place, slot));
    }
    events
}

/// The first of the operands as a number, or 0.
fn number_or_nothing(place: &LineInText<'_, '_>, slots: &[Operand<'_>]) -> Num
    ensures { result ≡ number_or_nothing place.now.variables slots.now }
{
    match slots {
        [slot, ..] => number(place, slot),
        [] => NOTHING,
    }
}

/// What the operator computes.
fn operator(word: &[u8]) -> Arith
    ensures { result ≡ operator_of word.now }
{
    match word {
        b"+" => Arith::Add,
        b"-" => Arith::Sub,
        b"*" => Arith::Mul,
        b"/" => Arith::Div,
        b"%" => Arith::Rem,
        b"min" => Arith::Min,
        b"max" => Arith::Max,
        b"<" => Arith::Less,
        b"<=" => Arith::AtMost,
        _ => Arith::Equal,
    }
}

/// Whether a request with these words behind its resource preempts.
fn preempts(slots: &[Operand<'_>]) -> bool
    ensures { result ≡ preempts slots.now }
{
    match slots {
        [_, preference] => preference.word() == b"preempt".as_slice(),
        _ => true,
    }
}

/// The statements that compute, log or make time pass.
fn of_numbers(place: &LineInText<'_, '_>, form: Form, slots: &[Operand<'_>]) -> Option<Stmt>
    ensures { (heads : anywhere.ProcessLines)
        → result ≡ statement_of is_of_numbers heads place.now form slots.now }
{
    match (form, slots) {
        (Form::Let, [to, a]) => Some(Stmt::Let {
            to: variable_of(place, to),
            op: Arith::Only,
            a: number(place, a),
            b: NOTHING,
        }),
        (Form::Let, [to, a, op, b]) => Some(Stmt::Let {
            to: variable_of(place, to),
            op: operator(op.word()),
            a: number(place, a),
            b: number(place, b),
        }),
        (Form::Draw, [to, lo, hi]) => Some(Stmt::Draw {
            to: variable_of(place, to),
            lo: number(place, lo),
            hi: number(place, hi),
        }),
        (Form::Log, [value]) => Some(Stmt::Log {
            value: number(place, value),
        }),
        (Form::Timeout, [delay]) => Some(Stmt::Sleep {
            delay: number(place, delay),
        }),
        _ => None,
    }
}

/// The statements of events and conditions.
fn of_events(place: &LineInText<'_, '_>, form: Form, slots: &[Operand<'_>]) -> Option<Stmt>
    ensures { (heads : anywhere.ProcessLines)
        → result ≡ statement_of is_of_events heads place.now form slots.now }
{
    match (form, slots) {
        (Form::NewTimeout, [to, delay, value]) => Some(Stmt::Timer {
            to: variable_of(place, to),
            delay: number(place, delay),
            value: number(place, value),
        }),
        (Form::NewEvent, [to]) => Some(Stmt::Fresh {
            to: variable_of(place, to),
        }),
        (Form::Wait, [on]) => Some(Stmt::Wait {
            on: event(place, on),
        }),
        (Form::Succeed, [on, value]) => Some(Stmt::Succeed {
            on: event(place, on),
            value: number(place, value),
        }),
        (Form::Fail, [on, value]) => Some(Stmt::Fail {
            on: event(place, on),
            value: number(place, value),
        }),
        (Form::NewAll, [to, of @ ..]) => Some(Stmt::All {
            to: variable_of(place, to),
            of: members(place, of),
        }),
        (Form::NewAny, [to, of @ ..]) => Some(Stmt::Any {
            to: variable_of(place, to),
            of: members(place, of),
        }),
        (Form::Has, [to, cond, on]) => Some(Stmt::Has {
            to: variable_of(place, to),
            cond: variable_of(place, cond),
            on: event(place, on),
        }),
        (Form::Chain, [on, to]) => Some(Stmt::Chain {
            on: event(place, on),
            to: event(place, to),
        }),
        _ => None,
    }
}

/// The statements of processes.
fn of_processes(
    heads: &ProcessLines<'_>,
    place: &LineInText<'_, '_>,
    form: Form,
    slots: &[Operand<'_>],
) -> Option<Stmt>
    ensures { result ≡ statement_of is_of_processes heads.now place.now form slots.now }
{
    match (form, slots) {
        (Form::Spawn, [kind, args @ ..]) => Some(Stmt::Spawn {
            to: None,
            kind: kind_number(heads, kind.word()),
            args: arguments(place, args),
        }),
        (Form::NewSpawn, [to, kind, args @ ..]) => Some(Stmt::Spawn {
            to: Some(variable_of(place, to)),
            kind: kind_number(heads, kind.word()),
            args: arguments(place, args),
        }),
        (Form::Interrupt, [who, value]) => Some(Stmt::Interrupt {
            who: event(place, who),
            value: number(place, value),
        }),
        (Form::Drop, [who, value]) => Some(Stmt::Drop {
            who: event(place, who),
            value: number(place, value),
        }),
        (Form::Raise, [code]) => Some(Stmt::Raise {
            code: number(place, code),
        }),
        (Form::Finish, [value]) => Some(Stmt::Finish {
            value: number(place, value),
        }),
        _ => None,
    }
}

/// The statements of resources.
fn of_resources(place: &LineInText<'_, '_>, form: Form, slots: &[Operand<'_>]) -> Option<Stmt>
    ensures { (heads : anywhere.ProcessLines)
        → result ≡ statement_of is_of_resources heads place.now form slots.now }
{
    match (form, slots) {
        (Form::Count, [to, res]) => Some(Stmt::Count {
            to: variable_of(place, to),
            res: number_declared(place, res.word()),
        }),
        (Form::With, [to, res, more @ ..]) => Some(Stmt::With {
            to: variable_of(place, to),
            res: number_declared(place, res.word()),
            priority: number_or_nothing(place, more),
            preempt: preempts(more),
        }),
        (Form::Release, [on]) => Some(Stmt::Release {
            on: variable_of(place, on),
        }),
        (Form::Put, [res, a, more @ ..]) => Some(Stmt::Put {
            to: None,
            res: number_declared(place, res.word()),
            a: number(place, a),
            p: number_or_nothing(place, more),
        }),
        (Form::NewPut, [to, res, a, more @ ..]) => Some(Stmt::Put {
            to: Some(variable_of(place, to)),
            res: number_declared(place, res.word()),
            a: number(place, a),
            p: number_or_nothing(place, more),
        }),
        (Form::Cancel, [on]) => Some(Stmt::Cancel {
            on: variable_of(place, on),
        }),
        _ => None,
    }
}

/// The statements that take out of a container or a store.
fn of_gets(place: &LineInText<'_, '_>, form: Form, slots: &[Operand<'_>]) -> Option<Stmt>
    ensures { (heads : anywhere.ProcessLines)
        → result ≡ statement_of is_of_gets heads place.now form slots.now }
{
    match (form, slots) {
        (Form::Get, [res]) => Some(Stmt::Get {
            to: None,
            res: number_declared(place, res.word()),
            lo: NOTHING,
            hi: NOTHING,
        }),
        (Form::Get, [res, lo, more @ ..]) => Some(Stmt::Get {
            to: None,
            res: number_declared(place, res.word()),
            lo: number(place, lo),
            hi: number_or_nothing(place, more),
        }),
        (Form::NewGet, [to, res]) => Some(Stmt::Get {
            to: Some(variable_of(place, to)),
            res: number_declared(place, res.word()),
            lo: NOTHING,
            hi: NOTHING,
        }),
        (Form::NewGet, [to, res, lo, more @ ..]) => Some(Stmt::Get {
            to: Some(variable_of(place, to)),
            res: number_declared(place, res.word()),
            lo: number(place, lo),
            hi: number_or_nothing(place, more),
        }),
        _ => None,
    }
}

/// The statements of blocks.
fn of_blocks(place: &LineInText<'_, '_>, form: Form, slots: &[Operand<'_>]) -> Option<Stmt>
    ensures { (heads : anywhere.ProcessLines)
        → result ≡ statement_of is_of_blocks heads place.now form slots.now }
{
    match (form, slots) {
        (Form::Loop, []) => Some(Stmt::Loop { past: 0 }),
        (Form::Repeat, [times]) => Some(Stmt::Repeat {
            times: number(place, times),
            past: 0,
        }),
        (Form::If, [test]) => Some(Stmt::If {
            test: number(place, test),
            other: 0,
        }),
        (Form::Else, []) => Some(Stmt::Else { past: 0 }),
        (Form::Try, []) => Some(Stmt::Try { catch: 0 }),
        (Form::Catch, [kind, value]) => Some(Stmt::Catch {
            kind: variable_of(place, kind),
            value: variable_of(place, value),
            past: 0,
        }),
        (Form::End, []) => Some(place.above().blocks().end()),
        (Form::Break, []) => Some(Stmt::Break),
        _ => None,
    }
}
