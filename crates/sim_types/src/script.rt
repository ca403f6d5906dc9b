//! Scripts: the statements of the processes of a scenario.

use crate::few::Few;
use crate::setup::Classes;

/// A number: as written, of a variable, or the time.
#[derive(Clone, Copy)]
pub enum Num {
    Lit(i64),
    Var(u8),
    Now,
}

/// An event: of a variable, a named one, or that of the process itself.
#[derive(Clone, Copy, Default)]
pub enum Ref {
    Var(u8),
    Named(u64),
    #[default]
    Me,
}

/// An argument of a process that is spawned.
#[derive(Clone, Copy)]
pub enum SpawnArg {
    Num(Num),
    Ref(Ref),
}

impl Default for SpawnArg {
    fn default() -> SpawnArg {
        SpawnArg::Num(Num::Now)
    }
}

/// What `let` computes; `Only` is its first number.
#[derive(Clone, Copy)]
pub enum Arith {
    Only,
    Add,
    Sub,
    Mul,
    Div,
    Rem,
    Min,
    Max,
    Less,
    AtMost,
    Equal,
}

/// The members of a condition that a statement makes.
pub type Refs = Few<Ref, 16>;

/// The arguments of a process that is spawned.
pub type SpawnArgs = Few<SpawnArg, 8>;

/// A statement. Variables are told by their places, resources and process kinds by theirs in the scenario, and where to
/// go on by the place of a statement in the code.
#[derive(Drop)]
pub enum Stmt {
    Let {
        to: u8,
        op: Arith,
        a: Num,
        b: Num,
    },
    Count {
        to: u8,
        res: u32,
    },
    Sleep {
        delay: Num,
    },
    Timer {
        to: u8,
        delay: Num,
        value: Num,
    },
    Fresh {
        to: u8,
    },
    Wait {
        on: Ref,
    },
    Succeed {
        on: Ref,
        value: Num,
    },
    Fail {
        on: Ref,
        value: Num,
    },
    All {
        to: u8,
        of: Refs,
    },
    Any {
        to: u8,
        of: Refs,
    },
    Has {
        to: u8,
        cond: u8,
        on: Ref,
    },
    Spawn {
        to: Option<u8>,
        kind: u32,
        args: SpawnArgs,
    },
    Interrupt {
        who: Ref,
        value: Num,
    },
    Drop {
        who: Ref,
        value: Num,
    },
    Raise {
        code: Num,
    },
    Finish {
        value: Num,
    },
    With {
        to: u8,
        res: u32,
        priority: Num,
        preempt: bool,
    },
    Release {
        on: u8,
    },
    Put {
        to: Option<u8>,
        res: u32,
        a: Num,
        p: Num,
    },
    Get {
        to: Option<u8>,
        res: u32,
        lo: Num,
        hi: Num,
    },
    Cancel {
        on: u8,
    },
    /// `past` is the place behind its `end`, where a break goes on.
    Loop {
        past: u32,
    },
    Repeat {
        times: Num,
        past: u32,
    },
    If {
        test: Num,
        other: u32,
    },
    Else {
        past: u32,
    },
    /// `catch` is the place of its catch line, where a throw goes on.
    Try {
        catch: u32,
    },
    Catch {
        kind: u8,
        value: u8,
        past: u32,
    },
    EndLoop {
        first: u32,
    },
    EndRepeat {
        first: u32,
    },
    EndWith,
    EndPlain,
    EndProcess,
    Break,
    Log {
        value: Num,
    },
    Draw {
        to: u8,
        lo: Num,
        hi: Num,
    },
    Chain {
        on: Ref,
        to: Ref,
    },
}

/// A process kind: how many parameters it has, its first statement, and the class of each variable.
#[derive(Drop)]
pub struct Kind {
    pub params: u8,
    pub first: u32,
    pub classes: Classes,
}
