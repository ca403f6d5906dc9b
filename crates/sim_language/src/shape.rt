//! What stands behind the words that a form begins with.
ghost use Rattle.std.specs.Prelude.{◌≡◌};
ghost use Rattle.sim_language.specs.Sayings.{takes_me};
ghost use Rattle.sim_language.specs.Shapes.{choices, fixed_word, spawn_argument, start_argument};
ghost use Rattle.sim_language.specs.Lines.{is_among};
ghost use Rattle.sim_language.specs.VariableFaults.{takes_class, takes_named};

use crate::form::Sort;
use sim_types::Class;

/// The events that a place of a line takes.
#[derive(Clone, Copy)]
pub enum Reference {
    /// A variable of any class but number, a named event, or `me`.
    AnyEvent,
    /// A variable of class event, or a named event.
    PlainEvent,
    /// What `chain` takes the outcome of: a variable of class event, cond or proc, a named event, or `me`.
    Chained,
    /// A variable of class proc, or `me`.
    AProcess,
    /// A variable of class cond.
    ACondition,
    /// A variable of class request.
    ARequest,
    /// A variable of class move.
    AMove,
}

impl Reference {
    /// Whether `me` may stand there.
    pub fn takes_me(self) -> bool
        ensures { result ≡ takes_me self }
    {
        matches!(
            self,
            Reference::AnyEvent | Reference::AProcess | Reference::Chained
        )
    }

    /// Whether a named event may stand there.
    pub fn takes_named(self) -> bool
        ensures { result ≡ takes_named self }
    {
        matches!(
            self,
            Reference::AnyEvent | Reference::PlainEvent | Reference::Chained
        )
    }

    /// Whether a variable of the class may stand there.
    pub fn takes_class(self, class: Class) -> bool
        ensures { result ≡ takes_class self class }
    {
        match self {
            Reference::AnyEvent => !matches!(class, Class::Number),
            Reference::PlainEvent => matches!(class, Class::Event),
            Reference::Chained => matches!(class, Class::Event | Class::Cond | Class::Proc),
            Reference::AProcess => matches!(class, Class::Proc),
            Reference::ACondition => matches!(class, Class::Cond),
            Reference::ARequest => matches!(class, Class::Request),
            Reference::AMove => matches!(class, Class::Move),
        }
    }
}

/// What the first line that declares a name declares it as, wherever in the text it stands.
#[derive(Clone, Copy)]
pub enum Ahead {
    /// No line declares the name.
    Undeclared,
    /// It is a resource, a port or a process.
    NoEvent,
    /// It is an event, with so many lines above that declare events.
    EventAt(u32),
}

/// What an operand is there for.
#[derive(Clone, Copy)]
pub enum Role {
    /// It declares a name.
    Declares,
    /// It is a parameter of a process.
    Parameter,
    /// It is a variable that the line gives.
    Gives(Class),
    /// It is a number: a literal, `now`, or a variable of class number.
    Value,
    /// It is a literal from this number to that.
    Within(i64, i64),
    /// It is `inf`, or a literal from 1 to this number.
    Capacity(i64),
    /// It is an event that the place takes.
    Refers(Reference),
    /// It is a declared name of this sort.
    Names(Sort),
    /// It names an event that any line of the text may declare, and is declared as this.
    EventAhead(Ahead),
    /// It is a word that is chosen, or an argument that no parameter takes.
    Free,
}

impl Role {
    /// What an argument of `spawn` is there for, by the class of its parameter.
    pub fn of_spawn_argument(class: Class) -> Role
        ensures { result ≡ spawn_argument class }
    {
        match class {
            Class::Number => Role::Value,
            Class::Event => Role::Refers(Reference::PlainEvent),
            _ => Role::Refers(Reference::AProcess),
        }
    }

    /// What an argument of `start` is there for, by the class of its parameter.
    pub fn of_start_argument(class: Class) -> Role
        ensures { result ≡ start_argument class }
    {
        match class {
            Class::Number => Role::Within(i64::MIN, i64::MAX),
            Class::Event => Role::Names(Sort::Event),
            _ => Role::Free,
        }
    }
}

/// A word that stands in a form as it is.
#[derive(Clone, Copy)]
pub enum Fixed {
    /// `1`
    One,
    /// `2`
    Two,
    /// `event`
    Event,
    /// `empty`
    Empty,
    /// `=`
    Equals,
    /// `request`
    Request,
}

impl Fixed {
    pub fn word(self) -> &'static [u8]
        ensures { result.now ≡ fixed_word self }
    {
        match self {
            Fixed::One => b"1",
            Fixed::Two => b"2",
            Fixed::Event => b"event",
            Fixed::Empty => b"empty",
            Fixed::Equals => b"=",
            Fixed::Request => b"request",
        }
    }
}

/// Words of which one stands in a form.
#[derive(Clone, Copy)]
pub enum Choice {
    /// `+ - * / % min max < <= =`
    Operator,
    /// `preempt wait`
    Preference,
}

const OPERATORS: [&[u8]; 10] = [
    b"+", b"-", b"*", b"/", b"%", b"min", b"max", b"<", b"<=", b"=",
];

const PREFERENCES: [&[u8]; 2] = [b"preempt", b"wait"];

impl Choice {
    /// Whether the word is one of them.
    pub fn has(self, word: &[u8]) -> bool
        ensures { result ≡ is_among word.now (choices self) }
    {
        match self {
            Choice::Operator => OPERATORS.contains(&word),
            Choice::Preference => PREFERENCES.contains(&word),
        }
    }
}

/// A part of a shape.
#[derive(Clone, Copy)]
pub enum Item {
    /// A word as it stands.
    Exactly(Fixed),
    /// One of some words.
    OneOf(Choice),
    /// An operand.
    A(Role),
    /// A literal from 0 to the capacity that stands before it.
    Opening,
    /// The name of an event that any line of the text may declare.
    EventName,
    /// The number of the next poster.
    NextPoster,
    /// The line may end here.
    MayEnd,
    /// All further operands are there for the same.
    Each(Role),
    /// All further operands are arguments that `spawn` gives to the process that is named before them.
    SpawnArguments,
    /// All further operands are arguments that `start` gives to the process that is named before them.
    StartArguments,
}
