//! What a line of a scenario can be.
ghost use Rattle.std.specs.Prelude.{◌≡◌};
ghost use Rattle.sim_language.specs.Forms.{declares_sort, is_end, is_made, is_process, is_statement, opens_block};
ghost use Rattle.sim_language.specs.LimitFaults.{most_of};
ghost use Rattle.sim_language.specs.Shapes.{shape};

use crate::shape::{Choice, Fixed, Item, Reference, Role};
use sim_types::{Class, LAST_TIME, MOST_ITEMS, MOST_LEVEL, MOST_SLOTS};

const DECLARES: Item = Item::A(Role::Declares);

/// How many users a resource has, at most.
const USERS: Item = Item::A(Role::Within(1, MOST_SLOTS));

/// The capacity of a container.
const LEVEL: Item = Item::A(Role::Capacity(MOST_LEVEL));

/// The capacity of a store.
const ITEMS: Item = Item::A(Role::Capacity(MOST_ITEMS));

/// Any number of 64 bits, as a literal.
const LITERAL: Item = Item::A(Role::Within(i64::MIN, i64::MAX));

const PROCESS: Item = Item::A(Role::Names(Sort::Process));

const PORT: Item = Item::A(Role::Names(Sort::Port));

const RESOURCE: Item = Item::A(Role::Names(Sort::Resource));

/// A variable that takes a number.
const NUMBER: Item = Item::A(Role::Gives(Class::Number));

/// A variable that takes a put or a get.
const MOVE: Item = Item::A(Role::Gives(Class::Move));

const VALUE: Item = Item::A(Role::Value);

const EVENT: Item = Item::A(Role::Refers(Reference::AnyEvent));

const EQUALS: Item = Item::Exactly(Fixed::Equals);

const OPERATOR: Item = Item::OneOf(Choice::Operator);

const PREFERENCE: Item = Item::OneOf(Choice::Preference);

/// A form of the language: what the first words of a line begin. The forms from `NewTimeout` on begin with `x =`.
#[derive(Clone, Copy)]
pub enum Form {
    /// `scenario 1`
    Scenario,
    /// `scenario 2`, the header of the second version
    ScenarioTwo,
    /// `until empty`
    UntilEmpty,
    /// `until T`
    UntilTime,
    /// `until event N`, of the second version
    UntilEvent,
    /// `seed S`
    Seed,
    /// `resource N C`
    Resource,
    /// `priority N C`
    Priority,
    /// `preemptive N C`
    Preemptive,
    /// `container N C OPENING`
    Container,
    /// `store N C`
    Store,
    /// `pstore N C`
    PStore,
    /// `fstore N C`
    FStore,
    /// `event N`
    Event,
    /// `port N PROCESS`
    Port,
    /// `process N PARAMETERS`
    Process,
    /// `start N ARGUMENTS`
    Start,
    /// `journal`
    Journal,
    /// `after K POSTER SERIAL PORT VALUE`
    After,
    /// `poster N`
    Poster,
    /// `PORT VALUE`, below a `poster` line
    Post,
    /// `let x = A`, `let x = A op B`
    Let,
    /// `count x R`
    Count,
    /// `timeout D`
    Timeout,
    /// `wait E`
    Wait,
    /// `succeed E V`
    Succeed,
    /// `fail E C`
    Fail,
    /// `has y C E`
    Has,
    /// `spawn N ARGUMENTS`
    Spawn,
    /// `interrupt P C`
    Interrupt,
    /// `drop P V`
    Drop,
    /// `raise C`
    Raise,
    /// `finish V`
    Finish,
    /// `with x = request R`, `with x = request R P`, and `preempt` or `wait` behind it
    With,
    /// `release x`
    Release,
    /// `put R A`, `put R A P`
    Put,
    /// `get R`, `get R A`, `get R LO HI`
    Get,
    /// `cancel x`
    Cancel,
    /// `loop`
    Loop,
    /// `repeat A`
    Repeat,
    /// `if A`
    If,
    /// `else`
    Else,
    /// `try`
    Try,
    /// `catch K V`
    Catch,
    /// `end`
    End,
    /// `break`
    Break,
    /// `log A`
    Log,
    /// `draw x LO HI`
    Draw,
    /// `chain E F`, of the second version
    Chain,
    /// `x = timeout D V`
    NewTimeout,
    /// `x = event`
    NewEvent,
    /// `x = all E E`
    NewAll,
    /// `x = any E E`
    NewAny,
    /// `p = spawn N ARGUMENTS`
    NewSpawn,
    /// `x = put R A`, `x = put R A P`
    NewPut,
    /// `x = get R`, `x = get R A`, `x = get R LO HI`
    NewGet,
}

impl Form {
    /// Whether the form begins with `x =`.
    pub fn is_made(self) -> bool
        ensures { result ≡ is_made self }
    {
        matches!(
            self,
            Form::NewTimeout
                | Form::NewEvent
                | Form::NewAll
                | Form::NewAny
                | Form::NewSpawn
                | Form::NewPut
                | Form::NewGet
        )
    }

    /// What the form declares, if it declares something.
    pub fn sort(self) -> Option<Sort>
        ensures { result ≡ declares_sort self }
    {
        match self {
            Form::Resource
            | Form::Priority
            | Form::Preemptive
            | Form::Container
            | Form::Store
            | Form::PStore
            | Form::FStore => Some(Sort::Resource),
            Form::Event => Some(Sort::Event),
            Form::Port => Some(Sort::Port),
            Form::Process => Some(Sort::Process),
            _ => None,
        }
    }

    /// Whether the form stands in a process, its `end` among them.
    pub fn is_statement(self) -> bool
        ensures { result ≡ is_statement self }
    {
        match self {
            Form::Scenario
            | Form::ScenarioTwo
            | Form::UntilEmpty
            | Form::UntilTime
            | Form::UntilEvent
            | Form::Seed
            | Form::Resource
            | Form::Priority
            | Form::Preemptive
            | Form::Container
            | Form::Store
            | Form::PStore
            | Form::FStore
            | Form::Event
            | Form::Port
            | Form::Process
            | Form::Start
            | Form::Journal
            | Form::After
            | Form::Poster
            | Form::Post => false,
            _ => true,
        }
    }

    /// Whether the form opens a block.
    pub fn opens_block(self) -> bool
        ensures { result ≡ opens_block self }
    {
        matches!(
            self,
            Form::With | Form::Loop | Form::Repeat | Form::If | Form::Try
        )
    }

    pub fn is_process(self) -> bool
        ensures { result ≡ is_process self }
    {
        matches!(self, Form::Process)
    }

    pub fn is_end(self) -> bool
        ensures { result ≡ is_end self }
    {
        matches!(self, Form::End)
    }

    /// What stands behind the words that tell the form: the table of the language.
    pub fn shape(self) -> &'static [Item]
        ensures { result.now ≡ shape self }
    {
        match self {
            Form::Scenario => &[Item::Exactly(Fixed::One)],
            Form::ScenarioTwo => &[Item::Exactly(Fixed::Two)],
            Form::UntilEmpty => &[Item::Exactly(Fixed::Empty)],
            Form::UntilTime => &[Item::A(Role::Within(1, LAST_TIME))],
            Form::UntilEvent => &[Item::Exactly(Fixed::Event), Item::EventName],
            Form::Seed => &[Item::A(Role::Within(0, i64::MAX))],
            Form::Resource | Form::Priority | Form::Preemptive => &[DECLARES, USERS],
            Form::Container => &[DECLARES, LEVEL, Item::Opening],
            Form::Store | Form::PStore | Form::FStore => &[DECLARES, ITEMS],
            Form::Event => &[DECLARES],
            Form::Port => &[DECLARES, PROCESS],
            Form::Process => &[DECLARES, Item::Each(Role::Parameter)],
            Form::Start => &[PROCESS, Item::StartArguments],
            Form::After => &[
                Item::A(Role::Within(0, LAST_TIME)),
                Item::A(Role::Within(0, 15)),
                Item::A(Role::Within(0, 65_535)),
                PORT,
                LITERAL,
            ],
            Form::Poster => &[Item::NextPoster],
            Form::Post => &[PORT, LITERAL],
            Form::Let => &[NUMBER, EQUALS, VALUE, Item::MayEnd, OPERATOR, VALUE],
            Form::Count => &[NUMBER, RESOURCE],
            Form::Wait => &[EVENT],
            Form::Succeed | Form::Fail => &[Item::A(Role::Refers(Reference::PlainEvent)), VALUE],
            Form::Has => &[NUMBER, Item::A(Role::Refers(Reference::ACondition)), EVENT],
            Form::Spawn => &[PROCESS, Item::SpawnArguments],
            Form::Interrupt | Form::Drop => &[Item::A(Role::Refers(Reference::AProcess)), VALUE],
            Form::Timeout | Form::Raise | Form::Finish | Form::Repeat | Form::If | Form::Log => &[
                VALUE,
            ],
            Form::With => &[
                Item::A(Role::Gives(Class::Request)),
                EQUALS,
                Item::Exactly(Fixed::Request),
                RESOURCE,
                Item::MayEnd,
                VALUE,
                Item::MayEnd,
                PREFERENCE,
            ],
            Form::Release => &[Item::A(Role::Refers(Reference::ARequest))],
            Form::Put => &[RESOURCE, VALUE, Item::MayEnd, VALUE],
            Form::Get => &[RESOURCE, Item::MayEnd, VALUE, Item::MayEnd, VALUE],
            Form::Cancel => &[Item::A(Role::Refers(Reference::AMove))],
            Form::Catch => &[NUMBER, NUMBER],
            Form::Draw => &[NUMBER, VALUE, VALUE],
            Form::Chain => &[
                Item::A(Role::Refers(Reference::Chained)),
                Item::A(Role::Refers(Reference::PlainEvent)),
            ],
            Form::NewTimeout => &[Item::A(Role::Gives(Class::Event)), VALUE, VALUE],
            Form::NewEvent => &[Item::A(Role::Gives(Class::Event))],
            Form::NewAll | Form::NewAny => &[
                Item::A(Role::Gives(Class::Cond)),
                Item::Each(Role::Refers(Reference::AnyEvent)),
            ],
            Form::NewSpawn => &[
                Item::A(Role::Gives(Class::Proc)),
                PROCESS,
                Item::SpawnArguments,
            ],
            Form::NewPut => &[MOVE, RESOURCE, VALUE, Item::MayEnd, VALUE],
            Form::NewGet => &[MOVE, RESOURCE, Item::MayEnd, VALUE, Item::MayEnd, VALUE],
            Form::Journal | Form::Loop | Form::Else | Form::Try | Form::End | Form::Break => &[],
        }
    }
}

/// What a declared name stands for.
#[derive(Clone, Copy)]
pub enum Sort {
    Resource,
    Event,
    Port,
    Process,
}

impl Sort {
    /// How many names of the sort a text may have.
    pub fn most(self) -> u32
        ensures { result ≡ most_of self }
    {
        match self {
            Sort::Resource | Sort::Event => 1024,
            Sort::Port | Sort::Process => 256,
        }
    }
}

/// What a name is declared as.
#[derive(Clone, Copy)]
pub struct Meaning {
    /// The form that declares it.
    pub form: Form,
    /// Its number among the names of its sort, counted from 0.
    pub number: u32,
}

/// The version of the language that a text is written in, told by its first line.
#[derive(Clone, Copy)]
pub enum Version {
    One,
    /// With `until event N` and `chain`.
    Two,
}

/// The part of a text that a line stands in.
#[derive(Clone, Copy)]
pub enum Section {
    /// The header, the declarations, the processes and the starts.
    Plain,
    /// Below a `journal` line.
    InJournal,
    /// Below a `poster` line.
    InPosters,
}
