//! Customers: a body with a place and a scope.
ghost use Rattle.std.specs.Prelude.{◌≡◌};

use crate::traveller::numbers;
use sim_machine::LawfulBody;
use sim_procs::Body;
use sim_types::{EventId, Op, ProcId, Signal};
use std::alloc::{AllocError, Global};
use std::marker::Model;

/// The code of customers: the counter where they are served. The one resource is its two clerks.
#[derive(Drop)]
pub struct Counter {
    /// How many units of time a service takes. Where that is negative or leads past the last time,
    /// the machine refuses the pause, and the customer leaves at once.
    pub service: i64,
}

impl Model for Counter {
    ghost use Rattle.std.specs.Prelude.{ℤ};

    ghost Value = { ℤ };

    ghost view = { λ a. a.service };
}

/// How far a customer has come.
#[derive(Clone, Copy)]
enum Stage {
    /// It was not polled yet.
    AtHome,
    /// It pauses until it arrives.
    Coming,
    /// It has arrived, and asks for a clerk.
    AsksForClerk,
    /// It waits for a clerk.
    Queued { request: EventId },
    /// A clerk serves it.
    Served { request: EventId },
    /// It was served, and leaves the counter.
    Leaves { request: EventId },
    /// It has left the counter, and logs its number.
    Logs { request: EventId },
    /// It leaves the counter before it was served to the end.
    Flees { request: EventId },
    /// It has ended. Where it made no request, this one is event 0.
    Gone { request: EventId },
}

/// It is given two numbers: how long it pauses before it arrives, and the number that it logs. When
/// it has arrived, it asks for one of the two clerks, waits for that, is served, leaves the
/// counter, logs its number, and ends.
///
/// It ends at once where its first pause or its request is refused, or where something is thrown at
/// it before it asks for a clerk. Where something is thrown at it while it waits or is served, or
/// where its service is refused, it leaves the counter and ends. In these cases it logs nothing,
/// and what was thrown goes no further: it ends with value 0, as a customer does that was served.
#[derive(Drop)]
pub struct Customer {
    own: ProcId,
    arrival: i64,
    number: i64,
    stage: Stage,
}

impl Model for Customer {
    ghost use Rattle.sim_bodies.specs.Customers.{CustomerOf};

    ghost Value = { CustomerOf };

    ghost view = { λ a. record {
      own = a.own;
      arrival = a.arrival;
      number = a.number;
      stage = a.stage;
    } };
}

impl LawfulBody for Customer {
    ghost use Rattle.sim_bodies.specs.Customers.{customer_body};
    ghost use Rattle.sim_bodies.specs.CustomerLaw.{customer_lawful};

    type Code = Counter;

    ghost body = { customer_body };

    ghost lawful = { customer_lawful };
}

impl Body for Customer {
    ghost use Rattle.std.specs.Prelude.{Some, [], ◌∷◌, refl};
    ghost use Rattle.sim_bodies.specs.Customers.{request_of};
    ghost use Rattle.sim_bodies.specs.CustomerLaw.{customer_enters_within};
    ghost use Rattle.sim_bodies.specs.OnePlace.{changes_only_place, place_is_within};

    ghost events_held = { λ b. request_of b.stage ∷ [] };

    ghost told_place = { λ code b. Some 0 };

    ghost places = { λ code b sound. refl };

    ghost told_place_within = { λ code b e at can is. place_is_within at is };

    ghost other_places_stay = { λ code b time e asked d can turned.
        changes_only_place (request_of b.stage) (request_of d.stage) };

    ghost is_for = { λ code b. Unit {0} };

    ghost most_open = { λ code. 1 };

    ghost enters_within = { customer_enters_within };

    fn scopes_needed(_code: &Counter) -> usize {
        1
    }

    fn blank(_alloc: Global, _code: &Counter) -> Result<Customer, AllocError> {
        Ok(Customer {
            own: ProcId(0),
            arrival: 0,
            number: 0,
            stage: Stage::AtHome,
        })
    }

    fn fill(&mut self, _code: &Counter, _kind: u32, args: &[i64]) {
        self.own = ProcId(0);
        let [arrival, number] = numbers(args);
        self.arrival = arrival;
        self.number = number;
        self.stage = Stage::AtHome;
    }

    fn own(&mut self, id: ProcId) {
        self.own = id;
    }

    fn poll(
        &mut self,
        code: &Counter,
        _now: i64,
        signal: Signal,
        _most: u32,
        asked: &mut Op,
    ) -> u32 {
        let (operation, stage) = self.next(code, signal);
        *asked = operation;
        self.stage = stage;
        1
    }

    fn place(&self, at: u8) -> EventId {
        match at {
            0 => self.stage.request(),
            _ => EventId(0),
        }
    }

    fn places_in_use(&self) -> u8 {
        1
    }

    fn place_told(&self, _code: &Counter) -> Option<u8> {
        Some(0)
    }
}

impl Customer {
    ghost use Rattle.sim_bodies.specs.Customers.{next_of};

    /// What it asks for next, and how far it has come then.
    fn next(&self, code: &Counter, told: Signal) -> (Op, Stage)
        ensures { result ≡ next_of code.now self.now told }
    {
        match (self.stage, told) {
            (Stage::AtHome, _) => (Op::Pause(self.arrival, 0), Stage::Coming),
            (Stage::Coming, Signal::Value(_)) => (Op::Enter(0, 0, false), Stage::AsksForClerk),
            (Stage::AsksForClerk, Signal::Made(request)) => (
                Op::Wait(request),
                Stage::Queued { request },
            ),
            (Stage::Queued { request }, Signal::Value(_)) => (
                Op::Pause(code.service, 0),
                Stage::Served { request },
            ),
            (Stage::Served { request }, Signal::Value(_)) => (Op::Leave, Stage::Leaves { request }),
            (Stage::Leaves { request }, _) => (Op::Log(self.number), Stage::Logs { request }),
            (Stage::Queued { request } | Stage::Served { request }, _) => (
                Op::Leave,
                Stage::Flees { request },
            ),
            (stage, _) => {
                let request = stage.request();
                (Op::Finish(0), Stage::Gone { request })
            }
        }
    }
}

impl Stage {
    ghost use Rattle.sim_bodies.specs.Customers.{request_of};

    /// The event in the place: the request that was made, or event 0.
    fn request(self) -> EventId
        ensures { result ≡ request_of self }
    {
        match self {
            Stage::AtHome | Stage::Coming | Stage::AsksForClerk => EventId(0),
            Stage::Queued { request }
            | Stage::Served { request }
            | Stage::Leaves { request }
            | Stage::Logs { request }
            | Stage::Flees { request }
            | Stage::Gone { request } => request,
        }
    }
}
