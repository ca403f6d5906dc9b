//! The bank by hand: customers, and the source that they come from.
ghost use Rattle.std.specs.Prelude.{◌≡◌, pos, int_lt};
ghost use Rattle.sim_script_model.specs.Arithmetic.{is_equal};
ghost use Rattle.sim_models.specs.Bank.{bank};
ghost use Rattle.sim_native.specs.BankStages.{customer_told, none_spent, source_told, stage_begun, stage_holds, stage_told};
ghost use Rattle.sim_native.specs.BankTurns.{bank_turn, called_or_not, customer_next, customer_thrown, customer_turn, held_by, number_by, source_counted, source_next, source_thrown, source_turn, spent_by};

use crate::told::{keep_value, thrown_by};
use sim_machine::LawfulBody;
use sim_procs::Body;
use sim_types::{Args, EventId, Members, Op, ProcId, Signal, Throw};
use std::alloc::{AllocError, Global};
use std::marker::Model;
use std::snapshot::Snapshot;

/// The code of the bank. It has no statement: contracts alone see what its text says.
#[derive(Drop)]
pub struct BankCode {
    // (a field that is read ties a code to its model)
    one: (),
}

impl Model for BankCode {
    ghost use Rattle.sim_types.specs.Scenarios.{ScenarioOf};
    ghost use Rattle.sim_models.specs.Bank.{bank};

    ghost Value = { ScenarioOf };

    ghost view = { λ a. bank };
}

impl BankCode {
    /// The one code that there is.
    pub fn new() -> BankCode
        ensures { result ≡ bank }
    {
        BankCode { one: () }
    }

    /// What it says.
    fn is_bank(&self)
        ensures { self.now ≡ bank }
    {
        let _known = self.one;
    }
}

/// The events of a customer, which it holds until it ends: event 0 stands for one that is not made yet.
#[derive(Clone, Copy)]
struct Held {
    request: EventId,
    timeout: EventId,
    condition: EventId,
}

/// Where something was thrown at a customer.
#[derive(Clone, Copy)]
enum CustomerSpot {
    Coming,
    Asking,
    Timing,
    Choosing,
    Queueing,
    Drawing,
    Serving,
}

/// Where a customer stands.
#[derive(Clone, Copy)]
enum CustomerAt {
    /// It has come, and is ready to wait so long.
    Came { patience: i64 },
    /// It asked for the counter.
    Asked { patience: i64 },
    /// It set the timeout that ends its patience.
    Timed,
    /// It made a condition on either of both.
    Either,
    /// It waits for that.
    Queued,
    /// It looks whether it has the counter.
    Woken,
    /// It has the counter.
    Called,
    /// It draws how long it is served.
    Draws,
    /// It is served for so long.
    Served,
    /// It was served, and said 1.
    Done,
    /// Its patience ended first.
    Reneged,
    /// It was not served, and said 0.
    Unserved,
    /// It is about to leave.
    Leaves,
    /// It left the counter, or its queue.
    Left,
    /// It is gone.
    Gone,
    /// This was thrown at it, and it left the counter, or its queue.
    Fled(CustomerSpot, Throw),
    /// It ended by this.
    Dead(CustomerSpot, Throw),
}

/// Where something was thrown at the source.
#[derive(Clone, Copy)]
enum SourceSpot {
    Opening,
    DrawingGap,
    Sleeping,
    DrawingPatience,
}

/// Where the source stands, and how many customers are left in its loop, the present one among them.
#[derive(Clone, Copy)]
enum SourceAt {
    /// It is there.
    Opens,
    /// A customer comes next.
    Loops { left: i64 },
    /// It draws how long that takes.
    DrawsGap { left: i64 },
    /// It waits for so long.
    Sleeps { left: i64 },
    /// It draws how long the customer is ready to wait.
    DrawsPatience { left: i64 },
    /// It sent the customer.
    Sent { left: i64 },
    /// It sent the last one.
    Over,
    /// It is gone.
    Gone,
    /// This was thrown at it, and it left its loop.
    Struck(SourceSpot, Throw),
    /// It ended by this.
    Dead(SourceSpot, Throw),
}

/// What a process of the bank does.
#[derive(Clone, Copy)]
enum Stage {
    Customer(Held, CustomerAt),
    Source(SourceAt),
}

/// Variables that no statement reads any more, so that contracts alone see them: what a process was told last, the patience
/// of a customer, whether it had the counter, how long it was served, and the time between two customers.
#[derive(Drop)]
struct Spent {
    val: Snapshot<i64>,
    patience: Snapshot<i64>,
    called: Snapshot<i64>,
    service: Snapshot<i64>,
    gap: Snapshot<i64>,
}

impl Model for Spent {
    ghost use Rattle.sim_native.specs.BankStages.{SpentOf};

    ghost Value = { SpentOf };

    ghost view = { λ a. record {
      val = a.val.value;
      patience = a.patience.value;
      called = a.called.value;
      service = a.service.value;
      gap = a.gap.value;
    } };
}

impl Spent {
    /// Those of a process that begins.
    fn new() -> Spent
        ensures { result ≡ none_spent }
    {
        Spent {
            val: Snapshot::of(&0),
            patience: Snapshot::of(&0),
            called: Snapshot::of(&0),
            service: Snapshot::of(&0),
            gap: Snapshot::of(&0),
        }
    }

    /// Keeps what a process may need no more once it is told this.
    fn keep(&mut self, stage: Stage, told: Signal)
        ensures { self.new ≡ spent_by stage told self.old }
    {
        keep_value(told, &mut self.val);
        match (stage, told) {
            (
                Stage::Customer(_, CustomerAt::Came { patience } | CustomerAt::Asked { patience }),
                _,
            ) => {
                self.patience = Snapshot::of(&patience);
            }
            (Stage::Customer(_, CustomerAt::Woken), Signal::Number(called)) => {
                self.called = Snapshot::of(&called);
            }
            (Stage::Customer(_, CustomerAt::Draws), Signal::Number(service)) => {
                self.service = Snapshot::of(&service);
            }
            (Stage::Source(SourceAt::DrawsGap { .. }), Signal::Number(gap)) => {
                self.gap = Snapshot::of(&gap);
            }
            (Stage::Source(SourceAt::DrawsPatience { .. }), Signal::Number(patience)) => {
                self.patience = Snapshot::of(&patience);
            }
            _ => {}
        }
    }
}

/// A process of the bank: for contracts it is the script that it stands for.
#[derive(Drop)]
pub struct BankBody {
    me: ProcId,
    spent: Spent,
    stage: Stage,
}

impl Model for BankBody {
    ghost use Rattle.sim_script_model.specs.Scripts.{Script};
    ghost use Rattle.sim_native.specs.BankStages.{script_of};

    ghost Value = { Script };

    ghost view = { λ a. script_of a.me a.spent a.stage };
}

/// The number that a process is told, or 0.
fn number_by(told: Signal) -> i64
    ensures { result ≡ number_by told }
{
    match told {
        Signal::Number(number) => number,
        _ => 0,
    }
}

/// What a customer asks for at which this is thrown, and where it stands then.
fn customer_thrown(at: CustomerAt, what: Throw) -> (Op, CustomerAt)
    ensures { result ≡ customer_thrown at what }
{
    let spot = match at {
        CustomerAt::Came { .. } => {
            return (Op::Die(what), CustomerAt::Dead(CustomerSpot::Coming, what));
        }
        CustomerAt::Timed => CustomerSpot::Timing,
        CustomerAt::Either => CustomerSpot::Choosing,
        CustomerAt::Queued => CustomerSpot::Queueing,
        CustomerAt::Draws => CustomerSpot::Drawing,
        CustomerAt::Served => CustomerSpot::Serving,
        _ => {
            return (Op::Die(what), CustomerAt::Dead(CustomerSpot::Asking, what));
        }
    };
    (Op::Leave, CustomerAt::Fled(spot, what))
}

/// The events of a customer that is told this.
fn held_by(held: Held, at: CustomerAt, told: Signal) -> Held
    ensures { result ≡ held_by held at told }
{
    match (at, told) {
        (CustomerAt::Asked { .. }, Signal::Made(request)) => Held { request, ..held },
        (CustomerAt::Timed, Signal::Made(timeout)) => Held { timeout, ..held },
        (CustomerAt::Either, Signal::Made(condition)) => Held { condition, ..held },
        _ => held,
    }
}

/// Where a customer stands that looked whether it has the counter: 0 says that it has not.
fn called_or_not(called: i64) -> CustomerAt
    ensures { result ≡ called_or_not (is_equal called (pos 0)) }
{
    if called == 0 {
        CustomerAt::Reneged
    } else {
        CustomerAt::Called
    }
}

/// What a customer with these events asks for next, and where it stands then.
fn customer_next(held: Held, at: CustomerAt, told: Signal) -> (Op, CustomerAt)
    ensures { result ≡ customer_next held at told }
{
    match at {
        CustomerAt::Came { patience } => (Op::Enter(0, 0, true), CustomerAt::Asked { patience }),
        CustomerAt::Asked { patience } => (Op::Timeout(patience, 0), CustomerAt::Timed),
        CustomerAt::Timed => {
            let mut members = Members::new();
            members.push(held.request);
            members.push(held.timeout);
            (Op::AnyOf(members), CustomerAt::Either)
        }
        CustomerAt::Either => (Op::Wait(held.condition), CustomerAt::Queued),
        CustomerAt::Queued => (Op::Has(held.condition, held.request), CustomerAt::Woken),
        CustomerAt::Woken => (Op::Nop, called_or_not(number_by(told))),
        CustomerAt::Called => (Op::Draw(5, 15), CustomerAt::Draws),
        CustomerAt::Draws => (Op::Pause(number_by(told), 0), CustomerAt::Served),
        CustomerAt::Served => (Op::Log(1), CustomerAt::Done),
        CustomerAt::Reneged => (Op::Log(0), CustomerAt::Unserved),
        CustomerAt::Done | CustomerAt::Unserved => (Op::Nop, CustomerAt::Leaves),
        CustomerAt::Leaves => (Op::Leave, CustomerAt::Left),
        CustomerAt::Left | CustomerAt::Gone => (Op::Finish(0), CustomerAt::Gone),
        CustomerAt::Fled(spot, what) | CustomerAt::Dead(spot, what) => {
            (Op::Die(what), CustomerAt::Dead(spot, what))
        }
    }
}

/// What the source asks for at which this is thrown, and where it stands then.
fn source_thrown(at: SourceAt, what: Throw) -> (Op, SourceAt)
    ensures { result ≡ source_thrown at what }
{
    let spot = match at {
        SourceAt::Opens => return (Op::Die(what), SourceAt::Dead(SourceSpot::Opening, what)),
        SourceAt::DrawsGap { .. } => SourceSpot::DrawingGap,
        SourceAt::Sleeps { .. } => SourceSpot::Sleeping,
        _ => SourceSpot::DrawingPatience,
    };
    (Op::Nop, SourceAt::Struck(spot, what))
}

/// Where the source stands once it has counted down from so many that are left.
fn source_counted(left: i64) -> SourceAt
    ensures { result ≡ source_counted left (int_lt (pos 1) left) }
{
    if left > 1 {
        SourceAt::Loops { left: left - 1 }
    } else {
        SourceAt::Over
    }
}

/// What the source asks for next, and where it stands then.
fn source_next(at: SourceAt, told: Signal) -> (Op, SourceAt)
    ensures { result ≡ source_next at told }
{
    match at {
        SourceAt::Opens => (Op::Nop, SourceAt::Loops { left: 20 }),
        SourceAt::Loops { left } => (Op::Draw(1, 12), SourceAt::DrawsGap { left }),
        SourceAt::DrawsGap { left } => (Op::Pause(number_by(told), 0), SourceAt::Sleeps { left }),
        SourceAt::Sleeps { left } => (Op::Draw(3, 9), SourceAt::DrawsPatience { left }),
        SourceAt::DrawsPatience { left } => {
            let mut args = Args::new();
            args.push(number_by(told));
            (Op::Spawn(0, args), SourceAt::Sent { left })
        }
        SourceAt::Sent { left } => (Op::Nop, source_counted(left)),
        SourceAt::Over | SourceAt::Gone => (Op::Finish(0), SourceAt::Gone),
        SourceAt::Struck(spot, what) | SourceAt::Dead(spot, what) => {
            (Op::Die(what), SourceAt::Dead(spot, what))
        }
    }
}

/// What a customer with these events asks for that is told this, and where it stands then.
fn customer_turn(held: Held, at: CustomerAt, told: Signal) -> (Op, CustomerAt)
    ensures { result ≡ customer_turn held at told }
{
    match thrown_by(told) {
        Some(what) => customer_thrown(at, what),
        None => customer_next(held, at, told),
    }
}

/// What the source asks for that is told this, and where it stands then.
fn source_turn(at: SourceAt, told: Signal) -> (Op, SourceAt)
    ensures { result ≡ source_turn at told }
{
    match thrown_by(told) {
        Some(what) => source_thrown(at, what),
        None => source_next(at, told),
    }
}

/// What a process asks for that is told this, and where it stands then.
fn turn(stage: Stage, told: Signal) -> (Op, Stage)
    ensures { result ≡ bank_turn stage told }
{
    match stage {
        Stage::Customer(held, at) => {
            let held = held_by(held, at, told);
            let (op, at) = customer_turn(held, at, told);
            (op, Stage::Customer(held, at))
        }
        Stage::Source(at) => {
            let (op, at) = source_turn(at, told);
            (op, Stage::Source(at))
        }
    }
}

impl LawfulBody for BankBody {
    ghost use Rattle.sim_script_law.specs.ScriptMembers.{script_body};
    ghost use Rattle.sim_script_law.proofs.Laws.ScriptLaw.{script_lawful};

    type Code = BankCode;

    ghost body = { script_body };

    ghost lawful = { script_lawful };
}

impl Body for BankBody {
    ghost use Rattle.sim_script_model.specs.Needs.{most_open_scopes};
    ghost use Rattle.sim_script_law.specs.ScriptMembers.{script_holds, script_is_for, script_told_place};
    ghost use Rattle.sim_script_law.proofs.Laws.ScriptLaw.{script_enters_within, script_has_places};
    ghost use Rattle.sim_script_law.proofs.Laws.GivenPlaces.{script_gives_within, script_holds_as_many, script_keeps_others};

    ghost events_held = { script_holds };

    ghost told_place = { script_told_place };

    ghost places = { script_has_places };

    ghost told_place_within = { λ x b e at can is.
        script_gives_within x b e can.sound can.told at is };

    ghost other_places_stay = { λ x b time e asked d can turned. record {
      length = script_holds_as_many x b e can.sound can.told time asked d turned;
      each = script_keeps_others x b e can.sound can.told time asked d turned;
    } };

    ghost is_for = { script_is_for };

    ghost most_open = { λ x. most_open_scopes x.code };

    ghost enters_within = { λ x. record {
      fewer = λ b time told res priority preempts d can turned.
          script_enters_within x b time told res priority preempts d can.sound can.told turned;
    } };

    fn scopes_needed(code: &BankCode) -> usize {
        code.is_bank();
        1
    }

    fn blank(_alloc: Global, code: &BankCode) -> Result<BankBody, AllocError> {
        code.is_bank();
        Ok(BankBody {
            me: ProcId(0),
            spent: Spent::new(),
            stage: Stage::Source(SourceAt::Opens),
        })
    }

    fn fill(&mut self, code: &BankCode, _kind: u32, args: &[i64]) {
        code.is_bank();
        self.me = ProcId(0);
        self.spent = Spent::new();
        self.stage = begun(args);
    }

    fn own(&mut self, id: ProcId) {
        self.me = id;
    }

    fn poll(
        &mut self,
        code: &BankCode,
        _now: i64,
        signal: Signal,
        _most: u32,
        asked: &mut Op,
    ) -> u32 {
        code.is_bank();
        let (op, stage) = turn(self.stage, signal);
        self.spent.keep(self.stage, signal);
        self.stage = stage;
        *asked = op;
        1
    }

    fn place(&self, at: u8) -> EventId {
        event_at(self.stage, at)
    }

    fn places_in_use(&self) -> u8 {
        match self.stage {
            Stage::Customer(..) => 5,
            Stage::Source(_) => 0,
        }
    }

    fn place_told(&self, code: &BankCode) -> Option<u8> {
        code.is_bank();
        told_place(self.stage)
    }
}

/// How a process begins with these arguments: a customer has its patience.
fn begun(args: &[i64]) -> Stage
    ensures { result ≡ stage_begun args.now }
{
    match args.first() {
        Some(patience) => {
            let held = Held {
                request: EventId(0),
                timeout: EventId(0),
                condition: EventId(0),
            };
            Stage::Customer(
                held,
                CustomerAt::Came {
                    patience: *patience,
                },
            )
        }
        None => Stage::Source(SourceAt::Opens),
    }
}

/// The event that stands in a place.
fn event_at(stage: Stage, at: u8) -> EventId
    ensures { result ≡ stage_holds stage at }
{
    match (stage, at) {
        (Stage::Customer(held, _), 2) => held.request,
        (Stage::Customer(held, _), 3) => held.timeout,
        (Stage::Customer(held, _), 4) => held.condition,
        _ => EventId(0),
    }
}

/// The place that gets what a process made or drew last.
fn told_place(stage: Stage) -> Option<u8>
    ensures { result ≡ stage_told stage }
{
    match stage {
        Stage::Customer(_, at) => customer_told(at),
        Stage::Source(at) => source_told(at),
    }
}

/// The place that gets what a customer made, looked up or drew last.
fn customer_told(at: CustomerAt) -> Option<u8>
    ensures { result ≡ customer_told at }
{
    match at {
        CustomerAt::Came { .. } | CustomerAt::Asked { .. } => Some(2),
        CustomerAt::Timed => Some(3),
        CustomerAt::Either => Some(4),
        CustomerAt::Woken => Some(5),
        CustomerAt::Draws => Some(6),
        CustomerAt::Fled(spot, _) | CustomerAt::Dead(spot, _) => match spot {
            CustomerSpot::Coming | CustomerSpot::Asking => Some(2),
            CustomerSpot::Timing => Some(3),
            CustomerSpot::Choosing => Some(4),
            CustomerSpot::Drawing => Some(6),
            CustomerSpot::Queueing | CustomerSpot::Serving => None,
        },
        _ => None,
    }
}

/// The place that gets what the source drew last.
fn source_told(at: SourceAt) -> Option<u8>
    ensures { result ≡ source_told at }
{
    match at {
        SourceAt::DrawsGap { .. } => Some(1),
        SourceAt::DrawsPatience { .. } => Some(2),
        SourceAt::Struck(spot, _) | SourceAt::Dead(spot, _) => match spot {
            SourceSpot::DrawingGap => Some(1),
            SourceSpot::DrawingPatience => Some(2),
            SourceSpot::Opening | SourceSpot::Sleeping => None,
        },
        _ => None,
    }
}
