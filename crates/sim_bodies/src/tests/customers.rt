//! Customers at the counter: a run of three, and what one asks for, poll by poll.
ghost use Rattle.std.specs.Prelude.{◌≡◌, ◌<◌, [], ◌∷◌, IfOk, pos};
ghost use Rattle.sim_machine.specs.Bodies.{start_of};
ghost use Rattle.sim_machine.specs.NumberBounds.{most_events};
ghost use Rattle.sim_procs.specs.Premises.{CanBegin, CanBeTold};
ghost use Rattle.sim_types.specs.declared.setup.ResourceKind.TheVariants as resource;
ghost use Rattle.sim_types.specs.declared.setup.Until.TheVariants as until;

use super::lines::{end, finished, init, log, release, request, timeout};
use super::lines_of_run;
use crate::{Counter, Customer};
use sim_procs::Body;
use sim_types::{
    End, EventId, Line, List, Op, ProcId, Resource, ResourceKind, Setup, Signal, Start, Throw,
    Until,
};
use std::alloc::{AllocError, Global};
use std::test::Fail;

// The start of a customer that arrives after so long.
fn customer_start(alloc: Global, arrival: i64, number: i64) -> Result<Start, AllocError>
    ensures { IfOk result (λ start. start ≡ record { kind = 0; args = arrival ∷ number ∷ [] }) }
{
    Ok(Start {
        kind: 0,
        args: List::from_vec(Vec::from_slice(alloc, &[arrival, number])?),
    })
}

// Three customers at the counter, of whom the third arrives while both clerks are busy.
fn three_customers(alloc: Global) -> Result<Setup, AllocError>
    ensures { IfOk result (λ setup. setup ≡ record {
      until = until.Never;
      events = 0;
      resources = record { kind = resource.Plain; capacity = pos 2; opening = pos 0 } ∷ [];
      ports = [];
      starts = record { kind = 0; args = pos 0 ∷ pos 7 ∷ [] }
          ∷ record { kind = 0; args = pos 0 ∷ pos 8 ∷ [] }
          ∷ record { kind = 0; args = pos 3 ∷ pos 9 ∷ [] }
          ∷ [];
    }) }
{
    let mut resources = List::new(alloc);
    resources.push(Resource {
        kind: ResourceKind::Plain,
        capacity: 2,
        opening: 0,
    })?;
    let mut starts = List::new(alloc);
    starts.push(customer_start(alloc, 0, 7)?)?;
    starts.push(customer_start(alloc, 0, 8)?)?;
    starts.push(customer_start(alloc, 3, 9)?)?;
    Ok(Setup {
        until: Until::Never,
        events: 0,
        resources,
        ports: List::new(alloc),
        starts,
    })
}

// The lines of a run of three customers, of 200 units at most.
fn customers_run(alloc: Global, service: i64) -> Result<Vec<Line>, AllocError> {
    let setup = three_customers(alloc)?;
    lines_of_run::<Customer>(alloc, &Counter { service }, &setup, 0, 200)
}

// A body of kind 0 as it starts, by the trait alone.
fn started<B: Body>(
    alloc: Global,
    code: &B::Code,
    args: &[i64],
    id: ProcId,
) -> Result<B, AllocError>
    requires can { CanBegin (B.body.facts code.now) 0 args.now }
    requires bound { id.0 < most_events }
    ensures { IfOk result (λ b. b ≡ start_of B.body code.now 0 args.now id) }
{
    let mut body = B::blank(alloc, code)?;
    body.fill(code, 0, args);
    body.own(id);
    Ok(body)
}

// One poll at time 0, by the trait alone.
#[tactic(auto, using(crate::proofs::OnePoll::one_poll))]
fn polled<B: Body>(body: &mut B, code: &B::Code, signal: Signal) -> Op
    requires { CanBeTold B.body code.now body.old signal }
    ensures { B.body.turn code.now body.old (pos 0) signal result body.new }
{
    let mut asked = Op::Nop;
    let _made = body.poll(code, 0, signal, 1, &mut asked);
    asked
}

// Both clerks are busy when the third customer arrives. It is served once the first of the two
// releases is processed.
#[test]
fn customers_wait_for_a_clerk(rt: HostRuntime) {
    let want = [
        init(0, 2),
        init(1, 4),
        init(2, 6),
        timeout(0, 3, 7, 0),
        timeout(0, 4, 8, 0),
        request(0, 6, 10),
        request(0, 7, 11),
        timeout(3, 5, 9, 0),
        timeout(10, 8, 12, 0),
        log(10, 1, 7),
        timeout(10, 9, 13, 0),
        log(10, 3, 8),
        release(10, 10, 15),
        finished(10, 11, 1, 0),
        release(10, 12, 16),
        finished(10, 13, 3, 0),
        request(10, 14, 14),
        timeout(20, 15, 17, 0),
        log(20, 5, 9),
        release(20, 16, 18),
        finished(20, 17, 5, 0),
        end(End::Empty, 20, 18),
    ];
    match customers_run(rt.alloc(), 10) {
        Ok(lines) => assert!(rt; lines.as_slice() == want.as_slice()),
        Err(AllocError) => assert!(rt; false),
    }
}

// A customer at which something is thrown while it waits leaves the counter, and ends without a log
// line.
#[test]
fn a_customer_flees_by_the_trait(rt: HostRuntime) -> Result<(), Fail> {
    let counter = Counter { service: 10 };
    let mut customer = started::<Customer>(rt.alloc(), &counter, &[3, 9], ProcId(5))?;
    let begun = polled(&mut customer, &counter, Signal::Begin);
    assert!(rt; matches!(begun, Op::Pause(3, 0)));
    let arrived = polled(&mut customer, &counter, Signal::Value(0));
    assert!(rt; matches!(arrived, Op::Enter(0, 0, false)));
    let queued = polled(&mut customer, &counter, Signal::Made(EventId(14)));
    assert!(rt; matches!(queued, Op::Wait(EventId(14))));
    assert_eq!(rt; customer.place(0).0, 14);
    assert_eq!(rt; customer.place(63).0, 0);
    let thrown = Throw { kind: 1, value: 7 };
    let fled = polled(&mut customer, &counter, Signal::Thrown(thrown));
    assert!(rt; matches!(fled, Op::Leave));
    let gone = polled(&mut customer, &counter, Signal::Done);
    assert!(rt; matches!(gone, Op::Finish(0)));
    Ok(())
}

// A customer whose first pause is refused, or whose request is, ends at once.
#[test]
fn a_customer_is_refused_by_the_trait(rt: HostRuntime) -> Result<(), Fail> {
    let counter = Counter { service: 10 };
    let mut early = started::<Customer>(rt.alloc(), &counter, &[-1, 8], ProcId(3))?;
    let begun = polled(&mut early, &counter, Signal::Begin);
    assert!(rt; matches!(begun, Op::Pause(-1, 0)));
    let gone = polled(&mut early, &counter, Signal::Raised(1));
    assert!(rt; matches!(gone, Op::Finish(0)));

    let mut refused = started::<Customer>(rt.alloc(), &counter, &[0, 7], ProcId(1))?;
    let begun = polled(&mut refused, &counter, Signal::Begin);
    assert!(rt; matches!(begun, Op::Pause(0, 0)));
    let arrived = polled(&mut refused, &counter, Signal::Value(0));
    assert!(rt; matches!(arrived, Op::Enter(0, 0, false)));
    let gone = polled(&mut refused, &counter, Signal::Raised(5));
    assert!(rt; matches!(gone, Op::Finish(0)));
    Ok(())
}
