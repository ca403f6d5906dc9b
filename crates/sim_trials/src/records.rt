//! Live processes and their records.
ghost use Rattle.std.specs.Prelude.{◌≡◌, ◌<◌, []};
ghost use Rattle.sim_machine.specs.NumberBounds.{most_events};

use sim_procs::{ProcRecord, Procs, Scopes};
use sim_types::{EventId, ProcId, Scope};
use std::process::Abort;
use std::test::Fail;

/// The request of the one scope that each process opens.
const REQUEST: EventId = EventId(21);

/// A process more, which waits for an event and has a scope open.
fn comes(rt: &impl Abort, procs: &mut Procs<u8>, id: ProcId, target: u64, scopes: Scopes)
    requires number { id.0 < most_events }
    requires scopes { scopes ≡ record { scopes = []; room = 1 } }
    requires room { procs.old.room ≡ 1 }
    ensures room { procs.new.room ≡ 1 }
{
    assert!(rt; procs.reserve().is_ok());
    assert!(rt; !procs.is_alive(id));
    procs.add(id, 0, EventId(target), scopes);
    let scope = Scope {
        request: REQUEST,
        res: 3,
    };
    procs.push_scope(id, scope);
}

/// Whether the process waits for this event.
fn waits(procs: &Procs<u8>, id: ProcId, target: u64) -> bool {
    match procs.target(id) {
        Some(event) => event.0 == target,
        None => false,
    }
}

/// Whether the process has its scope open.
fn has_scope(procs: &Procs<u8>, id: ProcId) -> bool {
    match procs.scope(id, REQUEST) {
        Some(scope) => scope.res == 3,
        None => false,
    }
}

/// Leaves the innermost scope of the process, if one is open.
fn leaves(procs: &mut Procs<u8>, id: ProcId) -> bool {
    match procs.pop_scope(id) {
        Some(scope) => scope.request.0 == REQUEST.0,
        None => false,
    }
}

/// Leaves what is open and spends the record.
#[tactic(auto, using(sim_procs::proofs::OpenScopes::none_left, sim_procs::proofs::OpenScopes::fewer_left))]
fn spend(mut process: ProcRecord<u8>) {
    while let Some(_scope) = process.pop_scope() {}
    process.end();
}

/// Takes the record of a process and spends it, if the process is alive.
fn ends(procs: &mut Procs<u8>, id: ProcId) -> bool {
    match procs.take(id) {
        Some(process) => {
            spend(process);
            true
        }
        None => false,
    }
}

/// One process leaves its scope and stays alive; the other ends with its scope open.
fn live(rt: &impl Abort, procs: &mut Procs<u8>, first: Scopes, second: Scopes)
    requires first { first ≡ record { scopes = []; room = 1 } }
    requires second { second ≡ record { scopes = []; room = 1 } }
    requires room { procs.old.room ≡ 1 }
{
    let (stays, goes) = (ProcId(9), ProcId(5));
    comes(rt, procs, goes, 11, first);
    comes(rt, procs, stays, 12, second);
    assert!(rt; procs.is_alive(stays));
    let _before = procs.replace_target(stays, EventId(30));
    assert!(rt; waits(procs, goes, 11) && waits(procs, stays, 30));
    assert!(rt; leaves(procs, stays) && !leaves(procs, stays));
    assert!(rt; has_scope(procs, goes) && !has_scope(procs, stays));
    assert!(rt; ends(procs, goes) && !ends(procs, goes) && !ends(procs, ProcId(7)));
    assert!(rt; !procs.is_alive(goes) && procs.is_alive(stays));
}

/// A process that is still alive at the end is abandoned.
#[test]
fn processes_come_and_go(rt: HostRuntime) -> Result<(), Fail> {
    let first = Scopes::new(rt.alloc(), 1)?;
    let second = Scopes::new(rt.alloc(), 1)?;
    let mut procs = Procs::new(rt.alloc(), 1)?;
    live(&rt, &mut procs, first, second);
    procs.abandon();
    Ok(())
}
