//! The calling thread of a live run: it sets the posters to work, lets the scenario run, and waits for them.
ghost use Rattle.std.specs.Prelude.{◌≡◌, ◌≢◌, ◌≤◌, [], IfOk, OnOk};
ghost use Rattle.sim_outside.specs.Writes.{IsUnflushed, Writes};
ghost use Rattle.sim_trace.specs.Texts.{AreNamesShort, journal_text};
ghost use Rattle.sim_writing.specs.RunFaults.{is_write};
ghost use Rattle.sim_engine.specs.Sessions.{turn_of};
ghost use Rattle.sim_engine.specs.declared.session.Turn.TheVariants as turn;
ghost use Rattle.sim_live.specs.Journals.{KeepsFronts, KeepsSections};
ghost use Rattle.sim_live.specs.LiveAnswers.{RunsLive};
ghost use Rattle.sim_live.specs.LiveRuns.{IsLive, WritesOn};
ghost use Rattle.sim_live.specs.Starting.{AreReady};

use crate::live_run::LiveRun;
use crate::play::{finish, play};
use sim_batch::Gate;
use sim_engine::{EngineFault, Report, write_end};
use sim_inbox::{Inbox, Taking};
use sim_outside::{LentSink, Sink, write_all};
use sim_posters::{capacities_of, join_all, start_all};
use sim_scenario::Scenario;
use sim_trace::{LineBuf, render_arrival};
use sim_types::{Arrival, End, List, Name};
use std::alloc::{AllocError, Global};
use std::sync::Wait;
use std::sync::atomic::AtomicU64;
use std::thread::{self, Scope, Threads};

/// Lets the scenario run, at most so many units, while its posters post, and writes the trace and then the journal of what
/// came. The answer is how the run ended.
pub(crate) fn write_live<K: Sink, R: Threads + Wait + Sync, G: Gate + Sync, I: Inbox>(
    rt: &R,
    alloc: Global,
    gate: &G,
    inbox: &I,
    scenario: &Scenario,
    limit: u32,
    out: &mut K,
) -> Result<End, EngineFault>
    ensures runs { RunsLive scenario.now limit (K.tells out.old) (K.tells out.new) result }
    ensures unflushed { IsUnflushed (K.tells out.old) (K.tells out.new) }
{
    let mut answer = Err(EngineFault::Memory);
    let _lent = run_on_loan(
        rt,
        alloc,
        gate,
        inbox,
        scenario,
        limit,
        LentSink::new(out),
        &mut answer,
    );
    answer
}

/// The same by way of a sink that is lent. It is given back, and the answer is put in its place.
fn run_on_loan<'a, K: Sink, R: Threads + Wait + Sync, G: Gate + Sync, I: Inbox>(
    rt: &R,
    alloc: Global,
    gate: &G,
    inbox: &I,
    scenario: &Scenario,
    limit: u32,
    lent: LentSink<'a, K>,
    answer: &mut Result<End, EngineFault>,
) -> LentSink<'a, K>
    ensures same_reference { result.sink.ghost_name ≡ lent.entry.sink.ghost_name }
    ensures runs { RunsLive scenario.now limit (K.tells lent.entry.sink.now)
        (K.tells result.sink.now) answer.new }
    ensures unflushed { IsUnflushed (K.tells lent.entry.sink.now) (K.tells result.sink.now) }
{
    let Ok((taker, posters)) = open_for(alloc, inbox, scenario) else {
        *answer = Err(EngineFault::Memory);
        return lent;
    };
    let count = AtomicU64::new(0);
    let ended = &count;
    let (back, answered) = thread::scope(
        thread::scope_env(),
        rt,
        |scope| -> (LentSink<'_, K>, Result<End, EngineFault>)
            requires { AreReady I.Taker.Taking I.Taker.Poster.Posting scenario.now taker posters }
            ensures same_reference { result.0.sink.ghost_name ≡ lent.entry.sink.ghost_name }
            ensures runs { RunsLive scenario.entry.now limit (K.tells lent.entry.sink.now)
                (K.tells result.0.sink.now) result.1 }
            ensures unflushed { IsUnflushed (K.tells lent.entry.sink.now)
                (K.tells result.0.sink.now) }
        {
            run_in_scope(
                scope, rt, alloc, gate, scenario, limit, taker, posters, ended, lent,
            )
        },
    );
    *answer = answered;
    back
}

/// An inbox for the posters of the scenario, in which no poster finds its lane full.
fn open_for<I: Inbox>(
    alloc: Global,
    inbox: &I,
    scenario: &Scenario,
) -> Result<(I::Taker, List<<I::Taker as Taking>::Poster>), AllocError>
    ensures ready { IfOk result (λ r.
        AreReady I.Taker.Taking I.Taker.Poster.Posting scenario.now r.0 r.1) }
{
    let capacities = capacities_of(alloc, scenario.posters())?;
    let (taker, posters) = inbox.open(alloc, capacities.as_slice())?;
    Ok((taker, posters))
}

/// The same within a scope of threads, once the inbox is open.
fn run_in_scope<'s, 'a, E, T: Taking, G: Gate + Sync, R: Threads + Wait, K: Sink>(
    scope: &Scope<'s, E>,
    rt: &R,
    alloc: Global,
    gate: &'s G,
    scenario: &'s Scenario,
    limit: u32,
    taker: T,
    posters: List<T::Poster>,
    ended: &'s AtomicU64,
    lent: LentSink<'a, K>,
) -> (LentSink<'a, K>, Result<End, EngineFault>)
where
    T::Poster: 's,
    requires ready { AreReady T.Taking T.Poster.Posting scenario.now taker posters }
    ensures same_reference { result.0.sink.ghost_name ≡ lent.entry.sink.ghost_name }
    ensures runs { RunsLive scenario.now limit (K.tells lent.entry.sink.now)
        (K.tells result.0.sink.now) result.1 }
    ensures unflushed { IsUnflushed (K.tells lent.entry.sink.now) (K.tells result.0.sink.now) }
{
    let LentSink { sink } = lent;
    let answer = run_with_posters(
        scope, rt, alloc, gate, scenario, limit, taker, posters, ended, &mut *sink,
    );
    (LentSink::new(sink), answer)
}

/// The same, to a sink that is at hand.
fn run_with_posters<'s, E, T: Taking, G: Gate + Sync, R: Threads + Wait, K: Sink>(
    scope: &Scope<'s, E>,
    rt: &R,
    alloc: Global,
    gate: &'s G,
    scenario: &'s Scenario,
    limit: u32,
    taker: T,
    posters: List<T::Poster>,
    ended: &'s AtomicU64,
    out: &mut K,
) -> Result<End, EngineFault>
where
    T::Poster: 's,
    requires ready { AreReady T.Taking T.Poster.Posting scenario.now taker posters }
    ensures runs { RunsLive scenario.now limit (K.tells out.old) (K.tells out.new) result }
    ensures unflushed { IsUnflushed (K.tells out.old) (K.tells out.new) }
{
    let mut live_run = LiveRun::new(alloc, scenario, limit)?;
    let lived = live(
        scope,
        rt,
        alloc,
        gate,
        scenario,
        taker,
        posters,
        ended,
        &mut live_run,
        out,
    );
    let (report, journal) = live_run.close();
    lived?;
    write_end(&report.summary, out)?;
    write_journal(journal.as_slice(), scenario.port_names(), out)?;
    Ok(report.summary.end)
}

/// Sets the posters to work, lets the scenario run to its end, and waits for the posters.
fn live<'s, E, T: Taking, G: Gate + Sync, R: Threads + Wait, K: Sink>(
    scope: &Scope<'s, E>,
    rt: &R,
    alloc: Global,
    gate: &'s G,
    scenario: &'s Scenario,
    taker: T,
    posters: List<T::Poster>,
    ended: &'s AtomicU64,
    run: &mut LiveRun,
    out: &mut K,
) -> Result<(), EngineFault>
where
    T::Poster: 's,
    requires ready { AreReady T.Taking T.Poster.Posting scenario.now taker posters }
    requires live { IsLive scenario.now run.old }
    requires nothing { run.old.journal ≡ [] }
    ensures live { OnOk result (IsLive scenario.now run.new) }
    ensures ended { OnOk result (turn_of run.new.session ≢ turn.Idle) }
    ensures sections { OnOk result (KeepsSections scenario.now run.new.journal) }
    ensures fronts { KeepsFronts scenario.now run.new.journal }
    ensures limit { run.new.session.limit ≡ run.old.session.limit }
    ensures within { run.new.session.units ≤ run.new.session.limit }
    ensures writes { WritesOn scenario.now run.old run.new
        (K.tells out.old) (K.tells out.new) result }
    ensures unflushed { IsUnflushed (K.tells out.old) (K.tells out.new) }
{
    let mut taker = taker;
    let sections = scenario.posters();
    let workers = start_all(scope, alloc, &taker, posters, sections, gate, ended)?;
    let all_theirs = play(rt, scenario, ended, &mut taker, run, out)?;
    let posters = join_all(rt, alloc, &taker, workers, sections)?;
    let Ok(left) = taker.close(alloc, posters) else {
        return Err(EngineFault::Memory);
    };
    if !all_theirs {
        // What was taken is what the posters posted, and they have posted their sections.
        unreachable!();
    }
    finish(scenario, left.as_slice(), run, out)
}

/// Writes the journal.
fn write_journal<K: Sink>(
    journal: &[Arrival],
    ports: &[Name],
    out: &mut K,
) -> Result<(), EngineFault>
    requires names { AreNamesShort ports.now }
    ensures writes { Writes is_write (K.tells out.old) (K.tells out.new) result
        (journal_text ports.now journal.now) }
    ensures unflushed { IsUnflushed (K.tells out.old) (K.tells out.new) }
{
    write_all(out, b"journal\n")?;
    let mut line = LineBuf::new();
    for entry in journal {
        render_arrival(entry, ports, &mut line);
        write_all(out, line.bytes())?;
    }
    Ok(())
}
