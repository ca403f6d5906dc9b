//! The run while its posters post: between two turns what they posted comes in.
ghost use Rattle.std.specs.Prelude.{◌≡◌, ◌≢◌, ◌<◌, ◌≤◌, ◌↔◌, ◌++◌, ℕ, Ok, Some, true, false, [], length, slice_get, slice_index_or, IsTrue, OnOk};
ghost use Rattle.sim_inbox.specs.Lists.{Begins, entries_by, numbered};
ghost use Rattle.sim_language.specs.WellFormed.{is_well_formed};
ghost use Rattle.sim_outside.specs.Writes.{IsUnflushed};
ghost use Rattle.sim_engine.specs.declared.session.Turn.TheVariants as turn;
ghost use Rattle.sim_engine.specs.Sessions.{turn_of};
ghost use Rattle.sim_live.specs.Journals.{KeepsFronts, KeepsSections, posts_by, section};
ghost use Rattle.sim_live.specs.LiveRuns.{IsLive, IsTold, WritesOn};

use crate::live_run::LiveRun;
use sim_engine::{EngineFault, Turn};
use sim_inbox::{Taken, Taking};
use sim_outside::Sink;
use sim_scenario::Scenario;
use sim_types::{List, Post};
use std::sync::Wait;
use std::sync::atomic::{AtomicU64, Ordering};
use std::thread;

/// Lets the scenario run until it is over, or nothing is due and all posters have ended. Between two turns all that is there
/// is taken, and comes in at once. The answer is false where a post was taken that its poster has not to post; then no more
/// is done.
pub(crate) fn play<T: Taking, R: Wait, K: Sink>(
    rt: &R,
    scenario: &Scenario,
    ended: &AtomicU64,
    taker: &mut T,
    run: &mut LiveRun,
    out: &mut K,
) -> Result<bool, EngineFault>
    requires told { IsTold scenario.now (T.taken taker.old) run.old }
    ensures told { result ≡ Ok true → IsTold scenario.now (T.taken taker.new) run.new }
    ensures foreign { result ≡ Ok false → (p : ℕ) × (p < T.count taker.old)
        × ¬ Begins (T.taken taker.new p) (section scenario.now p) }
    ensures fronts { KeepsFronts scenario.now run.new.journal }
    ensures inbox { T.inbox taker.new ≡ T.inbox taker.old }
    ensures count { T.count taker.new ≡ T.count taker.old }
    ensures limit { run.new.session.limit ≡ run.old.session.limit }
    ensures within { run.new.session.units ≤ run.new.session.limit }
    ensures writes { WritesOn scenario.now run.old run.new
        (K.tells out.old) (K.tells out.new) result }
    ensures unflushed { IsUnflushed (K.tells out.old) (K.tells out.new) }
{
    let posters = scenario.posters().len() as u64;
    for _ in rt.forever() {
        if !take_posts(rt, scenario, taker, run, out)? {
            return Ok(false);
        }
        if !go_on(scenario, ended, posters, run, out)? {
            return Ok(true);
        }
    }
    Ok(true)
}

/// Makes a turn, if an event is due, and else passes on what the sink still holds. The answer is false where the run is over,
/// or nothing is due and so many posters have ended.
fn go_on<K: Sink>(
    scenario: &Scenario,
    ended: &AtomicU64,
    posters: u64,
    run: &mut LiveRun,
    out: &mut K,
) -> Result<bool, EngineFault>
    requires live { IsLive scenario.now run.old }
    ensures live { OnOk result (IsLive scenario.now run.new) }
    ensures journal { run.new.journal ≡ run.old.journal }
    ensures limit { run.new.session.limit ≡ run.old.session.limit }
    ensures within { run.new.session.units ≤ run.new.session.limit }
    ensures writes { WritesOn scenario.now run.old run.new
        (K.tells out.old) (K.tells out.new) result }
    ensures unflushed { IsUnflushed (K.tells out.old) (K.tells out.new) }
{
    match run.state() {
        Turn::Idle => {
            run.turn(scenario, out)?;
            Ok(true)
        }
        Turn::Empty => {
            out.pass_on()?;
            thread::yield_now();
            Ok(ended.load(Ordering::SeqCst) < posters)
        }
        Turn::Over(_) => Ok(false),
    }
}

/// Takes what is there. Each post comes in at once. The answer is false where a post was taken that its poster has not to
/// post; it does not come in.
fn take_posts<T: Taking, R: Wait, K: Sink>(
    rt: &R,
    scenario: &Scenario,
    taker: &mut T,
    run: &mut LiveRun,
    out: &mut K,
) -> Result<bool, EngineFault>
    requires told { IsTold scenario.now (T.taken taker.old) run.old }
    ensures told { result ≡ Ok true → IsTold scenario.now (T.taken taker.new) run.new }
    ensures foreign { result ≡ Ok false → (p : ℕ) × (p < T.count taker.old)
        × ¬ Begins (T.taken taker.new p) (section scenario.now p) }
    ensures fronts { KeepsFronts scenario.now run.new.journal }
    ensures inbox { T.inbox taker.new ≡ T.inbox taker.old }
    ensures count { T.count taker.new ≡ T.count taker.old }
    ensures limit { run.new.session.limit ≡ run.old.session.limit }
    ensures within { run.new.session.units ≤ run.new.session.limit }
    ensures writes { WritesOn scenario.now run.old run.new
        (K.tells out.old) (K.tells out.new) result }
    ensures unflushed { IsUnflushed (K.tells out.old) (K.tells out.new) }
{
    for _ in rt.forever() {
        let Some(taken) = taker.take() else {
            break;
        };
        if !is_to_post(scenario, &taken) {
            return Ok(false);
        }
        run.arrive(scenario, taken, out)?;
    }
    Ok(true)
}

/// Whether the poster has this to post, with this serial.
fn is_to_post(scenario: &Scenario, taken: &Taken) -> bool
    ensures same { result ≡ true ↔ slice_get (section scenario.now taken.now.poster)
        taken.now.serial ≡ Some taken.now.item }
    ensures port { result ≡ true → taken.now.item.port < length scenario.now.setup.ports }
{
    has_post(scenario.posters(), taken)
}

/// Whether the section of the poster has this with this serial.
fn has_post(sections: &[List<Post>], taken: &Taken) -> bool
    ensures { result ≡ true ↔ slice_get (slice_index_or sections.now taken.now.poster [])
        taken.now.serial ≡ Some taken.now.item }
{
    let Some(posts) = sections.get(taken.poster as usize) else {
        return false;
    };
    let Some(post) = posts.as_slice().get(taken.serial as usize) else {
        return false;
    };
    is_same(post, &taken.item)
}

/// Whether two posts are the same.
fn is_same(a: &Post, b: &Post) -> bool
    ensures { result ≡ true ↔ a.now ≡ b.now }
{
    a.port == b.port && a.value == b.value
}

/// Lets come in what was left when all posters had ended, and then the run goes on to its end.
pub(crate) fn finish<K: Sink>(
    scenario: &Scenario,
    left: &[Taken],
    run: &mut LiveRun,
    out: &mut K,
) -> Result<(), EngineFault>
    requires well_formed { IsTrue (is_well_formed scenario.now) }
    requires live { IsLive scenario.now run.old }
    requires completes { (p : ℕ) → posts_by p run.old.journal ++ entries_by p left.now
        ≡ numbered p 0 (section scenario.now p) }
    ensures live { OnOk result (IsLive scenario.now run.new) }
    ensures ended { OnOk result (turn_of run.new.session ≢ turn.Idle) }
    ensures sections { OnOk result (KeepsSections scenario.now run.new.journal) }
    ensures fronts { KeepsFronts scenario.now run.new.journal }
    ensures limit { run.new.session.limit ≡ run.old.session.limit }
    ensures within { run.new.session.units ≤ run.new.session.limit }
    ensures writes { WritesOn scenario.now run.old run.new
        (K.tells out.old) (K.tells out.new) result }
    ensures unflushed { IsUnflushed (K.tells out.old) (K.tells out.new) }
{
    for taken in left {
        run.arrive(scenario, *taken, out)?;
    }
    while let Turn::Idle = run.state() {
        run.turn(scenario, out)?;
    }
    Ok(())
}
