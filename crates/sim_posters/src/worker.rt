//! A poster at its work: it posts its section, in a thread of its own where one can be made.
ghost use Rattle.std.specs.Prelude.{◌≡◌, ℕ, ◌-◌, ◌<◌, ◌≤◌, ◌^◌, [], length};
ghost use Rattle.sim_posters.specs.Posters.{IsPostedBy};

use core::thread::Stack;
use sim_batch::Gate;
use sim_inbox::Posting;
use sim_types::{List, Post};
use std::marker::Model;
use std::snapshot::Snapshot;
use std::sync::atomic::{AtomicU64, Ordering};
use std::thread::{Promise, PromisedHandle, Scope, Threads};

/// A poster after its work, and whether it posted its whole section.
#[derive(Drop)]
pub struct Ended<P> {
    pub poster: P,
    pub whole: bool,
}

/// What the promise of a poster's thread speaks of: the section that it is to post, and the poster before its work.
#[derive(Drop)]
pub struct Section<P> {
    pub posts: Snapshot<List<Post>>,
    pub before: Snapshot<P>,
}

impl<P> Section<P> {
    fn of(posts: &List<Post>, before: &P) -> Section<P>
        ensures posts { result.posts.value ≡ posts.now }
        ensures before { result.before.value ≡ before.now }
    {
        Section {
            posts: Snapshot::of(posts),
            before: Snapshot::of(before),
        }
    }
}

impl<P: Posting> Promise<Ended<P>> for Section<P> {
    ghost use Rattle.sim_posters.specs.Posters.{IsPostedBy};

    ghost kept_by = { λ section ended.
        IsPostedBy P.Posting section.before.value section.posts.value ended.poster ended.whole };
}

/// A poster at its work, until it is joined.
#[derive(Drop)]
pub struct Worker<P: Posting> {
    /// Its thread, or the poster after its work where no thread could be made.
    started: Result<PromisedHandle<Ended<P>, Section<P>>, Ended<P>>,
    section: Section<P>,
}

impl<P: Posting> Model for Worker<P> {
    ghost use Rattle.std.specs.Prelude.{◌≡◌, MatchResult};
    ghost use Rattle.sim_posters.specs.Posters.{IsPostedBy, WorkerOf};

    ghost Value = { WorkerOf P };

    ghost view = { λ a. record { posts = a.section.posts.value; before = a.section.before.value } };

    ghost invariant = { λ a. MatchResult a.started
        (λ thread. (thread.promise.posts.value ≡ a.section.posts.value)
        × (thread.promise.before.value ≡ a.section.before.value))
        (λ ended. IsPostedBy P.Posting a.section.before.value a.section.posts.value
        ended.poster ended.whole) };
}

impl<P: Posting + Drop> Worker<P> {
    /// The poster after its work, for which this waits.
    pub fn join<R: Threads>(self, rt: &R) -> Ended<P>
        ensures { IsPostedBy P.Posting self.before self.posts result.poster result.whole }
    {
        let Worker {
            started,
            section: _,
        } = self;
        match started {
            Ok(thread) => thread.join(rt),
            Err(ended) => ended,
        }
    }
}

/// Sets a poster to work in a thread of its own, with this stack. Where none can be made it does its work before this call
/// returns.
pub fn start<'s, E, P: Posting + Send + Drop + 's, G: Gate + Sync>(
    scope: &Scope<'s, E>,
    stack: Stack,
    poster: P,
    section: &'s List<Post>,
    gate: &'s G,
    number: u32,
    ended: &'s AtomicU64,
) -> Worker<P>
    requires fresh { P.posted poster ≡ [] }
    requires room { length section.now ≤ P.capacity poster }
    requires few { length section.now < 2 ^ 32 - 1 }
    ensures posts { result.posts ≡ section.now }
    ensures before { result.before ≡ poster }
{
    let promise = Section::of(section, &poster);
    let kept = Section::of(section, &poster);
    let work = move || -> Ended<P>
        requires { (P.posted poster ≡ []) × (length section.now ≤ P.capacity poster)
            × (length section.now < 2 ^ 32 - 1) }
        ensures { IsPostedBy P.Posting poster section.entry.now result.poster result.whole }
    { post_all(poster, section, gate, number, ended) };
    let started = match stack.spawn_scoped_with(scope, promise, work) {
        Ok(thread) => Ok(thread),
        Err(refused) => Err((refused.value)()),
    };
    Worker {
        started,
        section: kept,
    }
}

/// The work of a poster: it passes the gate by its number, posts its section, and is counted among those that ended.
fn post_all<P: Posting, G: Gate>(
    mut poster: P,
    section: &List<Post>,
    gate: &G,
    number: u32,
    ended: &AtomicU64,
) -> Ended<P>
    requires fresh { P.posted poster ≡ [] }
    requires room { length section.now ≤ P.capacity poster }
    requires few { length section.now < 2 ^ 32 - 1 }
    ensures { IsPostedBy P.Posting poster section.now result.poster result.whole }
{
    gate.pass(number);
    let mut whole = true;
    for item in section.as_slice() {
        if poster.post(*item).is_err() {
            whole = false;
            break;
        }
    }
    ended.fetch_add(1, Ordering::SeqCst);
    Ended { poster, whole }
}
