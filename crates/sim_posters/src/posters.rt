//! All posters of a run: what room their inbox needs, their start, and their way back.
ghost use Rattle.std.specs.Prelude.{◌≡◌, ℕ, ◌-◌, ◌<◌, ◌≤◌, ◌^◌, [], length, map, slice_get, slice_index_or, Some, IfOk};
ghost use Rattle.sim_posters.specs.Posters.{capacity_of, IsBack, IsFresh, IsWorker, WorkerOf};

use crate::worker::{Ended, Worker, start};
use core::thread::Stack;
use sim_batch::Gate;
use sim_inbox::{Posting, Taking};
use sim_types::{List, Post};
use std::alloc::{AllocError, Global};
use std::sync::atomic::AtomicU64;
use std::thread::{Scope, Threads};

/// The capacities of an inbox that no poster finds full: the length of each section, and 1 for an empty one.
pub fn capacities_of(alloc: Global, sections: &[List<Post>]) -> Result<Vec<u32>, AllocError>
    requires small { (p : ℕ) → length (slice_index_or sections.now p []) < 2 ^ 32 - 1 }
    ensures many { IfOk result (λ capacities. length capacities.items ≡ length sections.now) }
    ensures each { IfOk result (λ capacities. (p : ℕ) → p < length sections.now →
        (0 < slice_index_or capacities.items p 0)
        × (length (slice_index_or sections.now p []) ≤ slice_index_or capacities.items p 0)) }
    ensures exact { IfOk result (λ capacities. capacities.items ≡ map capacity_of sections.now) }
{
    let mut capacities = Vec::with_capacity(alloc, sections.len())?;
    for section in sections {
        capacities.push_reserved((section.len() as u32).max(1));
    }
    Ok(capacities)
}

/// Sets all posters to work, the last one first. Each passes the gate by its number before its first post, and its last act
/// is to add one to `ended`. One for which no thread can be made does its work before this call returns. Contracts alone
/// read the taker.
pub fn start_all<'s, E, T: Taking, G: Gate + Sync>(
    scope: &Scope<'s, E>,
    alloc: Global,
    _taker: &T,
    posters: List<T::Poster>,
    sections: &'s [List<Post>],
    gate: &'s G,
    ended: &'s AtomicU64,
) -> Result<Vec<Worker<T::Poster>>, AllocError>
where
    T::Poster: 's,
    requires many { length posters ≡ length sections.now }
    requires few { length sections.now ≤ 16 }
    requires fresh { (p : ℕ) (x : T.Poster) → slice_get posters p ≡ Some x →
        IsFresh T.Poster.Posting (T.inbox _taker.now) sections.now p x }
    ensures many { IfOk result (λ workers. length workers.items ≡ length sections.now) }
    ensures workers { IfOk result (λ workers.
        (j : ℕ) (x : WorkerOf T.Poster) → slice_get workers.items j ≡ Some x →
        IsWorker T.Poster.Posting (T.inbox _taker.now) sections.now (length sections.now) j x) }
{
    let mut posters = posters.into_vec();
    let mut workers = Vec::with_capacity(alloc, posters.len())?;
    while let Some(poster) = posters.pop() {
        let number = posters.len();
        workers.push_reserved(start_at(scope, poster, sections, number, gate, ended));
    }
    Ok(workers)
}

/// Sets the poster of this number to work.
fn start_at<'s, E, P: Posting + Send + Drop + 's, G: Gate + Sync>(
    scope: &Scope<'s, E>,
    poster: P,
    sections: &'s [List<Post>],
    number: usize,
    gate: &'s G,
    ended: &'s AtomicU64,
) -> Worker<P>
    requires within { number < length sections.now }
    requires few { length sections.now ≤ 16 }
    requires fresh { IsFresh P.Posting (P.inbox poster) sections.now number poster }
    ensures posts { result.posts ≡ slice_index_or sections.now number [] }
    ensures before { result.before ≡ poster }
{
    let stack = Stack::new();
    start(
        scope,
        stack,
        poster,
        &sections[number],
        gate,
        number as u32,
        ended,
    )
}

/// The posters after their work, in order of number. There is no answer without memory for them, nor where one of them found
/// no memory for a post, as can only be where posts take memory. Contracts alone read the taker and the sections.
pub fn join_all<T: Taking, R: Threads>(
    rt: &R,
    alloc: Global,
    _taker: &T,
    workers: Vec<Worker<T::Poster>>,
    _sections: &[List<Post>],
) -> Result<List<T::Poster>, AllocError>
    requires many { length workers.items ≡ length _sections.now }
    requires workers { (j : ℕ) (x : WorkerOf T.Poster) → slice_get workers.items j ≡ Some x →
        IsWorker T.Poster.Posting (T.inbox _taker.now) _sections.now (length _sections.now) j x }
    ensures many { IfOk result (λ posters. length posters ≡ length _sections.now) }
    ensures back { IfOk result (λ posters.
        (p : ℕ) (x : T.Poster) → slice_get posters p ≡ Some x →
        IsBack T.Poster.Posting (T.inbox _taker.now) _sections.now p x) }
{
    let mut workers = workers;
    let mut posters = Vec::with_capacity(alloc, workers.len())?;
    while let Some(worker) = workers.pop() {
        let Ended { poster, whole } = worker.join(rt);
        if !whole {
            return Err(AllocError);
        }
        posters.push_reserved(poster);
    }
    Ok(List::from_vec(posters))
}
