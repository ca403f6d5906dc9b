//! A batch: shares of the replications, and those of a share one after another in one thread.
ghost use Rattle.std.specs.Prelude.{◌≡◌, ℕ, ◌+◌, ◌*◌, ◌/◌, ◌^◌, ◌<◌, ◌≤◌, All, IfOk, vec_len, slice_index_or};
ghost use Rattle.sim_batch.specs.Batches.{answers_of, answers_between};

use crate::gate::Gate;
use crate::job::Job;
use sim_types::{List, Summary};
use std::alloc::{AllocError, Global};
use std::thread::{Threads, map_indices};

/// How many shares a batch has, at most, since each may start a thread.
const MOST_SHARES: u32 = 16;

/// The answers to the indices below `count`, in order. Each index passes the gate once, before its work.
pub fn batch<R: Threads + Sync, J: Job + Sync, G: Gate + Sync>(
    rt: &R,
    alloc: Global,
    job: &J,
    count: u32,
    gate: &G,
) -> Result<List<Summary>, AllocError>
    ensures answers { IfOk result (λ summaries. summaries ≡ answers_of (J.answer job.now) count) }
    ensures kept { IfOk result (All (J.keeps job.now)) }
{
    let shares = MOST_SHARES.min(count);
    let answers = answer_shares(rt, alloc, job, shares, count, gate)?;
    let mut summaries = Vec::with_capacity(alloc, count as usize)?;
    for answer in &answers {
        match answer {
            Ok(further) => summaries.extend_from_slice(further)?,
            Err(error) => return Err(*error),
        }
    }
    Ok(List::from_vec(summaries))
}

/// The answers to each share, from a thread of its own where one can be started.
#[tactic(auto, using(crate::proofs::Growing::starts_rise))]
fn answer_shares<R: Threads + Sync, J: Job + Sync, G: Gate + Sync>(
    rt: &R,
    alloc: Global,
    job: &J,
    shares: u32,
    count: u32,
    gate: &G,
) -> Result<Vec<Result<Vec<Summary>, AllocError>>, AllocError>
    requires { shares ≤ 16 }
    ensures len { IfOk result (λ answers. vec_len answers ≡ shares) }
    ensures each { IfOk result (λ answers. (share : ℕ) (d : _) → share < shares →
        IfOk (slice_index_or answers.items share d) (λ further.
        further.items ≡ answers_between (J.answer job.now)
        (share * count / shares) ((share + 1) * count / shares))) }
    ensures kept { IfOk result (λ answers. (share : ℕ) (d : _) → share < shares →
        IfOk (slice_index_or answers.items share d) (λ further.
        All (J.keeps job.now) further.items)) }
{
    map_indices(
        rt,
        alloc,
        shares as usize,
        &|share|
            requires { (share < shares) × (shares ≤ 16) }
        {
            let first = start_of(share as u32, shares, count);
            let end = start_of(share as u32 + 1, shares, count);
            answer_between(alloc, job, first, end, gate)
        },
    )
}

/// The first index of a share, where the shares differ by one index at most. A share ends where the next begins.
fn start_of(share: u32, shares: u32, count: u32) -> u32
    requires some { 0 < shares }
    requires within { share ≤ shares }
    ensures { result ≡ share * count / shares }
{
    (u64::from(share) * u64::from(count) / u64::from(shares)) as u32
}

/// The answers to the indices from the first on to one before the end.
#[tactic(auto, using(crate::proofs::Growing::answers_more))]
fn answer_between<J: Job, G: Gate>(
    alloc: Global,
    job: &J,
    first: u32,
    end: u32,
    gate: &G,
) -> Result<Vec<Summary>, AllocError>
    requires { first ≤ end }
    ensures answers { IfOk result (λ summaries.
        summaries.items ≡ answers_between (J.answer job.now) first end) }
    ensures kept { IfOk result (λ summaries. All (J.keeps job.now) summaries.items) }
{
    let mut summaries = Vec::with_capacity(alloc, (end - first) as usize)?;
    for index in first..end {
        gate.pass(index);
        summaries.push(job.one(alloc, index)?)?;
    }
    Ok(summaries)
}
