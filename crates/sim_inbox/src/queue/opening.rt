//! How a queue is opened, with its taker and posters.
ghost use Rattle.std.specs.Prelude.{◌≡◌, ℕ, ◌-◌, ◌<◌, ◌≤◌, ◌^◌, [], length, replicate, All, Some, None, IfOk, OnOk, slice_get, slice_index};
ghost use Rattle.std.specs.Arc.{arc_value};
ghost use Rattle.crossbeam_queue.specs.SegTies.{IsSegPassOf};
ghost use Rattle.sim_inbox.specs.QueueEnds.{ArePostersOf, HavePostedNothing, QueuePosterOf, inbox_of, taken_from};
ghost use Rattle.sim_inbox.specs.declared.rule.View.TheVariants.{Taker};

use super::{Line, QueuePoster, QueueTaker};
use crate::posting::Inbox;
use crate::rule::{Posters, View};
use crate::taken::Taken;
use crossbeam_queue::{RuledSegQueue, SegPass};
use sim_types::List;
use std::alloc::{AllocError, Global};
use std::sync::{Arc, Wait};

/// The ends of so many posters, split off the first pass.
fn all_posters<R: Wait + Clone + Drop>(
    rt: &R,
    alloc: Global,
    line: &Arc<Line, Global>,
    pass: &mut SegPass<Taken, View>,
    count: u32,
) -> Result<Vec<QueuePoster<R>>, AllocError>
    requires queue { IsSegPassOf (arc_value line.now).queue pass.old }
    requires first { pass.old.me.view.client ≡ Taker [] [] }
    ensures queue { OnOk result (IsSegPassOf (arc_value line.now).queue pass.new) }
    ensures split { OnOk result (pass.new.me.view.client ≡ Taker [] (replicate count None)) }
    ensures many { IfOk result (λ v. length v.items ≡ count) }
    ensures own { IfOk result
        (λ v. ArePostersOf (inbox_of (arc_value line.now).queue.web) v.items) }
    ensures fresh { IfOk result (λ v. HavePostedNothing v.items) }
{
    let mut posters = Vec::new(alloc);
    for number in 0..count {
        let theirs = Arc::try_clone(line)?;
        let own = line.queue.another::<Posters>(pass);
        posters.push(QueuePoster {
            rt: rt.clone()?,
            line: theirs,
            pass: own,
            number,
            count: 0,
        })?;
    }
    Ok(posters)
}

/// A queue with so many posters. Each end holds a clone of the runtime's value.
pub fn new_queue<R: Wait + Clone + Drop>(
    rt: &R,
    alloc: Global,
    posters: u32,
) -> Result<(QueueTaker<R>, List<QueuePoster<R>>), AllocError>
    ensures count { IfOk result (λ r. r.0.wholes ≡ replicate posters None) }
    ensures taken { IfOk result (λ r. r.0.taken ≡ []) }
    ensures many { IfOk result (λ r. length r.1 ≡ posters) }
    ensures own { IfOk result (λ r. ArePostersOf r.0.inbox r.1) }
    ensures fresh { IfOk result (λ r. HavePostedNothing r.1) }
{
    let (queue, mut pass) = RuledSegQueue::with_rule(alloc)?;
    let line = Arc::new(alloc, Line { queue })?;
    let ends = all_posters(rt, alloc, &line, &mut pass, posters)?;
    Ok((
        QueueTaker {
            rt: rt.clone()?,
            line,
            pass,
        },
        List::from_vec(ends),
    ))
}

/// Opens queues, whose ends each hold a clone of a runtime's value. It takes no notice of capacities: each poster has that
/// of all that it may ever post.
#[derive(Drop)]
pub struct QueueInbox<'r, R> {
    pub rt: &'r R,
}

impl<'r, R: Wait + Clone + Drop + Send> Inbox for QueueInbox<'r, R> {
    type Taker = QueueTaker<R>;

    fn open(
        &self,
        alloc: Global,
        capacities: &[u32],
    ) -> Result<(QueueTaker<R>, List<QueuePoster<R>>), AllocError>
        requires few { length capacities.now ≤ 16 }
        requires each { All (λ c. 0 < c) capacities.now }
        ensures taker { IfOk result (λ r. (length r.0.wholes ≡ length capacities.now)
            × ((p : ℕ) → taken_from r.0 p ≡ [])) }
        ensures many { IfOk result (λ r. length r.1 ≡ length capacities.now) }
        ensures own { IfOk result (λ r. ArePostersOf r.0.inbox r.1) }
        ensures fresh { IfOk result (λ r.
            (p : ℕ) (x : QueuePosterOf) → slice_get r.1 p ≡ Some x →
            (x.posted ≡ []) × (slice_index capacities.now p ≤ 2 ^ 32 - 1)) }
    {
        new_queue(self.rt, alloc, capacities.len() as u32)
    }
}
