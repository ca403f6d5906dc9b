//! Runs of one scenario as one future.
ghost use Rattle.std.specs.Prelude.{◌≡◌, ◌≤◌, ◌↔◌, IsTrue, [], All, IfOk, IsOk, OnOk, length, vec_capacity};
ghost use Rattle.futures.specs.Poll.{IfReady, OnPending};
ghost use Rattle.sim_host.specs.Hosting.{IsHosted, IsOver};
ghost use Rattle.sim_host.specs.HostedTogether.{AreStepped, AreTold, CanPoll, MayGive};

use crate::hosted::Hosted;
use futures::Future;
use futures::task::{Context, Poll};
use sim_scenario::Scenario;
use sim_types::{List, Summary};
use std::alloc::{AllocError, Global};

/// A future of what runs of one scenario come to. Each poll steps each run once that is not over. It may be let go at any
/// moment, and `into_runs` gives the runs back.
#[derive(Drop)]
pub struct HostAll<'s, 'a> {
    pub scenario: &'s Scenario,
    pub runs: &'a mut [Hosted],
    /// Room for all answers, until they are told.
    pub room: Option<Vec<Summary>>,
}

impl<'s, 'a> HostAll<'s, 'a> {
    /// Takes room for the answers of these runs.
    pub fn new(
        alloc: Global,
        runs: &'a mut [Hosted],
        scenario: &'s Scenario,
    ) -> Result<HostAll<'s, 'a>, AllocError>
        requires hosted { All (IsHosted scenario.now) runs.old }
        ensures same_reference { IfOk result (λ all.
            all.runs.ghost_name ≡ runs.entry.ghost_name) }
        ensures runs { IfOk result (λ all. all.runs.now ≡ runs.old) }
        ensures scenario { IfOk result (λ all. all.scenario.now ≡ scenario.now) }
        ensures can_poll { IfOk result CanPoll }
    {
        let room = Vec::with_capacity(alloc, runs.len())?;
        Ok(HostAll {
            scenario,
            runs,
            room: Some(room),
        })
    }

    /// Steps each run once that is not over, in their order. Ready where all are over by then, or where a step found no
    /// memory: after that it may only be let go.
    pub fn step_all(&mut self) -> Poll<Result<List<Summary>, AllocError>>
        requires { CanPoll self.old }
        ensures told { IfReady result (MayGive self.old.scenario.now self.old.runs.now) }
        ensures over { IfReady result (λ told.
            OnOk told (All (IsOver self.old.scenario.now) self.new.runs.now)) }
        ensures pending { OnPending result
            (¬ All (IsOver self.old.scenario.now) self.new.runs.now) }
        ensures stepped { OnPending result
            (AreStepped self.old.scenario.now self.old.runs.now self.new.runs.now) }
        ensures ended { IfReady result (λ told. OnOk told
            (AreStepped self.old.scenario.now self.old.runs.now self.new.runs.now)) }
        ensures can_poll { OnPending result (CanPoll self.new) }
        ensures same_reference { self.new.runs.ghost_name ≡ self.old.runs.ghost_name }
        ensures same_scenario { self.new.scenario ≡ self.old.scenario }
    {
        let Some(mut room) = self.room.take() else {
            unreachable!()
        };
        match step_each(self.scenario, self.runs, &mut room) {
            Ok(true) => Poll::Ready(Ok(List::from_vec(room))),
            Ok(false) => {
                self.room = Some(room);
                Poll::Pending
            }
            Err(refused) => Poll::Ready(Err(refused)),
        }
    }

    /// Gives the runs back, as the last poll left them.
    pub fn into_runs(self) -> &'a mut [Hosted]
        ensures same_reference { result.ghost_name ≡ self.entry.runs.ghost_name }
        ensures runs { result.now ≡ self.entry.runs.now }
    {
        let HostAll {
            scenario: _,
            runs,
            room: _,
        } = self;
        runs
    }
}

impl Future for HostAll<'_, '_> {
    type Output = Result<List<Summary>, AllocError>;

    ghost can_poll = { CanPoll };

    ghost gives = { λ all told. MayGive all.scenario.now all.runs.now told };

    fn poll(&mut self, cx: &mut Context<'_>) -> Poll<Result<List<Summary>, AllocError>> {
        match self.step_all() {
            Poll::Ready(told) => Poll::Ready(told),
            Poll::Pending => cx.yield_now(),
        }
    }
}

/// Steps each run once, in order: whether all of them are over then. In that case the room has what they come to.
fn step_each(
    scenario: &Scenario,
    runs: &mut [Hosted],
    room: &mut Vec<Summary>,
) -> Result<bool, AllocError>
    requires hosted { All (IsHosted scenario.now) runs.old }
    requires room { length runs.old ≤ vec_capacity room.old }
    ensures stepped { OnOk result (AreStepped scenario.now runs.old runs.new) }
    ensures over { IfOk result (λ over. IsTrue over ↔ All (IsOver scenario.now) runs.new) }
    ensures told { IfOk result (λ over.
        IsTrue over → AreTold scenario.now runs.old room.new.items) }
    ensures sure { All (IsOver scenario.now) runs.old → IsOk result }
    ensures room { vec_capacity room.new ≡ vec_capacity room.old }
{
    room.clear();
    let mut over = true;
    for run in runs.iter_mut() {
        match run.step(scenario)? {
            Some(summary) => room.push_reserved(summary),
            None => over = false,
        }
    }
    Ok(over)
}
