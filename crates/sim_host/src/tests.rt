//! That runs go on by polls or without them, and that an executor gives the answers, is in no clause.
ghost use Rattle.std.specs.Prelude.{All, IfOk};
ghost use Rattle.sim_host.specs.Hosting.{IsHosted};

use crate::hosting::{close_all, replicate_all};
use crate::{HostAll, Hosted, host};
use futures::task::Poll;
use sim_code::read;
use sim_scenario::Scenario;
use sim_types::{End, List, Summary};
use std::alloc::{AllocError, Global};
use std::test::Fail;

/// Two values come in, one at once and one after all else. Each is waited for and logged.
const TWO_VALUES: &[u8] =
    b"scenario 1\nuntil empty\nport inn job\nprocess job v\ntimeout v\nlog v\nend\njournal\nafter 0 0 0 inn 2\nafter 100 0 1 inn 1\n";

/// The same, where each log is of a random number.
const RANDOM: &[u8] =
    b"scenario 1\nuntil empty\nseed 7\nport inn job\nprocess job v\ntimeout v\ndraw x 1 1000000\nlog x\nend\njournal\nafter 0 0 0 inn 2\nafter 100 0 1 inn 1\n";

/// What the first text comes to.
const TO_ITS_END: Summary = Summary {
    end: End::Empty,
    time: 3,
    processed: 6,
    logs: 2,
    total: 3,
};

/// What it comes to in one unit, which is the first arrival.
const ONE_UNIT: Summary = Summary {
    end: End::Limit,
    time: 0,
    processed: 0,
    logs: 0,
    total: 0,
};

fn scenario_of(alloc: Global, text: &[u8]) -> Result<Scenario, AllocError> {
    match read(alloc, text) {
        Ok(scenario) => Ok(scenario),
        Err(_) => Err(AllocError),
    }
}

/// Opens a run for each limit.
fn open_each(alloc: Global, scenario: &Scenario, limits: &[u32]) -> Result<Vec<Hosted>, AllocError>
    ensures { IfOk result (λ runs. All (IsHosted scenario.now) runs.items) }
{
    let mut runs = Vec::with_capacity(alloc, limits.len())?;
    for limit in limits {
        match Hosted::new(alloc, scenario, scenario.seed(), *limit) {
            Ok(run) => runs.push_reserved(run),
            Err(refused) => {
                close_all(runs);
                return Err(refused);
            }
        }
    }
    Ok(runs)
}

/// Polls the runs as one future until it is ready, at most so often: how often it was pending, and what they come to.
fn poll_all(
    alloc: Global,
    scenario: &Scenario,
    runs: &mut [Hosted],
    most: u32,
) -> Result<Option<(u32, List<Summary>)>, AllocError>
    requires { All (IsHosted scenario.now) runs.old }
{
    let mut all = HostAll::new(alloc, runs, scenario)?;
    for polls in 0..most {
        if let Poll::Ready(told) = all.step_all() {
            return Ok(Some((polls, told?)));
        }
    }
    Ok(None)
}

/// Steps a run until it is over.
fn finish(scenario: &Scenario, run: &mut Hosted) -> Result<Summary, AllocError>
    requires { IsHosted scenario.now run.old }
{
    loop {
        if let Some(summary) = run.step(scenario)? {
            return Ok(summary);
        }
    }
}

/// Polls the runs as one future once, takes them back, and steps each run until it is over. None where the poll was ready.
fn poll_once(
    alloc: Global,
    scenario: &Scenario,
    runs: &mut [Hosted],
) -> Result<Option<List<Summary>>, AllocError>
    requires { All (IsHosted scenario.now) runs.old }
{
    let mut all = HostAll::new(alloc, runs, scenario)?;
    let Poll::Pending = all.step_all() else {
        return Ok(None);
    };
    let runs = all.into_runs();
    let mut summaries = List::new(alloc);
    for run in runs.iter_mut() {
        summaries.push(finish(scenario, run)?)?;
    }
    Ok(Some(summaries))
}

#[test]
fn answers_come_in_the_order_of_the_runs(rt: HostRuntime) -> Result<(), Fail> {
    let scenario = scenario_of(rt.alloc(), TWO_VALUES)?;
    let mut runs = open_each(rt.alloc(), &scenario, &[1000, 1])?;
    let polled = poll_all(rt.alloc(), &scenario, runs.as_mut_slice(), 100);
    close_all(runs);
    let Some((pending, told)) = polled? else {
        panic!(rt; "not ready after 100 polls");
    };
    assert!(rt; pending > 0);
    assert_eq!(rt; told.as_slice(), [TO_ITS_END, ONE_UNIT].as_slice());
    Ok(())
}

#[test]
fn runs_go_on_without_their_future(rt: HostRuntime) -> Result<(), Fail> {
    let scenario = scenario_of(rt.alloc(), TWO_VALUES)?;
    let mut runs = open_each(rt.alloc(), &scenario, &[1, 1000])?;
    let stepped = poll_once(rt.alloc(), &scenario, runs.as_mut_slice());
    close_all(runs);
    let Some(told) = stepped? else {
        panic!(rt; "ready at the first poll");
    };
    assert_eq!(rt; told.as_slice(), [ONE_UNIT, TO_ITS_END].as_slice());
    Ok(())
}

#[test]
fn each_replication_is_as_if_alone(rt: HostRuntime) -> Result<(), Fail> {
    let scenario = scenario_of(rt.alloc(), RANDOM)?;
    for limit in [1, 2, 3, 1000] {
        let told = host(&rt, &scenario, 3, limit)?;
        let alone = replicate_all(rt.alloc(), &scenario, 3, limit)?;
        assert_eq!(rt; told.as_slice(), alone.as_slice(), "of {limit} units");
    }
    let told = host(&rt, &scenario, 2, 1000)?;
    assert!(rt; told.as_slice().first() != told.as_slice().last());
    Ok(())
}
