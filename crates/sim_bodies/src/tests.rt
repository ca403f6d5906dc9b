ghost use Rattle.std.specs.Prelude.{◌≡◌, ◌<◌, ◌≤◌, IfOk, IfSome, IsTrue, length};
ghost use Rattle.std.specs.List.{AllPass};
ghost use Rattle.sim_machine.specs.Setups.{FitsCode, start_fits, until_fits};
ghost use Rattle.sim_steps_model.specs.Resting.{can_arrive};
ghost use Rattle.sim_bodies.specs.Travellers.{traveller_facts};

mod customers;
mod lines;

use crate::{Clock, Land, Pace, Traveller};
use lines::{arrive, end, finished, init, line, log, timeout};
use rand_core::SeedableRng;
use rand_core::utils::NextWord;
use rand_pcg::Pcg64;
use sim_kernel::{Kernel, Rest, Unit};
use sim_plain::Plain;
use sim_procs::Body;
use sim_types::{End, EventKind, Line, List, Outcome, Setup, Start, Throw, Until};
use std::alloc::{AllocError, Global};
use std::process::Abort;

// ---- runs

// Makes units until none is left or the limit is reached, and gathers their lines.
fn lines_of_units<B: Body>(
    alloc: Global,
    kernel: &mut Kernel<B>,
    code: &B::Code,
    limit: u32,
) -> Result<Vec<Line>, AllocError>
    requires code { code.now ≡ kernel.old.parts.code }
    requires units { kernel.old.units ≡ 0 }
{
    let mut lines = Vec::new(alloc);
    for _unit in 0..limit {
        if !matches!(kernel.rest(), Rest::Busy | Rest::Idle) {
            break;
        }
        if let Unit::Line(line) = kernel.units(code, 1)?.last {
            lines.push(line)?;
        }
    }
    Ok(lines)
}

// The value that comes in next, where it is due: nothing is being done, and so many events were processed or none is to come.
fn due_value(next: Option<&(u64, i64)>, rest: Rest, processed: u64) -> Option<i64>
    ensures { IfSome result (λ _. IsTrue (can_arrive rest)) }
{
    match (next, rest) {
        (Some((_, value)), Rest::Empty) => Some(*value),
        (Some((after, value)), Rest::Idle) if *after <= processed => Some(*value),
        _ => None,
    }
}

// Makes units as above, while these values come in by the first port, each as soon as it is due.
fn lines_with_arrivals<B: Body>(
    alloc: Global,
    kernel: &mut Kernel<B>,
    code: &B::Code,
    journal: &[(u64, i64)],
    limit: u32,
) -> Result<Vec<Line>, AllocError>
    requires code { code.now ≡ kernel.old.parts.code }
    requires port { 0 < length kernel.old.parts.setup.ports }
    requires units { kernel.old.units ≡ 0 }
{
    let mut lines = Vec::new(alloc);
    let mut came = 0;
    for _unit in 0..limit {
        let rest = kernel.rest();
        if let Some(value) = due_value(journal.get(came), rest, kernel.processed()) {
            lines.push(kernel.arrive(code, 0, value)?)?;
            came += 1;
        } else if matches!(rest, Rest::Busy | Rest::Idle) {
            if let Unit::Line(line) = kernel.units(code, 1)?.last {
                lines.push(line)?;
            }
        } else {
            break;
        }
    }
    Ok(lines)
}

// How the run has ended.
fn end_of<B: Body>(kernel: &Kernel<B>) -> End {
    match kernel.rest() {
        Rest::Empty => End::Empty,
        Rest::Over(why) => why,
        Rest::Busy | Rest::Idle => End::Limit,
    }
}

// The lines of a run, and one on its end.
fn ended<B: Body>(
    kernel: Kernel<B>,
    lines: Result<Vec<Line>, AllocError>,
) -> Result<Vec<Line>, AllocError> {
    let end = end_of(&kernel);
    let (time, processed) = kernel.finish();
    let mut lines = lines?;
    lines.push(Line::Finish {
        end,
        time,
        processed,
    })?;
    Ok(lines)
}

// The lines of a run of so many units at most, and one on its end.
fn lines_of_run<B: Body>(
    alloc: Global,
    code: &B::Code,
    setup: &Setup,
    seed: u64,
    limit: u32,
) -> Result<Vec<Line>, AllocError>
    requires fits { FitsCode (B.body.facts code.now) setup.now }
{
    let mut kernel = Kernel::<B>::new(alloc, code, setup, seed)?;
    let lines = lines_of_units(alloc, &mut kernel, code, limit);
    ended(kernel, lines)
}

// The start of a traveller that is given two numbers.
#[tactic(auto, using(crate::proofs::TestSetups::traveller_start_fits))]
fn traveller_start(alloc: Global, kind: u32, first: i64, second: i64) -> Result<Start, AllocError>
    requires { kind < 3 }
    ensures { IfOk result (λ start. IsTrue (start_fits traveller_facts start)) }
{
    Ok(Start {
        kind,
        args: List::from_vec(Vec::from_slice(alloc, &[first, second])?),
    })
}

// The starts of these travellers.
fn land_starts(
    rt: &impl Abort,
    alloc: Global,
    travellers: &[(u32, i64, i64)],
) -> Result<List<Start>, AllocError>
    ensures pass { IfOk result (λ starts. AllPass (start_fits traveller_facts) starts) }
    ensures few { IfOk result (λ starts. length starts ≤ length travellers.now) }
{
    let mut starts = List::new(alloc);
    for (kind, first, second) in travellers {
        assert!(rt; *kind < 3);
        starts.push(traveller_start(alloc, *kind, *first, *second)?)?;
    }
    Ok(starts)
}

// The lines of a run of these travellers, of 100 units at most.
#[tactic(auto, using(crate::proofs::TestSetups::land_fits))]
fn land_run(
    rt: &impl Abort,
    alloc: Global,
    until: Until,
    travellers: &[(u32, i64, i64)],
) -> Result<Vec<Line>, AllocError>
    requires { IsTrue (until_fits 0 until) }
{
    let starts = land_starts(rt, alloc, travellers)?;
    assert!(rt; starts.len() <= 65536);
    let setup = Setup {
        until,
        events: 0,
        resources: List::new(alloc),
        ports: List::new(alloc),
        starts,
    };
    lines_of_run::<Plain<Traveller>>(alloc, &Land {}, &setup, 7, 100)
}

// The lines of a run of one traveller, and of those that set out as these values come in, of 100 units at most.
#[tactic(auto, using(crate::proofs::TestSetups::land_with_port_fits))]
fn arrivals_run(alloc: Global, journal: &[(u64, i64)]) -> Result<Vec<Line>, AllocError> {
    let mut ports = List::new(alloc);
    ports.push(3)?;
    let mut starts = List::new(alloc);
    starts.push(traveller_start(alloc, 0, 5, 7)?)?;
    let setup = Setup {
        until: Until::Never,
        events: 0,
        resources: List::new(alloc),
        ports,
        starts,
    };
    let land = Land {};
    let mut kernel = Kernel::<Plain<Traveller>>::new(alloc, &land, &setup, 7)?;
    let lines = lines_with_arrivals(alloc, &mut kernel, &land, journal, 100);
    ended(kernel, lines)
}

// Whether these are the lines of a run of these travellers.
fn land_runs_so(
    rt: &impl Abort,
    alloc: Global,
    until: Until,
    travellers: &[(u32, i64, i64)],
    want: &[Line],
) -> bool
    requires { IsTrue (until_fits 0 until) }
{
    match land_run(rt, alloc, until, travellers) {
        Ok(lines) => lines.as_slice() == want,
        Err(AllocError) => false,
    }
}

// The lines of a run of so many clocks.
#[tactic(auto, using(crate::proofs::TestSetups::clock_start_fits))]
fn clock_run(alloc: Global, delay: i64, limit: u32) -> Result<Vec<Line>, AllocError> {
    let mut starts = List::new(alloc);
    starts.push(Start {
        kind: 0,
        args: List::new(alloc),
    })?;
    let setup = Setup {
        until: Until::Never,
        events: 0,
        resources: List::new(alloc),
        ports: List::new(alloc),
        starts,
    };
    lines_of_run::<Plain<Clock>>(alloc, &Pace { delay }, &setup, 0, limit)
}

// Whether a run of so many units of a clock of pace 2 has these lines, and ends at this time.
fn clock_runs_so(alloc: Global, limit: u32, want: &[Line], time: i64) -> bool {
    match clock_run(alloc, 2, limit) {
        Ok(lines) => match lines.as_slice().split_last() {
            Some((last, front)) => {
                let processed = want.len().div_ceil(2) as u64;
                front == want && *last == end(End::Limit, time, processed)
            }
            None => false,
        },
        Err(AllocError) => false,
    }
}

// ---- tests

// The expected lines are worked out by the rules of docs/machine.md: an event is made when it is asked for and gets the
// next number, an entry of the agenda gets the next scheduling number, and of two that are due at one time the urgent
// one, and then the earlier scheduled one, comes first.
#[test]
fn travellers_are_told_when_they_paused(rt: HostRuntime) {
    for first in [5, 0, 4_611_686_018_427_387_904] {
        let want = [
            init(0, 2),
            timeout(first, 1, 3, 7),
            log(first, 1, 7),
            finished(first, 2, 1, 7),
            end(End::Empty, first, 3),
        ];
        assert!(rt;
            land_runs_so(&rt, rt.alloc(), Until::Never, &[(0, first, 7)], &want),
            "pause of {first}"
        );
    }
}

#[test]
fn travellers_are_told_at_once(rt: HostRuntime) {
    let rows = [
        (0, -1, 7, 1),
        (0, i64::MIN, 7, 1),
        (0, 4_611_686_018_427_387_905, 7, 9),
        (1, 3, 2, 8),
        (1, 4, 4, 4),
        (1, i64::MIN, i64::MIN, i64::MIN),
    ];
    for (kind, first, second, value) in rows {
        let want = [
            init(0, 2),
            log(0, 1, value),
            finished(0, 1, 1, second),
            end(End::Empty, 0, 2),
        ];
        assert!(rt;
            land_runs_so(
                &rt,
                rt.alloc(),
                Until::Never,
                &[(kind, first, second)],
                &want
            ),
            "kind {kind} of {first}"
        );
    }
}

// The failure of a process that nobody waits for ends the run.
#[test]
fn a_failure_that_nobody_defused_ends_the_run(rt: HostRuntime) {
    let thrown = Throw { kind: 1, value: 9 };
    let want = [
        init(0, 2),
        log(0, 1, 0),
        init(1, 4),
        line(0, 1, 2, EventKind::Process, 1, Outcome::Fail(thrown)),
        end(End::Crash, 0, 3),
    ];
    assert!(rt;
        land_runs_so(
            &rt,
            rt.alloc(),
            Until::Never,
            &[(2, 0, 9), (0, 5, 7)],
            &want
        )
    );
}

// Two timeouts are due at one time: the one that was scheduled first comes first.
#[test]
fn ties_go_by_the_order_of_scheduling(rt: HostRuntime) {
    let want = [
        init(0, 2),
        init(1, 4),
        timeout(3, 2, 5, 1),
        log(3, 1, 1),
        timeout(3, 3, 6, 2),
        log(3, 3, 2),
        finished(3, 4, 1, 1),
        finished(3, 5, 3, 2),
        end(End::Empty, 3, 6),
    ];
    assert!(rt;
        land_runs_so(
            &rt,
            rt.alloc(),
            Until::Never,
            &[(0, 3, 1), (0, 3, 2)],
            &want
        )
    );
}

// What stops a run at a time is urgent, so what else is due then is not processed.
#[test]
fn a_run_is_stopped_at_its_time(rt: HostRuntime) {
    let want = [
        init(0, 2),
        line(5, 0, 1, EventKind::Stop, 3, Outcome::Ok(0)),
        end(End::Until, 5, 2),
    ];
    assert!(rt; land_runs_so(&rt, rt.alloc(), Until::At(5), &[(0, 5, 7)], &want));
}

// A number is drawn by the first word of the generator that the seed, which is 7 here, gives.
#[test]
fn numbers_are_drawn_by_the_words_of_the_generator(rt: HostRuntime) {
    let word = Pcg64::seed_from_u64(7).next_word();
    let drawn = 1 + (word % 6) as i64;
    let want = [
        init(0, 2),
        log(0, 1, drawn),
        finished(0, 1, 1, 6),
        end(End::Empty, 0, 2),
    ];
    assert!(rt; land_runs_so(&rt, rt.alloc(), Until::Never, &[(1, 1, 6)], &want));
}

// A value that comes in makes a process, whose event and init event have the next numbers, and whose init event is due now:
// before all else, once two events were processed, and as soon as nothing is left to process.
#[test]
fn what_arrives_begins_a_process(rt: HostRuntime) {
    let want = [
        arrive(0, 2),
        init(0, 2),
        init(1, 4),
        arrive(2, 1),
        init(4, 8),
        timeout(1, 5, 9, 0),
        log(1, 7, 0),
        finished(1, 6, 7, 0),
        timeout(2, 3, 6, 0),
        log(2, 3, 0),
        finished(2, 7, 3, 0),
        timeout(5, 2, 5, 7),
        log(5, 1, 7),
        finished(5, 8, 1, 7),
        arrive(9, 4),
        line(5, 0, 9, EventKind::Init, 11, Outcome::Ok(0)),
        timeout(9, 10, 12, 0),
        log(9, 10, 0),
        finished(9, 11, 10, 0),
        end(End::Empty, 9, 12),
    ];
    match arrivals_run(rt.alloc(), &[(0, 2), (2, 1), (100, 4)]) {
        Ok(lines) => assert!(rt; lines.as_slice() == want.as_slice()),
        Err(AllocError) => assert!(rt; false),
    }
}

// Five units make a turn of the clock: an event is popped, its callback is called, the clock logs, pauses, and the event
// is settled.
#[test]
fn a_clock_ticks_until_the_limit(rt: HostRuntime) {
    let whole = [
        init(0, 2),
        log(0, 1, 0),
        timeout(2, 1, 3, 0),
        log(2, 1, 2),
        timeout(4, 2, 4, 0),
    ];
    let rows = [
        (0, 0, 0),
        (1, 1, 0),
        (2, 1, 0),
        (3, 2, 0),
        (5, 2, 0),
        (6, 3, 2),
        (7, 3, 2),
        (8, 4, 2),
        (10, 4, 2),
        (11, 5, 4),
    ];
    for (limit, count, time) in rows {
        let want = whole.get(..count).unwrap_or(&[]);
        assert!(rt;
            clock_runs_so(rt.alloc(), limit, want, time),
            "limit {limit}"
        );
    }
}
