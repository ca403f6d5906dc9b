//! Live runs by the top call: posters that post at once, through the inbox that is given, and journals that are run again.
use crate::calls::{Meeting, source_of, words_of};
use crate::counting::{CountingInbox, Counts};
use crate::lived::{ENOUGH, LOGGING, Lived, THREE_EACH, live, with_posters};
use sim_batch::FreeGate;
use sim_desk::desk;
use sim_inbox::{Inbox, QueueInbox};
use sim_lanes::LaneInbox;
use sim_live::live_desk;
use sim_outside::MemSink;
use std::alloc::{AllocError, Global};
use std::sync::Wait;
use std::test::Fail;
use std::thread::Threads;

/// Whether two posters over this inbox each see the other before they post, the journal has the posts of each in its order,
/// and says the same run again.
fn meet<R: Threads + Wait + Sync, I: Inbox>(
    rt: &R,
    alloc: Global,
    inbox: &I,
) -> Result<bool, AllocError> {
    let gate = Meeting::new();
    let text = with_posters(alloc, LOGGING, THREE_EACH)?;
    let lived = Lived::of(rt, alloc, &gate, inbox, 1000, text.as_str())?;
    Ok(
        lived.code == 0
            && gate.met() == 2
            && lived.has_three_each(alloc)?
            && lived.runs_again(rt, alloc, 1000, LOGGING)?,
    )
}

/// Posters post at once, over lanes and over a queue. The journal has the posts of each in its order, and says the run again.
#[test]
fn posters_post_at_once_and_their_journal_runs_again(rt: HostRuntime) -> Result<(), Fail> {
    assert!(rt; meet(&rt, rt.alloc(), &LaneInbox)?, "over lanes");
    let queue = QueueInbox { rt: &rt };
    assert!(rt; meet(&rt, rt.alloc(), &queue)?, "over a queue");
    Ok(())
}

/// What is posted goes through the ends of the inbox that is given, and all of it comes out by its taker.
#[test]
fn posts_go_through_the_inbox_that_is_given(rt: HostRuntime) -> Result<(), Fail> {
    let alloc = rt.alloc();
    let text = with_posters(alloc, LOGGING, THREE_EACH)?;
    let counts = Counts::new();
    let inbox = CountingInbox { counts: &counts };
    let lived = Lived::of(&rt, alloc, &FreeGate, &inbox, 1000, text.as_str())?;
    assert_eq!(rt; lived.code, 0);
    assert!(rt; lived.has_three_each(alloc)?);
    assert_eq!(rt; counts.posted(), 6);
    assert_eq!(rt; counts.given(), 6);
    Ok(())
}

/// A poster passes its gate before its first post.
#[test]
fn the_gate_is_passed_first(rt: HostRuntime) -> Result<(), Fail> {
    let alloc = rt.alloc();
    let text = with_posters(alloc, LOGGING, "poster 0\ninn 1\ninn 2\n")?;
    let counts = Counts::new();
    let inbox = CountingInbox { counts: &counts };
    let lived = Lived::of(&rt, alloc, &counts, &inbox, 1000, text.as_str())?;
    assert_eq!(rt; lived.code, 0);
    assert_eq!(rt; counts.posted(), 2);
    assert_eq!(rt; counts.early(), 0);
    Ok(())
}

/// Where the inbox can't be closed the call is out of memory, and the journal is not written.
#[test]
fn a_refused_close_is_out_of_memory(rt: HostRuntime) -> Result<(), Fail> {
    let alloc = rt.alloc();
    let front = with_posters(alloc, LOGGING, "start job 9\n")?;
    let text = with_posters(alloc, front.as_str(), "poster 0\n")?;
    let counts = Counts::refusing();
    let inbox = CountingInbox { counts: &counts };
    let lived = Lived::of(&rt, alloc, &FreeGate, &inbox, 1000, text.as_str())?;
    assert_eq!(rt; lived.code, 8);
    assert_eq!(rt;
        lived.bytes.as_slice(),
        b"@0 0 0 init 2 ok 0\nlog 0 1 9\n@0 1 1 process 1 ok 0\n".as_slice()
    );
    Ok(())
}

/// A read that fails, and a sink that is full.
#[test]
fn devices_of_a_live_run_fail(rt: HostRuntime) -> Result<(), Fail> {
    let alloc = rt.alloc();
    let words = words_of(alloc, "live 1000")?;
    let text = with_posters(alloc, LOGGING, THREE_EACH)?;
    for (fails, room, code) in [([0].as_slice(), 100, 6), ([].as_slice(), 3, 7)] {
        let mut source = source_of(alloc, text.as_str(), 8192, fails)?;
        let mut sink = MemSink::new(alloc, room)?;
        let status = live_desk(
            &rt,
            alloc,
            &FreeGate,
            &LaneInbox,
            words.as_slice(),
            &mut source,
            &mut sink,
        );
        assert_eq!(rt; status.code(), code);
        assert_eq!(rt; sink.bytes().len(), if code == 6 { 0 } else { 3 });
    }
    Ok(())
}

/// Whether a live run of these lines with these posters ends, its journal has `count` entries, and it runs again.
fn ends_with<R: Threads + Wait + Sync>(
    rt: &R,
    alloc: Global,
    front: &str,
    posters: &str,
    count: usize,
) -> Result<bool, AllocError> {
    let text = with_posters(alloc, front, posters)?;
    let lived = Lived::of(rt, alloc, &FreeGate, &LaneInbox, MANY_UNITS, text.as_str())?;
    Ok(
        lived.code == 0
            && lived.has_entries(count)
            && lived.runs_again(rt, alloc, MANY_UNITS, front)?,
    )
}

/// Where nobody posts anything the trace is that of the run, and nothing comes after the line `journal`.
#[test]
fn nobody_posts(rt: HostRuntime) -> Result<(), Fail> {
    let alloc = rt.alloc();
    let front = with_posters(alloc, LOGGING, "start job 9\n")?;
    let front = front.as_str();
    assert!(rt; ends_with(&rt, alloc, front, "", 0)?, "no posters");
    assert!(rt;
        ends_with(&rt, alloc, front, "poster 0\n", 0)?,
        "an empty section"
    );
    assert!(rt;
        ends_with(&rt, alloc, front, "poster 0\nposter 1\ninn 4\n", 1)?,
        "one of two"
    );
    Ok(())
}

/// The limit comes after three units, and each post that comes in is a unit. Those that are left are in the journal too.
#[test]
fn posts_that_are_left_at_the_limit_are_journalled(rt: HostRuntime) -> Result<(), Fail> {
    let alloc = rt.alloc();
    let text = with_posters(alloc, LOGGING, THREE_EACH)?;
    let lived = Lived::of(&rt, alloc, &FreeGate, &LaneInbox, 3, text.as_str())?;
    assert_eq!(rt; lived.code, 5);
    assert!(rt; lived.has_three_each(alloc)?);
    assert!(rt; lived.runs_again(&rt, alloc, 3, LOGGING)?);
    Ok(())
}

/// How often many posters post, how many they are, and how many posts each has.
const RUNS: u32 = 200;

const POSTERS: u32 = 16;

const POSTS: u32 = 200;

/// More units than any run of these tests makes.
const MANY_UNITS: u32 = 1_000_000;

/// The lines of many posters.
fn many_posters(alloc: Global) -> Result<String, AllocError> {
    let mut lines = String::new(alloc);
    for poster in 0..POSTERS {
        lines.push_str(format!(in alloc; "poster {poster}\n")?.as_str())?;
        for value in 0..POSTS {
            lines.push_str(format!(in alloc; "inn {value}\n")?.as_str())?;
        }
    }
    Ok(lines)
}

/// However the threads of many posters run, the journal has all posts, and says the same run again.
#[test]
fn journals_of_many_posters_run_again(rt: HostRuntime) -> Result<(), Fail> {
    let posters = many_posters(rt.alloc())?;
    for turn in 0..RUNS {
        assert!(rt;
            ends_with(&rt, rt.alloc(), LOGGING, posters.as_str(), 3200)?,
            "run {turn}"
        );
    }
    Ok(())
}

/// Neither top call takes the words of the other, and then it reads and writes nothing.
#[test]
fn each_call_refuses_the_words_of_the_other(rt: HostRuntime) -> Result<(), Fail> {
    let alloc = rt.alloc();
    let of_live = words_of(alloc, "live 5")?;
    let of_run = words_of(alloc, "run 5")?;
    let of_check = words_of(alloc, "check")?;
    let mut source = source_of(alloc, LOGGING, 8192, &[])?;
    let mut sink = MemSink::new(alloc, ENOUGH)?;
    let status = desk(
        &rt,
        alloc,
        &FreeGate,
        of_live.as_slice(),
        &mut source,
        &mut sink,
    );
    assert_eq!(rt; status.code(), 2, "desk");
    let status = live_desk(
        &rt,
        alloc,
        &FreeGate,
        &LaneInbox,
        of_run.as_slice(),
        &mut source,
        &mut sink,
    );
    assert_eq!(rt; status.code(), 2, "live_desk");
    assert!(rt; sink.bytes().is_empty());
    let status = desk(
        &rt,
        alloc,
        &FreeGate,
        of_check.as_slice(),
        &mut source,
        &mut sink,
    );
    assert_eq!(rt; status.code(), 0, "the whole text is still there");
    assert_eq!(rt; sink.bytes(), b"ok\n".as_slice());
    Ok(())
}
