//! That calls of a queue succeed where memory is found, that what was posted first is taken first, and that posters post at
//! once, is in no clause.
ghost use Rattle.std.specs.Prelude.{◌≡◌, ◌+◌, ◌-◌, ◌<◌, ◌≤◌, ◌^◌, [], length, OnOk};
ghost use Rattle.sim_inbox.specs.QueueEnds.{ArePostersOf, HavePostedNothing};

use sim_inbox::{Inbox, Posting, QueueInbox, QueuePoster, QueueTaker, Taken, Taking, new_queue};
use sim_types::{List, Post};
use std::alloc::{AllocError, Global};
use std::process::Abort;
use std::sync::Wait;
use std::sync::atomic::{AtomicBool, Ordering};
use std::test::Fail;
use std::thread;

/// The last of posters that have posted nothing.
#[tactic(auto, using(sim_inbox::proofs::NewPosters::posters_last, sim_inbox::proofs::NewPosters::posters_front, sim_inbox::proofs::NewPosters::nothing_last, sim_inbox::proofs::NewPosters::nothing_front))]
fn pop_poster<R: Abort + Clone + Drop + Wait>(
    rt: &R,
    taker: &QueueTaker<R>,
    posters: &mut Vec<QueuePoster<R>>,
) -> QueuePoster<R>
    requires own { ArePostersOf taker.now.inbox posters.old.items }
    requires fresh { HavePostedNothing posters.old.items }
    ensures posted { result.posted ≡ [] }
    ensures number { result.number ≡ length posters.new.items }
    ensures inbox { result.inbox ≡ taker.now.inbox }
    ensures length { length posters.old.items ≡ length posters.new.items + 1 }
    ensures own { ArePostersOf taker.now.inbox posters.new.items }
    ensures fresh { HavePostedNothing posters.new.items }
{
    match posters.pop() {
        Some(poster) => poster,
        None => panic!(rt; "no poster"),
    }
}

/// Puts a poster behind those before it.
#[tactic(auto, using(sim_inbox::proofs::NewPosters::posters_more))]
fn push_poster<R: Clone + Drop + Wait>(
    taker: &QueueTaker<R>,
    posters: &mut List<QueuePoster<R>>,
    poster: QueuePoster<R>,
) -> Result<(), AllocError>
    requires own { ArePostersOf taker.now.inbox posters.old }
    requires number { poster.number ≡ length posters.old }
    requires inbox { poster.inbox ≡ taker.now.inbox }
    ensures length { OnOk result (length posters.new ≡ length posters.old + 1) }
    ensures own { OnOk result (ArePostersOf taker.now.inbox posters.new) }
{
    posters.push(poster)?;
    Ok(())
}

/// Posts these values, each for port 3.
fn post_all<R: Abort + Clone + Drop + Wait>(
    rt: &R,
    mut poster: QueuePoster<R>,
    values: &[i64],
) -> QueuePoster<R>
    requires { length poster.posted + length values.now < 2 ^ 32 - 1 }
    ensures number { result.number ≡ poster.number }
    ensures inbox { result.inbox ≡ poster.inbox }
    ensures posted { length result.posted ≤ length poster.posted + length values.now }
{
    for value in values {
        let item = Post {
            port: 3,
            value: *value,
        };
        match poster.post(item) {
            Ok(()) => (),
            Err(_) => panic!(rt; "not posted"),
        }
    }
    poster
}

/// Asserts what an entry is, which was posted for port 3.
fn assert_entry(rt: &impl Abort, entry: &Taken, poster: u32, serial: u32, value: i64) {
    assert_eq!(rt; entry.poster, poster);
    assert_eq!(rt; entry.serial, serial);
    assert_eq!(rt; entry.item.port, 3);
    assert_eq!(rt; entry.item.value, value);
}

#[test]
fn a_queue_of_one_poster_is_opened_and_closed(rt: HostRuntime) -> Result<(), Fail> {
    let inbox = QueueInbox { rt: &rt };
    let (mut taker, posters) = inbox.open(rt.alloc(), &[1])?;
    let mut fresh = posters.into_vec();
    let poster = post_all(&rt, pop_poster(&rt, &taker, &mut fresh), &[-7]);
    let first = taker.take().expect(&rt, "the item posted");
    assert_entry(&rt, &first, 0, 0, -7);
    assert!(rt; taker.take().is_none());
    let mut posters = List::new(rt.alloc());
    push_poster(&taker, &mut posters, poster)?;
    match taker.close(rt.alloc(), posters) {
        Ok(left) => assert!(rt; left.is_empty()),
        Err(_) => panic!(rt; "memory was wanting"),
    }
    Ok(())
}

#[test]
fn a_queue_without_posters_has_nothing(rt: HostRuntime) -> Result<(), Fail> {
    let (mut taker, posters) = new_queue(&rt, rt.alloc(), 0)?;
    assert!(rt; posters.is_empty());
    assert!(rt; taker.take().is_none());
    match taker.close(rt.alloc(), posters) {
        Ok(left) => assert!(rt; left.is_empty()),
        Err(_) => panic!(rt; "memory was wanting"),
    }
    Ok(())
}

/// Closes a queue of two posters, and asserts what is left.
fn assert_left<R: Abort + Clone + Drop + Send + Wait>(
    rt: &R,
    alloc: Global,
    taker: QueueTaker<R>,
    first: QueuePoster<R>,
    second: QueuePoster<R>,
    wanted: &[(u32, u32, i64)],
) -> Result<(), Fail>
    requires count { length taker.wholes ≡ 2 }
    requires first { (first.number ≡ 0) × (first.inbox ≡ taker.inbox) }
    requires second { (second.number ≡ 1) × (second.inbox ≡ taker.inbox) }
{
    let mut posters = List::new(alloc);
    push_poster(&taker, &mut posters, first)?;
    push_poster(&taker, &mut posters, second)?;
    match taker.close(alloc, posters) {
        Ok(left) => {
            assert_eq!(rt; left.len(), wanted.len());
            for (entry, (poster, serial, value)) in left.as_slice().iter().zip(wanted) {
                assert_entry(rt, entry, *poster, *serial, *value);
            }
        }
        Err(_) => panic!(rt; "memory was wanting"),
    }
    Ok(())
}

#[test]
fn first_posted_is_first_taken_and_the_rest_is_left_by_poster(rt: HostRuntime) -> Result<(), Fail> {
    let (mut taker, posters) = new_queue(&rt, rt.alloc(), 2)?;
    let mut fresh = posters.into_vec();
    let second = pop_poster(&rt, &taker, &mut fresh);
    let first = pop_poster(&rt, &taker, &mut fresh);
    let second = post_all(&rt, second, &[10, 11, 12]);
    let first = post_all(&rt, first, &[1, 2]);
    let second = post_all(&rt, second, &[13]);
    let taken = taker.take().expect(&rt, "the item posted first");
    assert_entry(&rt, &taken, 1, 0, 10);
    let wanted = [(0, 0, 1), (0, 1, 2), (1, 1, 11), (1, 2, 12), (1, 3, 13)];
    assert_left(&rt, rt.alloc(), taker, first, second, &wanted)
}

/// How often a thread looks for another, at most.
const MOST_TURNS: u32 = 200_000_000;

/// Tells the other thread to have come, waits for it, and then posts.
fn post_beside<R: Abort + Clone + Drop + Wait>(
    rt: &R,
    own: &AtomicBool,
    other: &AtomicBool,
    poster: QueuePoster<R>,
    values: &[i64],
) -> QueuePoster<R>
    requires { length poster.posted + length values.now < 2 ^ 32 - 1 }
    ensures number { result.number ≡ poster.number }
    ensures inbox { result.inbox ≡ poster.inbox }
{
    own.store(true, Ordering::SeqCst);
    for _ in 0..MOST_TURNS {
        if other.load(Ordering::SeqCst) {
            return post_all(rt, poster, values);
        }
    }
    panic!(rt; "the other poster has not come");
}

#[test]
fn two_posters_post_at_once(rt: HostRuntime) -> Result<(), Fail> {
    let (taker, posters) = new_queue(&rt, rt.alloc(), 2)?;
    let mut fresh = posters.into_vec();
    let second = pop_poster(&rt, &taker, &mut fresh);
    let first = pop_poster(&rt, &taker, &mut fresh);
    let came = [AtomicBool::new(false), AtomicBool::new(false)];
    let (first, second) = thread::join(
        &rt,
        || post_beside(&rt, &came[0], &came[1], first, &[1, 2, 3]),
        || post_beside(&rt, &came[1], &came[0], second, &[10, 11]),
    );
    let wanted = [(0, 0, 1), (0, 1, 2), (0, 2, 3), (1, 0, 10), (1, 1, 11)];
    assert_left(&rt, rt.alloc(), taker, first, second, &wanted)
}

/// The next entry, for which it waits.
fn next<R: Abort + Clone + Drop + Send + Wait>(rt: &R, taker: &mut QueueTaker<R>) -> Taken {
    for _ in 0..MOST_TURNS {
        if let Some(entry) = taker.take() {
            return entry;
        }
    }
    panic!(rt; "nothing was posted");
}

#[test]
fn items_are_taken_while_others_are_posted(rt: HostRuntime) -> Result<(), Fail> {
    let (mut taker, posters) = new_queue(&rt, rt.alloc(), 1)?;
    let mut fresh = posters.into_vec();
    let poster = pop_poster(&rt, &taker, &mut fresh);
    let values = [5, 6, 7, 8, 9, 10, 11, 12];
    thread::join(
        &rt,
        || post_all(&rt, poster, &values),
        || {
            for (serial, value) in values.iter().enumerate() {
                assert_entry(&rt, &next(&rt, &mut taker), 0, serial as u32, *value);
            }
        },
    );
    Ok(())
}
