//! That calls go as worked examples say where memory is found, and that posters deliver at once, each in its order, is in no
//! clause.
ghost use Rattle.std.specs.Prelude.{◌≡◌, ◌+◌, length, OnOk};
ghost use Rattle.sim_lanes.specs.Ends.{AreInOrder};

use sim_inbox::{Inbox, PostFault, Posting, Taken, Taking};
use sim_lanes::{LaneInbox, LanePoster, LaneTaker, new_lanes};
use sim_types::{List, Post};
use std::alloc::{AllocError, Global};
use std::process::Abort;
use std::test::Fail;
use std::thread;

/// The last of these posters.
fn pop_poster(rt: &impl Abort, taker: &LaneTaker, posters: &mut Vec<LanePoster>) -> LanePoster
    requires { AreInOrder taker.now.inbox posters.old.items }
    ensures number { result.knows.number ≡ length posters.new.items }
    ensures inbox { result.inbox ≡ taker.now.inbox }
    ensures length { length posters.old.items ≡ length posters.new.items + 1 }
    ensures own { AreInOrder taker.now.inbox posters.new.items }
{
    posters.pop().expect(rt, "a poster")
}

/// Puts a poster behind those before it.
fn push_poster(
    taker: &LaneTaker,
    posters: &mut Vec<LanePoster>,
    poster: LanePoster,
) -> Result<(), AllocError>
    requires own { AreInOrder taker.now.inbox posters.old.items }
    requires number { poster.knows.number ≡ length posters.old.items }
    requires inbox { poster.inbox ≡ taker.now.inbox }
    ensures length { OnOk result (length posters.new.items ≡ length posters.old.items + 1) }
    ensures own { OnOk result (AreInOrder taker.now.inbox posters.new.items) }
{
    posters.push(poster)?;
    Ok(())
}

/// Posts a value for port 0.
fn post(rt: &impl Abort, poster: &mut LanePoster, value: i64) -> Result<(), PostFault>
    ensures number { poster.new.knows.number ≡ poster.old.knows.number }
    ensures inbox { poster.new.inbox ≡ poster.old.inbox }
{
    assert!(rt; poster.posted_count() < 1_000);
    poster.post(Post { port: 0, value })
}

/// Asserts that a post finds no room, where so many are taken.
fn assert_full(rt: &impl Abort, poster: &mut LanePoster, taken: u64)
    ensures number { poster.new.knows.number ≡ poster.old.knows.number }
    ensures inbox { poster.new.inbox ≡ poster.old.inbox }
{
    match post(rt, poster, 0) {
        Err(PostFault::Full { taken_seen }) => assert_eq!(rt; taken_seen, taken),
        _ => panic!(rt; "the lane is full"),
    }
}

/// Asserts what an entry is, which was posted for port 0.
fn assert_entry(rt: &impl Abort, entry: &Taken, poster: u32, serial: u32, value: i64) {
    assert_eq!(rt; entry.poster, poster);
    assert_eq!(rt; entry.serial, serial);
    assert_eq!(rt; entry.item.port, 0);
    assert_eq!(rt; entry.item.value, value);
}

/// Asserts what is taken next, of the first poster.
fn assert_next(rt: &impl Abort, taker: &mut LaneTaker, serial: u32, value: i64)
    ensures inbox { taker.new.inbox ≡ taker.old.inbox }
    ensures count { length taker.new.lanes ≡ length taker.old.lanes }
{
    let entry = taker.take().expect(rt, "a post");
    assert_entry(rt, &entry, 0, serial, value);
}

/// Closes lanes, and asserts what is left.
fn assert_left(
    rt: &impl Abort,
    alloc: Global,
    taker: LaneTaker,
    posters: List<LanePoster>,
    wanted: &[(u32, u32, i64)],
)
    requires all { length posters ≡ length taker.lanes }
    requires own { AreInOrder taker.inbox posters }
{
    match taker.close(alloc, posters) {
        Ok(left) => {
            assert_eq!(rt; left.len(), wanted.len());
            for (entry, (poster, serial, value)) in left.as_slice().iter().zip(wanted) {
                assert_entry(rt, entry, *poster, *serial, *value);
            }
        }
        Err(_) => panic!(rt; "memory is found"),
    }
}

#[test]
fn a_lane_of_two_is_filled_and_emptied(rt: HostRuntime) -> Result<(), Fail> {
    let (mut taker, posters) = new_lanes(rt.alloc(), &[2])?;
    let mut posters = posters.into_vec();
    let mut poster = pop_poster(&rt, &taker, &mut posters);
    assert!(rt; post(&rt, &mut poster, 1).is_ok());
    assert!(rt; post(&rt, &mut poster, 2).is_ok());
    assert_full(&rt, &mut poster, 0);
    assert_next(&rt, &mut taker, 0, 1);
    assert!(rt; post(&rt, &mut poster, 3).is_ok());
    assert_next(&rt, &mut taker, 1, 2);
    assert_next(&rt, &mut taker, 2, 3);
    assert!(rt; taker.take().is_none());
    push_poster(&taker, &mut posters, poster)?;
    assert_left(&rt, rt.alloc(), taker, List::from_vec(posters), &[]);
    Ok(())
}

#[test]
fn a_lane_of_one_has_room_after_a_take(rt: HostRuntime) -> Result<(), Fail> {
    let (mut taker, posters) = new_lanes(rt.alloc(), &[1])?;
    let mut posters = posters.into_vec();
    let mut poster = pop_poster(&rt, &taker, &mut posters);
    assert!(rt; post(&rt, &mut poster, -7).is_ok());
    assert_full(&rt, &mut poster, 0);
    assert_next(&rt, &mut taker, 0, -7);
    assert!(rt; post(&rt, &mut poster, i64::MIN).is_ok());
    push_poster(&taker, &mut posters, poster)?;
    assert_left(
        &rt,
        rt.alloc(),
        taker,
        List::from_vec(posters),
        &[(0, 1, i64::MIN)],
    );
    Ok(())
}

#[test]
fn what_is_left_comes_poster_by_poster(rt: HostRuntime) -> Result<(), Fail> {
    let (mut taker, posters) = new_lanes(rt.alloc(), &[2, 2])?;
    let mut posters = posters.into_vec();
    let mut second = pop_poster(&rt, &taker, &mut posters);
    let mut first = pop_poster(&rt, &taker, &mut posters);
    assert!(rt; post(&rt, &mut second, 10).is_ok());
    assert!(rt; post(&rt, &mut second, 11).is_ok());
    assert!(rt; post(&rt, &mut first, 1).is_ok());
    assert!(rt; post(&rt, &mut first, 2).is_ok());
    assert_next(&rt, &mut taker, 0, 1);
    push_poster(&taker, &mut posters, first)?;
    push_poster(&taker, &mut posters, second)?;
    let wanted = [(0, 1, 2), (1, 0, 10), (1, 1, 11)];
    assert_left(&rt, rt.alloc(), taker, List::from_vec(posters), &wanted);
    Ok(())
}

#[test]
fn no_lanes_have_nothing(rt: HostRuntime) -> Result<(), Fail> {
    let (mut taker, posters) = LaneInbox.open(rt.alloc(), &[])?;
    assert!(rt; posters.is_empty());
    assert!(rt; taker.take().is_none());
    assert_left(&rt, rt.alloc(), taker, posters, &[]);
    Ok(())
}

/// How many posts each thread posts.
const MANY: u32 = 300;

/// How often a thread looks for another, at most.
const MOST_TURNS: u32 = 100_000_000;

/// Posts a value as soon as there is room.
fn post_when_room(rt: &impl Abort, poster: &mut LanePoster, value: i64) {
    for _ in 0..MOST_TURNS {
        if post(rt, poster, value).is_ok() {
            return;
        }
    }
    panic!(rt; "nothing was taken");
}

/// Posts 0, 1 and so on.
fn post_all(rt: &impl Abort, mut poster: LanePoster) {
    for value in 0..MANY {
        post_when_room(rt, &mut poster, i64::from(value));
    }
}

/// Takes all that two posters post, and asserts that it comes in the order of each.
fn take_all(rt: &impl Abort, taker: &mut LaneTaker) {
    let mut next = [0, 0];
    for _ in 0..MOST_TURNS {
        if let Some(entry) = taker.take() {
            assert!(rt; entry.poster < 2);
            assert!(rt; entry.serial < MANY);
            let poster = entry.poster as usize;
            assert_entry(
                rt,
                &entry,
                entry.poster,
                next[poster],
                i64::from(entry.serial),
            );
            next[poster] = entry.serial + 1;
        }
        if next[0] == MANY && next[1] == MANY {
            return;
        }
    }
    panic!(rt; "nothing was posted");
}

// A thread that has more to post than its lane has cells is done only where the taker takes meanwhile.
#[test]
fn two_posters_deliver_at_once(rt: HostRuntime) -> Result<(), Fail> {
    let (mut taker, posters) = new_lanes(rt.alloc(), &[1, 5])?;
    let mut posters = posters.into_vec();
    let second = pop_poster(&rt, &taker, &mut posters);
    let first = pop_poster(&rt, &taker, &mut posters);
    thread::join(
        &rt,
        || take_all(&rt, &mut taker),
        || thread::join(&rt, || post_all(&rt, first), || post_all(&rt, second)),
    );
    assert!(rt; taker.take().is_none());
    Ok(())
}
