//! An inbox in code of one's own: two threads post numbers through lanes, and the calling thread adds up what it takes.
#![tactic(auto)]

use sim_inbox::{Posting, Taking};
use sim_lanes::{LanePoster, LaneTaker, new_lanes};
use sim_types::Post;
use std::io;
use std::process::ExitCode;
use std::rt::Runtime;
use std::sync::Wait;
use std::thread::{self, Threads};

/// Each thread posts the numbers from 1 to this one.
const MOST: u64 = 1000;

/// How many posts of a thread may wait to be taken.
const ROOM: u32 = 16;

fn main(rt: HostRuntime) -> ExitCode {
    match print_sum(&rt) {
        Ok(()) => ExitCode::SUCCESS,
        Err(_) => ExitCode::FAILURE,
    }
}

/// Prints the sum of what two threads post.
fn print_sum<R: Runtime + AllocGlobal + Threads + Wait + Sync>(rt: &R) -> io::Result<()> {
    let (mut taker, posters) = new_lanes(rt.alloc(), &[ROOM, ROOM])?;
    let mut posters = posters.into_vec();
    if let (Some(second), Some(first)) = (posters.pop(), posters.pop()) {
        let (sum, _posted) = thread::join(
            rt,
            || add_up(rt, &mut taker, 2 * MOST),
            || thread::join(rt, || post_all(rt, first), || post_all(rt, second)),
        );
        println!(rt; "{sum}")?;
    }
    Ok(())
}

/// Posts 1, 2 and so on, each as soon as there is room for it.
fn post_all<R: Wait>(rt: &R, mut poster: LanePoster) {
    for _ in rt.forever() {
        let posted = poster.posted_count();
        if posted >= MOST {
            return;
        }
        let post = Post {
            port: 0,
            value: posted as i64 + 1,
        };
        if poster.post(post).is_err() {
            thread::yield_now();
        }
    }
}

/// Takes so many posts, and adds up their values.
fn add_up<R: Wait>(rt: &R, taker: &mut LaneTaker, count: u64) -> i64 {
    let mut sum: i64 = 0;
    let mut left = count;
    for _ in rt.forever() {
        if left == 0 {
            break;
        }
        match taker.take() {
            Some(taken) => {
                sum = sum.saturating_add(taken.item.value);
                left -= 1;
            }
            None => thread::yield_now(),
        }
    }
    sum
}
