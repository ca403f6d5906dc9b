//! That a poster does its work where no thread can be made for it, and when, is in no clause.
ghost use Rattle.std.specs.Prelude.{◌≡◌, ◌-◌, ◌<◌, ◌^◌, [], length};

use crate::{Ended, start};
use core::thread::Stack;
use sim_batch::FreeGate;
use sim_inbox::{PostFault, Posting};
use sim_types::{List, Post};
use std::alloc::AllocError;
use std::sync::atomic::{AtomicU64, Ordering};
use std::test::Fail;
use std::thread::{self, Threads};

/// A poster that keeps what it posts.
#[derive(Drop)]
struct Keeping {
    posts: List<Post>,
}

impl Posting for Keeping {
    ghost use Rattle.std.specs.Prelude.{◌^◌, [], true};

    ghost inbox = { λ _. [] };

    ghost number = { λ _. 0 };

    ghost capacity = { λ _. 2 ^ 32 };

    ghost posted = { λ x. x.posts };

    ghost loads = { λ _. 0 };

    ghost taken_seen = { λ _. 0 };

    ghost takes_memory = { true };

    fn post(&mut self, item: Post) -> Result<(), PostFault> {
        match self.posts.push(item) {
            Ok(()) => Ok(()),
            Err(AllocError) => Err(PostFault::Memory),
        }
    }
}

/// A poster whose stack finds no memory has posted its section when the call returns.
#[test]
fn a_poster_without_a_thread_posts_at_once(rt: HostRuntime) -> Result<(), Fail> {
    let mut section = List::new(rt.alloc());
    section.push(Post { port: 0, value: 1 })?;
    section.push(Post { port: 0, value: 2 })?;
    let poster = Keeping {
        posts: List::new(rt.alloc()),
    };
    let ended = AtomicU64::new(0);
    let (at_once, posted) = thread::scope(
        thread::scope_env(),
        &rt,
        |scope| -> (bool, usize)
            requires { (poster.posts ≡ []) × (length section < 2 ^ 32 - 1) }
        {
            let stack = Stack::new().stack_size(usize::MAX);
            let worker = start(scope, stack, poster, &section, &FreeGate, 0, &ended);
            let at_once = ended.load(Ordering::SeqCst) == 1;
            let Ended { poster, .. } = worker.join(&rt);
            (at_once, poster.posts.len())
        },
    );
    assert!(rt; at_once);
    assert_eq!(rt; posted, 2);
    Ok(())
}
