//! Other work of the same thread.
ghost use Rattle.std.specs.Prelude.{◌≡◌};

use futures::Future;
use futures::task::{Context, Poll};

/// Work that takes so many turns. It stands for what else a program does on the thread, as a server that answers requests.
#[derive(Drop)]
pub struct Work {
    pub turns: u32,
    /// How many of them are left.
    pub left: u32,
}

impl Future for Work {
    type Output = u32;

    ghost gives = { λ work turns. turns ≡ work.turns };

    /// Takes one turn, and lets the others go on. Ready with the number of turns where none is left.
    fn poll(&mut self, cx: &mut Context<'_>) -> Poll<u32> {
        if self.left == 0 {
            return Poll::Ready(self.turns);
        }
        self.left -= 1;
        cx.yield_now()
    }
}
