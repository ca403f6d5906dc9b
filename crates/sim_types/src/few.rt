//! Few values, in place.
ghost use Rattle.std.specs.Prelude.{◌≡◌, ◌<◌, ◌≤◌, ◌↔◌, IsTrue, [], length};
ghost use Rattle.sim_types.specs.Few.{pushed_within};

use crate::event::EventId;
use std::marker::Model;

/// The numbers that a process begins with.
pub type Args = Few<i64, 8>;

/// The members of a condition.
pub type Members = Few<EventId, 16>;

/// Places of resources: at most as many as a process may have scopes open.
pub type Places = Few<u32, 32>;

/// At most `N` values, in place.
#[derive(Drop)]
pub struct Few<T: Copy, const N: usize> {
    values: [T; N],
    len: usize,
}

impl<T: Copy, const N: usize> Model for Few<T, N> {
    ghost use Rattle.std.specs.Prelude.{List, take, ◌≤◌};

    ghost Value = { List T };

    ghost view = { λ a. take a.len a.values };

    ghost invariant = { λ a. a.len ≤ N };
}

impl<T: Copy + Default, const N: usize> Few<T, N> {
    pub fn new() -> Few<T, N>
        ensures { result ≡ [] }
    {
        Few {
            values: [T::default(); N],
            len: 0,
        }
    }
}

impl<T: Copy, const N: usize> Few<T, N> {
    /// The same values once more.
    pub fn copied(&self) -> Few<T, N>
        ensures { result ≡ self.now }
    {
        Few {
            values: self.values,
            len: self.len,
        }
    }

    /// The values, in order.
    pub fn as_slice(&self) -> &[T]
        ensures values { result.now ≡ self.now }
        ensures few { length self.now ≤ N }
    {
        &self.values[..self.len]
    }

    /// Lets all go.
    pub fn clear(&mut self)
        ensures { self.new ≡ [] }
    {
        self.len = 0;
    }

    /// False where `N` are held.
    pub fn push(&mut self, value: T) -> bool
        ensures room { IsTrue result ↔ length self.old < N }
        ensures new { self.new ≡ pushed_within N self.old value }
    {
        if self.len < N {
            self.values[self.len] = value;
            self.len += 1;
            true
        } else {
            false
        }
    }
}
