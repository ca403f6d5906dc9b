//! Bytes that are handed out from the front.
ghost use Rattle.std.specs.Prelude.{◌≡◌, ◌++◌, length, min, take, drop};

use sim_types::List;
use std::marker::Model;

/// The bytes that are left.
#[derive(Drop)]
pub(crate) struct Unread {
    bytes: List<u8>,
    /// How many bytes were handed out.
    start: usize,
}

impl Model for Unread {
    ghost use Rattle.std.specs.Prelude.{List, ℕ, drop, length, ◌≤◌};

    ghost Value = { List ℕ };

    ghost view = { λ a. drop a.start a.bytes };

    ghost invariant = { λ a. a.start ≤ length a.bytes };
}

impl Unread {
    pub(crate) fn new(bytes: List<u8>) -> Unread
        ensures { result ≡ bytes }
    {
        Unread { bytes, start: 0 }
    }

    /// Moves at most `most` bytes to the front of `buf` and answers how many.
    pub(crate) fn hand_out(&mut self, buf: &mut [u8], most: usize) -> usize
        ensures count { result ≡ min most (min (length buf.old) (length self.old)) }
        ensures buffer { buf.new ≡ take result self.old ++ drop result buf.old }
        ensures rest { self.new ≡ drop result self.old }
    {
        let left = &self.bytes.as_slice()[self.start..];
        let count = most.min(buf.len().min(left.len()));
        buf[..count].copy_from_slice(&left[..count]);
        self.start += count;
        count
    }
}
