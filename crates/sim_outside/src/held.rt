//! Bytes that are held before they are passed on.
ghost use Rattle.std.specs.Prelude.{◌≡◌, ◌<◌, ◌≤◌, ◌↔◌, true, [], ◌++◌, length, take, drop};

use std::marker::Model;

/// How many bytes are held at most.
const ROOM: usize = 8192;

/// Bytes that are passed on in the order in which they came. They stand in place, so none takes memory.
#[derive(Drop)]
pub(crate) struct HeldBytes {
    bytes: [u8; ROOM],
    /// Where the bytes begin that are held.
    start: usize,
    /// Where they end.
    end: usize,
}

impl Model for HeldBytes {
    ghost use Rattle.std.specs.Prelude.{List, ℕ, take, drop};
    ghost use Rattle.sim_outside.specs.Gathering.{IsWithinRoom};

    ghost Value = { List ℕ };

    ghost view = { λ a. drop a.start (take a.end a.bytes) };

    ghost invariant = { λ a. IsWithinRoom a.start a.end };
}

impl HeldBytes {
    pub(crate) const fn new() -> HeldBytes
        ensures { result ≡ [] }
    {
        HeldBytes {
            bytes: [0; ROOM],
            start: 0,
            end: 0,
        }
    }

    pub(crate) fn is_empty(&self) -> bool
        ensures { result ≡ true ↔ length self.now ≡ 0 }
    {
        self.start == self.end
    }

    pub(crate) fn as_slice(&self) -> &[u8]
        ensures { result.now ≡ self.now }
    {
        &self.bytes[self.start..self.end]
    }

    /// Holds a front of the piece too, as much as there is room for, and answers how many bytes it has.
    #[tactic(auto, using(crate::proofs::HeldBack::held_added))]
    pub(crate) fn add(&mut self, piece: &[u8]) -> usize
        ensures bound { result ≤ length piece.now }
        ensures some { length self.old ≡ 0 → 0 < length piece.now → 0 < result }
        ensures bytes { self.new ≡ self.old ++ take result piece.now }
    {
        let count = piece.len().min(ROOM - self.end);
        self.bytes[self.end..self.end + count].copy_from_slice(&piece[..count]);
        self.end += count;
        count
    }

    /// Lets go of so many bytes at the front.
    #[tactic(auto, using(crate::proofs::HeldBack::held_removed))]
    pub(crate) fn remove(&mut self, count: usize)
        requires { count ≤ length self.old }
        ensures { self.new ≡ drop count self.old }
    {
        self.start += count;
        if self.start == self.end {
            self.start = 0;
            self.end = 0;
        }
    }
}
