//! What is written to.
ghost use Rattle.std.specs.Prelude.{◌≡◌, ◌<◌, length, Bool, true, None, IsTrue, IfOk, OnOk, OnErr};
ghost use Rattle.std.specs.Io.{WritesAtMost};
ghost use Rattle.std.specs.Io.KnownBytes.{WriteAppends, Keeps};
ghost use Rattle.sim_outside.specs.Causes.{HasCause};
ghost use Rattle.sim_outside.specs.Writes.{SinkOf, taking, IsUnflushed, IsFlushedOnce, Writes};

use crate::fault::Failed;

/// A sink of bytes.
pub trait Sink {
    /// The bytes taken, in order, where the sink tells them; how many faults it has had; how many flushes went well, and
    /// whether bytes were taken since. A count that reached 2^64 - 1 may stand there.
    ghost tells: { Self → SinkOf };

    /// Whether it makes no difference to the sink which bytes are written to it.
    ghost ignores: { Self → Bool };

    /// Whether it makes no difference which bytes are written. Then the sink tells none, and whoever has some to write may
    /// leave that out.
    fn ignores_bytes(&self) -> bool
        ensures answer { result ≡ ignores self.now }
        ensures untold { IsTrue (ignores self.now) → (tells self.now).taken ≡ None };

    /// Takes a front of `piece` and answers how many bytes it has. Of a piece that is not empty it takes at least one
    /// byte, or it fails.
    fn write(&mut self, piece: &[u8]) -> Result<usize, Failed>
        ensures bound { WritesAtMost result piece.now }
        ensures some { IfOk result (λ n. 0 < length piece.now → 0 < n) }
        ensures bytes { WriteAppends (tells self.old).taken (tells self.new).taken
            result piece.now }
        ensures cause { HasCause (tells self.old).faults (tells self.new).faults result }
        ensures held_back { IfOk result (λ n.
            (tells self.new).flushing ≡ taking n (tells self.old).flushing) }
        ensures unflushed { IsUnflushed (tells self.old) (tells self.new) };

    /// Passes on what the sink still holds to the one behind it, which is not flushed. The bytes taken stay as they are. A
    /// sink with none behind it has nothing to do.
    fn pass_on(&mut self) -> Result<(), Failed>
        ensures bytes { Keeps (tells self.old).taken (tells self.new).taken }
        ensures cause { HasCause (tells self.old).faults (tells self.new).faults result }
        ensures held_back { OnOk result
            ((tells self.new).flushing ≡ (tells self.old).flushing) }
        ensures unflushed { IsUnflushed (tells self.old) (tells self.new) };

    /// Hands on what the sink holds back. The bytes taken stay as they are.
    fn flush(&mut self) -> Result<(), Failed>
        ensures bytes { Keeps (tells self.old).taken (tells self.new).taken }
        ensures cause { HasCause (tells self.old).faults (tells self.new).faults result }
        ensures flushed { OnOk result (IsFlushedOnce (tells self.old) (tells self.new)) }
        ensures unflushed { OnErr result (IsUnflushed (tells self.old) (tells self.new)) };
}

/// Writes the whole piece. Where that fails, a prefix of the piece was written. Nothing is flushed.
#[tactic(auto, using(crate::proofs::Fronts::writing))]
pub fn write_all<K: Sink>(out: &mut K, piece: &[u8]) -> Result<(), Failed>
    ensures writes { Writes (λ _. true) (K.tells out.old) (K.tells out.new) result piece.now }
    ensures unflushed { IsUnflushed (K.tells out.old) (K.tells out.new) }
{
    let mut rest = piece;
    while !rest.is_empty() {
        let count = out.write(rest)?;
        rest = &rest[count..];
    }
    Ok(())
}
