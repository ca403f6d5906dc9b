//! What is read from.
ghost use Rattle.std.specs.Prelude.{◌≡◌, ℕ, ◌+◌, ◌<◌, ◌≤◌, ◌↔◌, List, [], length, IfOk, OnOk, OnErr, IfSome, IsErrOf};
ghost use Rattle.std.specs.declared.option.Option.{Option};
ghost use Rattle.std.specs.Io.{ReadsAtMost};
ghost use Rattle.sim_outside.specs.Causes.{Rose, HasCause};
ghost use Rattle.sim_outside.specs.Reads.{ReadTakes, KeepsBehind, TakesFirst, Loses};

use crate::fault::{Failed, TakeFault};
use sim_types::List;
use std::alloc::Global;

/// A source of bytes.
pub trait Source {
    /// The bytes left, in order, where the source tells them.
    ghost left: { Self → Option (List ℕ) };

    /// How many faults it has had. A count that reached 2^64 - 1 may stand there.
    ghost faults: { Self → ℕ };

    /// Puts some of the bytes left at the front of `buf` and answers how many, 0 at the end of input. They have then
    /// left the source. Where it fails, no byte has, and `buf` is as it was.
    fn read(&mut self, buf: &mut [u8]) -> Result<usize, Failed>
        requires room { 0 < length buf.old }
        ensures bound { ReadsAtMost result buf.new }
        ensures bytes { ReadTakes (left self.old) (left self.new) result buf.new }
        ensures end { IfOk result (λ n. IfSome (left self.old)
            (λ bytes. (n ≡ 0) ↔ (bytes ≡ []))) }
        ensures behind { KeepsBehind buf.old buf.new result }
        ensures cause { HasCause (faults self.old) (faults self.new) result };
}

/// How many bytes are asked for in one read at most.
pub(crate) const CHUNK: usize = 8192;

/// Reads to the end of input, or until `most + 1` bytes were taken, so that a caller who allows `most` bytes can see
/// that there were more. On a fault the bytes taken so far are lost.
#[tactic(auto, using(crate::proofs::Taking::first_full, crate::proofs::Taking::first_end))]
pub fn take_all<S: Source>(alloc: Global, source: &mut S, most: u32) -> Result<List<u8>, TakeFault>
    ensures most { IfOk result (λ bytes. length bytes ≤ most + 1) }
    ensures bytes { IfOk result (TakesFirst (most + 1) (S.left source.old) (S.left source.new)) }
    ensures lost { OnErr result (Loses (most + 1) (S.left source.old) (S.left source.new)) }

    // The count rises only where a read fails.
    ensures never_falls { S.faults source.old ≤ S.faults source.new }
    ensures ok { OnOk result (S.faults source.new ≡ S.faults source.old) }
    ensures read { IsErrOf result TakeFault.Read
        → Rose (S.faults source.old) (S.faults source.new) }
    ensures memory { IsErrOf result TakeFault.Memory
        → S.faults source.new ≡ S.faults source.old }
{
    let limit = most as usize + 1;
    let mut taken = Vec::new(alloc);
    let mut chunk = [0; CHUNK];
    while taken.len() < limit {
        let room = CHUNK.min(limit - taken.len());
        let count = source.read(&mut chunk[..room])?;
        if count == 0 {
            break;
        }
        taken.extend_from_slice(&chunk[..count])?;
    }
    Ok(List::from_vec(taken))
}
