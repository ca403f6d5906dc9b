//! A sink that gathers what it takes, so that the sink behind it is written to seldom.
ghost use Rattle.std.specs.Prelude.{◌≡◌, [], length, OnOk};
ghost use Rattle.std.specs.Io.KnownBytes.{Keeps};
ghost use Rattle.sim_outside.specs.Causes.{HasCause};
ghost use Rattle.sim_outside.specs.Gathering.{GathersFor, gathered};
ghost use Rattle.sim_outside.specs.Writes.{AppendsFront, IsUnflushed, taking};

use crate::fault::Failed;
use crate::held::HeldBytes;
use crate::sink::Sink;

/// A sink that holds what it takes until it is full, passed on or flushed, and then passes it on to the sink behind it. What
/// it still holds where it is let go is lost: after a flush that went well that is nothing.
#[derive(Drop)]
pub struct Gathering<K: Sink> {
    inner: K,
    held: HeldBytes,
}

impl<K: Sink> Gathering<K> {
    /// A sink that holds nothing yet.
    pub fn new(inner: K) -> Gathering<K>
        ensures tells { ⟦<Gathering<K> as Sink>⟧.tells result ≡ gathered (K.tells inner) [] }
    {
        Gathering {
            inner,
            held: HeldBytes::new(),
        }
    }

    /// Gives the sink behind it back. What was still held is lost.
    pub fn into_inner(self) -> K
        ensures tells { GathersFor (K.tells result)
            (⟦<Gathering<K> as Sink>⟧.tells self) }
    {
        self.inner
    }
}

impl<K: Sink> Sink for Gathering<K> {
    ghost tells = { λ sink. gathered (K.tells sink.inner) sink.held };

    ghost use Rattle.std.specs.Prelude.{false};

    ghost ignores = { λ _. false };

    fn ignores_bytes(&self) -> bool {
        false
    }

    #[tactic(auto, using(crate::proofs::HeldBack::gathering))]
    fn write(&mut self, piece: &[u8]) -> Result<usize, Failed> {
        let count = self.held.add(piece);
        if count > 0 || piece.is_empty() {
            return Ok(count);
        }
        write_held(&mut self.inner, &mut self.held)?;
        Ok(self.held.add(piece))
    }

    #[tactic(auto, using(crate::proofs::HeldBack::gathering))]
    fn pass_on(&mut self) -> Result<(), Failed>
        ensures passed { OnOk result (self.new.held ≡ []) }

        // As every sink.
        ensures bytes { Keeps (gathered (K.tells self.old.inner) self.old.held).taken
            (gathered (K.tells self.new.inner) self.new.held).taken }
        ensures cause { HasCause (K.tells self.old.inner).faults
            (K.tells self.new.inner).faults result }
        ensures held_back { OnOk result
            ((gathered (K.tells self.new.inner) self.new.held).flushing
            ≡ (gathered (K.tells self.old.inner) self.old.held).flushing) }
        ensures unflushed { IsUnflushed (K.tells self.old.inner)
            (K.tells self.new.inner) }
    {
        write_held(&mut self.inner, &mut self.held)
    }

    #[tactic(auto, using(crate::proofs::HeldBack::gathering))]
    fn flush(&mut self) -> Result<(), Failed> {
        write_held(&mut self.inner, &mut self.held)?;
        self.inner.flush()
    }
}

/// Writes all that is held. What the sink does not take stays held. Apart, since it is seldom needed.
#[inline(never)]
#[tactic(auto, using(crate::proofs::HeldBack::passing))]
fn write_held<K: Sink>(inner: &mut K, held: &mut HeldBytes) -> Result<(), Failed>
    ensures whole { OnOk result (held.new ≡ []) }
    ensures bytes { AppendsFront (K.tells inner.old).taken (K.tells inner.new).taken
        held.old held.new }
    ensures cause { HasCause (K.tells inner.old).faults (K.tells inner.new).faults result }
    ensures held_back { OnOk result ((K.tells inner.new).flushing
        ≡ taking (length held.old) (K.tells inner.old).flushing) }
    ensures unflushed { IsUnflushed (K.tells inner.old) (K.tells inner.new) }
{
    while !held.is_empty() {
        let count = inner.write(held.as_slice())?;
        held.remove(count);
    }
    Ok(())
}
