//! A sink that keeps nothing.
ghost use Rattle.std.specs.Prelude.{◌≡◌, length, Ok, IsOk};
ghost use Rattle.sim_outside.specs.Writes.{no_flush, taking, flushed};

use crate::fault::Failed;
use crate::flushes::Flushes;
use crate::sink::Sink;
use std::marker::Model;

/// A sink that takes every piece whole and keeps nothing. It never fails.
#[derive(Drop)]
pub struct NullSink {
    flushes: Flushes,
}

impl Model for NullSink {
    ghost use Rattle.sim_outside.specs.Writes.{Flushing};

    ghost Value = { Flushing };

    ghost view = { λ a. a.flushes };
}

impl NullSink {
    /// A sink that was never flushed.
    pub const fn new() -> NullSink
        ensures { result ≡ no_flush }
    {
        NullSink {
            flushes: Flushes::new(),
        }
    }
}

impl Sink for NullSink {
    ghost use Rattle.std.specs.Prelude.{None};

    ghost tells = { λ sink. record { taken = None; faults = 0; flushing = sink } };

    ghost use Rattle.std.specs.Prelude.{true};

    ghost ignores = { λ _. true };

    fn ignores_bytes(&self) -> bool {
        true
    }

    fn write(&mut self, piece: &[u8]) -> Result<usize, Failed>
        ensures count { result ≡ Ok (length piece.now) }
        ensures held_back { self.new ≡ taking (length piece.now) self.old }
    {
        self.flushes.take(piece.len());
        Ok(piece.len())
    }

    fn pass_on(&mut self) -> Result<(), Failed>
        ensures ok { IsOk result }
        ensures same { self.new ≡ self.old }
    {
        Ok(())
    }

    fn flush(&mut self) -> Result<(), Failed>
        ensures ok { IsOk result }
        ensures flushed { self.new ≡ flushed self.old }
    {
        self.flushes.flush();
        Ok(())
    }
}
