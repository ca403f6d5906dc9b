//! Standard input and output. What they carry is known to no contract, so of them no bytes are told.
ghost use Rattle.std.specs.Prelude.{◌≡◌, IsOk};
ghost use Rattle.sim_outside.specs.Writes.{no_flush};

use crate::fault::Failed;
use crate::fault_count::FaultCount;
use crate::flushes::Flushes;
use crate::sink::Sink;
use crate::source::{CHUNK, Source};
use std::io::{Read, Write};
use std::marker::Model;

/// A source over a reader of the standard library, such as standard input. It tells the bytes that the reader tells.
/// Each error of the reader is a fault.
#[derive(Drop)]
pub struct StdSource<R> {
    input: R,
    faults: FaultCount,
}

impl<R> Model for StdSource<R> {
    ghost use Rattle.sim_outside.specs.Standard.{StdSourceOf};

    ghost Value = { StdSourceOf R };

    ghost view = { λ a. record { input = a.input; faults = a.faults } };
}

impl<R: Read> StdSource<R> {
    /// A source over `input` that has had no fault.
    pub fn new(input: R) -> StdSource<R>
        ensures { result ≡ record { input = input; faults = 0 } }
    {
        StdSource {
            input,
            faults: FaultCount::new(),
        }
    }
}

impl<R: Read> Source for StdSource<R> {
    ghost left = { λ source. R.remaining source.input };

    ghost faults = { λ source. source.faults };

    fn read(&mut self, buf: &mut [u8]) -> Result<usize, Failed> {
        // A reader may leave anything behind the bytes that it answers, so it is not given `buf` itself.
        let mut chunk = [0; CHUNK];
        let room = CHUNK.min(buf.len());
        match self.input.read(&mut chunk[..room]) {
            Ok(count) => {
                buf[..count].copy_from_slice(&chunk[..count]);
                Ok(count)
            }
            Err(_) => Err(self.faults.fail()),
        }
    }
}

/// A sink over a writer of the standard library, such as standard output. It tells the bytes that the writer tells.
/// Each error of the writer is a fault, and so is a write that takes nothing of a piece.
#[derive(Drop)]
pub struct StdSink<W> {
    output: W,
    faults: FaultCount,
    flushes: Flushes,
}

impl<W> Model for StdSink<W> {
    ghost use Rattle.sim_outside.specs.Standard.{StdSinkOf};

    ghost Value = { StdSinkOf W };

    ghost view = { λ a. record { output = a.output; faults = a.faults; flushing = a.flushes } };
}

impl<W: Write> StdSink<W> {
    /// A sink over `output` that has had no fault and was never flushed.
    pub fn new(output: W) -> StdSink<W>
        ensures { result ≡ record
            { output = output; faults = 0; flushing = no_flush } }
    {
        StdSink {
            output,
            faults: FaultCount::new(),
            flushes: Flushes::new(),
        }
    }
}

impl<W: Write> Sink for StdSink<W> {
    ghost use Rattle.sim_outside.specs.Standard.{told_by_writer};

    ghost tells = { told_by_writer W.contents };

    ghost use Rattle.std.specs.Prelude.{false};

    ghost ignores = { λ _. false };

    fn ignores_bytes(&self) -> bool {
        false
    }

    fn write(&mut self, piece: &[u8]) -> Result<usize, Failed> {
        match self.output.write(piece) {
            Ok(0) if !piece.is_empty() => Err(self.faults.fail()),
            Ok(count) => {
                self.flushes.take(count);
                Ok(count)
            }
            Err(_) => Err(self.faults.fail()),
        }
    }

    fn pass_on(&mut self) -> Result<(), Failed>
        ensures ok { IsOk result }
        ensures same { self.new ≡ self.old }
    {
        Ok(())
    }

    fn flush(&mut self) -> Result<(), Failed> {
        match self.output.flush() {
            Ok(()) => {
                self.flushes.flush();
                Ok(())
            }
            Err(_) => Err(self.faults.fail()),
        }
    }
}
