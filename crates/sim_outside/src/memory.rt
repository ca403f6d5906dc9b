//! Sources and sinks in memory. They tell their bytes.
ghost use Rattle.std.specs.Prelude.{◌≡◌, ◌-◌, ◌<◌, ◌↔◌, [], ◌++◌, length, min, take, drop, IfOk, OnOk, OnErr, IsErr, IsOk, IsTrue, true, false, Contains};
ghost use Rattle.sim_outside.specs.Causes.{raised, HasCause};
ghost use Rattle.sim_outside.specs.Writes.{no_flush, flushed, taking};

use crate::fault::Failed;
use crate::fault_count::FaultCount;
use crate::flushes::Flushes;
use crate::sink::Sink;
use crate::source::Source;
use crate::unread::Unread;
use sim_types::List;
use std::alloc::{AllocError, Global};
use std::marker::Model;

/// A source over bytes in memory, some of whose reads fail.
#[derive(Drop)]
pub struct MemSource {
    unread: Unread,
    /// How many bytes one read gives at most.
    piece: u32,
    /// The numbers of the reads that fail, from 0.
    fails: List<u64>,
    /// The number of the next read. It stands at 2^64 - 1.
    reads: u64,
    faults: FaultCount,
}

impl Model for MemSource {
    ghost use Rattle.sim_outside.specs.Memory.{MemSourceOf};

    ghost Value = { MemSourceOf };

    ghost view = { λ a. record
        { left = a.unread; piece = a.piece; fails = a.fails; reads = a.reads; faults = a.faults } };

    ghost use Rattle.std.specs.Prelude.{◌<◌};

    ghost invariant = { λ a. 0 < a.piece };
}

impl MemSource {
    /// A source of `bytes` that gives at most `piece` bytes a read. The reads whose numbers, from 0, stand in `fails`
    /// fail.
    pub fn new(bytes: List<u8>, piece: u32, fails: List<u64>) -> MemSource
        requires { 0 < piece }
        ensures { result
            ≡ record { left = bytes; piece = piece; fails = fails; reads = 0; faults = 0 } }
    {
        MemSource {
            unread: Unread::new(bytes),
            piece,
            fails,
            reads: 0,
            faults: FaultCount::new(),
        }
    }
}

impl Source for MemSource {
    ghost use Rattle.std.specs.Prelude.{Some};

    ghost left = { λ source. Some source.left };

    ghost faults = { λ source. source.faults };

    fn read(&mut self, buf: &mut [u8]) -> Result<usize, Failed>
        requires room { 0 < length buf.old }
        ensures fails { IsErr result ↔ Contains self.old.fails self.old.reads }
        ensures count { IfOk result (λ n. n
            ≡ min self.old.piece (min (length buf.old) (length self.old.left))) }
        ensures buffer { IfOk result (λ n. buf.new ≡ take n self.old.left ++ drop n buf.old) }
        ensures ok { IfOk result (λ n. self.new
            ≡ record self.old { left = drop n self.old.left; reads = raised self.old.reads }) }
        ensures kept { OnErr result (buf.new ≡ buf.old) }
        ensures err { OnErr result (self.new
            ≡ record self.old { reads = raised self.old.reads; faults = raised self.old.faults }) }

        // As every source.
        ensures end { IfOk result (λ n. (n ≡ 0) ↔ (self.old.left ≡ [])) }
        ensures cause { HasCause self.old.faults self.new.faults result }
    {
        let fails = self.fails.as_slice().contains(&self.reads);
        self.reads = self.reads.saturating_add(1);
        if fails {
            return Err(self.faults.fail());
        }
        Ok(self.unread.hand_out(buf, self.piece as usize))
    }
}

/// A source over bytes in memory that never fails.
#[derive(Drop)]
pub struct SteadySource {
    unread: Unread,
}

impl Model for SteadySource {
    ghost use Rattle.std.specs.Prelude.{List, ℕ};

    ghost Value = { List ℕ };

    ghost view = { λ a. a.unread };
}

impl SteadySource {
    /// A source of `bytes`.
    pub fn new(bytes: List<u8>) -> SteadySource
        ensures { result ≡ bytes }
    {
        SteadySource {
            unread: Unread::new(bytes),
        }
    }
}

impl Source for SteadySource {
    ghost use Rattle.std.specs.Prelude.{Some};

    ghost left = { λ source. Some source };

    ghost faults = { λ _. 0 };

    fn read(&mut self, buf: &mut [u8]) -> Result<usize, Failed>
        requires room { 0 < length buf.old }
        ensures ok { IsOk result }
        ensures count { IfOk result (λ n. n ≡ min (length buf.old) (length self.old)) }
        ensures buffer { IfOk result (λ n. buf.new ≡ take n self.old ++ drop n buf.old) }
        ensures rest { IfOk result (λ n. self.new ≡ drop n self.old) }
    {
        let room = buf.len();
        Ok(self.unread.hand_out(buf, room))
    }
}

/// A sink in memory with room for so many bytes.
#[derive(Drop)]
pub struct MemSink {
    bytes: Vec<u8>,
    /// How many bytes more it takes.
    room: usize,
    /// Whether the next flush fails.
    flush_fails: bool,
    faults: FaultCount,
    flushes: Flushes,
}

impl Model for MemSink {
    ghost use Rattle.std.specs.Prelude.{◌+◌, ◌≤◌, vec_len, vec_capacity};
    ghost use Rattle.sim_outside.specs.Memory.{MemSinkOf};

    ghost Value = { MemSinkOf };

    ghost view = { λ a. record {
      taken = a.bytes.items;
      room = a.room;
      flush_fails = a.flush_fails;
      faults = a.faults;
      flushing = a.flushes;
    } };

    ghost invariant = { λ a. vec_len a.bytes + a.room ≤ vec_capacity a.bytes };
}

impl MemSink {
    /// A sink that takes `room` bytes. Its memory is taken here.
    pub fn new(alloc: Global, room: u64) -> Result<MemSink, AllocError>
        ensures { IfOk result (λ sink. sink ≡ record
            { taken = []; room = room; flush_fails = false; faults = 0; flushing = no_flush }) }
    {
        let room = room as usize;
        let bytes = Vec::with_capacity(alloc, room)?;
        Ok(MemSink {
            bytes,
            room,
            flush_fails: false,
            faults: FaultCount::new(),
            flushes: Flushes::new(),
        })
    }

    /// The bytes taken.
    pub fn bytes(&self) -> &[u8]
        ensures { result.now ≡ self.now.taken }
    {
        self.bytes.as_slice()
    }

    /// Makes the next flush fail.
    pub fn fail_flush(&mut self)
        ensures { self.new ≡ record self.old { flush_fails = true } }
    {
        self.flush_fails = true;
    }
}

impl Sink for MemSink {
    ghost use Rattle.sim_outside.specs.Memory.{told_in_memory};

    ghost tells = { told_in_memory };

    ghost use Rattle.std.specs.Prelude.{false};

    ghost ignores = { λ _. false };

    fn ignores_bytes(&self) -> bool {
        false
    }

    fn write(&mut self, piece: &[u8]) -> Result<usize, Failed>
        ensures full { IsErr result ↔ (0 < length piece.now) × (self.old.room ≡ 0) }
        ensures count { IfOk result (λ n. n ≡ min (length piece.now) self.old.room) }
        ensures taken { IfOk result (λ n. self.new.taken ≡ self.old.taken ++ take n piece.now) }
        ensures room { IfOk result (λ n. self.new.room ≡ self.old.room - n) }
        ensures ok { OnOk result (self.new.faults ≡ self.old.faults) }
        ensures held_back { IfOk result (λ n. self.new.flushing ≡ taking n self.old.flushing) }
        ensures err { OnErr result
            (self.new ≡ record self.old { faults = raised self.old.faults }) }

        // As every sink.
        ensures cause { HasCause self.old.faults self.new.faults result }
    {
        if self.room == 0 && !piece.is_empty() {
            return Err(self.faults.fail());
        }
        let count = piece.len().min(self.room);
        self.bytes.extend_from_slice(&piece[..count]).unwrap();
        self.room -= count;
        self.flushes.take(count);
        Ok(count)
    }

    fn pass_on(&mut self) -> Result<(), Failed>
        ensures ok { IsOk result }
        ensures same { self.new ≡ self.old }
    {
        Ok(())
    }

    fn flush(&mut self) -> Result<(), Failed>
        ensures fails { IsErr result ↔ IsTrue self.old.flush_fails }
        ensures ok { OnOk result
            (self.new ≡ record self.old { flushing = flushed self.old.flushing }) }
        ensures err { OnErr result (self.new
            ≡ record self.old { flush_fails = false; faults = raised self.old.faults }) }

        // As every sink.
        ensures cause { HasCause self.old.faults self.new.faults result }
    {
        if self.flush_fails {
            self.flush_fails = false;
            return Err(self.faults.fail());
        }
        self.flushes.flush();
        Ok(())
    }
}
