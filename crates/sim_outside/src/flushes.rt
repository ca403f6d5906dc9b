//! How often a sink was flushed.
ghost use Rattle.std.specs.Prelude.{◌≡◌};
ghost use Rattle.sim_outside.specs.Writes.{no_flush, flushed, taking};

use std::marker::Model;

/// A count of flushes that went well, and whether bytes were taken since the last. The count stands at 2^64 - 1.
#[derive(Drop)]
pub(crate) struct Flushes {
    count: u64,
    held_back: bool,
}

impl Model for Flushes {
    ghost use Rattle.sim_outside.specs.Writes.{Flushing};

    ghost Value = { Flushing };

    ghost view = { λ a. record { count = a.count; held_back = a.held_back } };
}

impl Flushes {
    pub(crate) const fn new() -> Flushes
        ensures { result ≡ no_flush }
    {
        Flushes {
            count: 0,
            held_back: false,
        }
    }

    /// Tells of a write that took so many bytes.
    pub(crate) fn take(&mut self, count: usize)
        ensures { self.new ≡ taking count self.old }
    {
        self.held_back = self.held_back || count > 0;
    }

    /// Tells of a flush that went well.
    pub(crate) fn flush(&mut self)
        ensures { self.new ≡ flushed self.old }
    {
        self.count = self.count.saturating_add(1);
        self.held_back = false;
    }
}
