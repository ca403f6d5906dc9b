//! What is answered in place of bytes.
ghost use Rattle.std.specs.Prelude.{◌≡◌};
ghost use Rattle.sim_outside.specs.declared.fault.TakeFault.TheVariants.{Read, Memory};

use std::alloc::AllocError;

/// A read, a write or a flush failed.
#[derive(Clone, Copy, Debug, PartialEq, Eq)]
pub struct Failed;

/// Why not all bytes were taken from a source.
#[derive(Clone, Copy, Debug, PartialEq, Eq)]
pub enum TakeFault {
    /// A read failed.
    Read,
    /// No memory was found for the bytes.
    Memory,
}

impl From<Failed> for TakeFault {
    ghost from_gives = { λ _ fault. fault ≡ Read };

    fn from(_failed: Failed) -> TakeFault {
        TakeFault::Read
    }
}

impl From<AllocError> for TakeFault {
    ghost from_gives = { λ _ fault. fault ≡ Memory };

    fn from(_error: AllocError) -> TakeFault {
        TakeFault::Memory
    }
}
