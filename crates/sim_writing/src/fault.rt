//! Why a run was not written to its end.
ghost use Rattle.std.specs.Prelude.{◌≡◌};
ghost use Rattle.sim_writing.specs.declared.fault.RunFault.TheVariants.{Write, Memory};

use sim_outside::Failed;
use std::alloc::AllocError;

/// Why a run was not written to its end.
#[derive(Clone, Copy, Debug, PartialEq, Eq)]
pub enum RunFault {
    /// A write failed.
    Write,
    /// No memory was found.
    Memory,
}

impl From<Failed> for RunFault {
    ghost from_gives = { λ _ fault. fault ≡ Write };

    fn from(_failed: Failed) -> RunFault {
        RunFault::Write
    }
}

impl From<AllocError> for RunFault {
    ghost from_gives = { λ _ fault. fault ≡ Memory };

    fn from(_error: AllocError) -> RunFault {
        RunFault::Memory
    }
}
