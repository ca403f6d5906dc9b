//! What is done for each index of a batch.
ghost use Rattle.std.specs.Prelude.{◌≡◌, ℕ, IfOk};
ghost use Rattle.sim_types.specs.declared.line.Summary.{Summary};

use sim_types::Summary;
use std::alloc::{AllocError, Global};

/// A replication by its index. Which thread makes it, and when, changes nothing.
pub trait Job {
    /// What the replication of this index comes to.
    ghost answer: { Self → ℕ → Summary };

    /// What holds of each replication besides.
    ghost keeps: { Self → Summary → Type 0 };

    fn one(&self, alloc: Global, index: u32) -> Result<Summary, AllocError>
        ensures answer { IfOk result (λ summary. summary ≡ answer self.now index) }
        ensures kept { IfOk result (keeps self.now) };
}
