//! What each replication passes before its work. It may wait there for others, and so show that they run at once.

/// Where each index of a batch passes once.
pub trait Gate {
    fn pass(&self, index: u32);
}

/// A gate where nobody waits.
#[derive(Drop)]
pub struct FreeGate;

impl Gate for FreeGate {
    fn pass(&self, _index: u32) {}
}
