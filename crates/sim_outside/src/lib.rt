//! What is read from and written to: sources and sinks, each with the bytes that it tells and a count of its faults.
#![tactic(auto)]

mod fault;
mod fault_count;
mod flushes;
mod gathering;
mod held;
mod lent;
mod memory;
mod null;
mod sink;
mod source;
mod standard;
mod unread;

pub use fault::{Failed, TakeFault};
pub use gathering::Gathering;
pub use lent::LentSink;
pub use memory::{MemSink, MemSource, SteadySource};
pub use null::NullSink;
pub use sink::{Sink, write_all};
pub use source::{Source, take_all};
pub use standard::{StdSink, StdSource};
