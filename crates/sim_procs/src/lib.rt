//! Process bodies, and the records of live processes, which must be spent.
#![tactic(auto)]

mod body;
mod procs;
mod record;
mod scopes;

pub use body::Body;
pub use procs::Procs;
pub use record::ProcRecord;
pub use scopes::Scopes;
