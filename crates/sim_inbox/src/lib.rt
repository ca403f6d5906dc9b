//! Inboxes: values that other threads post into a run. What posters and takers promise, and an inbox over a queue.
#![tactic(auto)]

mod posting;
mod queue;
mod rule;
mod taken;

pub use posting::{CloseRefused, Inbox, PostFault, Posting, Taking};
pub use queue::{QueueInbox, QueuePoster, QueueTaker, new_queue};
pub use taken::Taken;
