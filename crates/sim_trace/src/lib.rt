//! The written texts: lines of a trace and of a journal, what runs come to, and why a text is refused.
#![tactic(auto)]

mod buffer;
mod digits;
mod fault;
mod journal;
mod summary;
mod text;
mod watching;
mod words;

pub use buffer::LineBuf;
pub use fault::render_fault;
pub use journal::render_arrival;
pub use summary::{render_batch, render_load, render_summary};
pub use text::render;
pub use watching::{render_row, render_watch_end};
