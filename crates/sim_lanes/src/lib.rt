//! Lanes of words between posters and one taker: an inbox whose posts and takes neither wait nor take memory.
#![tactic(auto)]

mod closing;
mod lane_end;
mod opening;
mod poster;
mod rule;
mod steps;
mod taker;
mod view;

pub use lane_end::LaneEnd;
pub use opening::{LaneInbox, new_lanes};
pub use poster::LanePoster;
pub use rule::{LaneSeat, LaneTable, LanesRule};
pub use taker::LaneTaker;
pub use view::{LaneView, PosterView, View};
