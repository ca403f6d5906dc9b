//! What a taker takes.
use sim_types::Post;

/// A post that was taken: whose it is, and how many that poster had posted before it.
#[derive(Clone, Copy)]
pub struct Taken {
    pub poster: u32,
    pub serial: u32,
    pub item: Post,
}
