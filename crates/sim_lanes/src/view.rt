//! What the seats of the table know. Proofs alone speak of it: no value of these types is made.
use sim_types::Post;
use std::collections::LinkedList;

/// What a poster knows of its lane.
pub struct PosterView {
    pub number: u64,
    pub capacity: u64,
    /// What it posted.
    pub posted: LinkedList<Post>,
    /// How often it loaded the head, and what it found the last time.
    pub loads: u64,
    pub taken_seen: u64,
    /// What it has written of the cell at the tail.
    pub port: Option<u32>,
    pub value: Option<i64>,
}

/// What the taker knows of a lane.
pub struct LaneView {
    pub place: u64,
    pub capacity: u64,
    /// What it took.
    pub taken: LinkedList<Post>,
    /// How often it loaded the tail, and what it found the last time.
    pub loads: u64,
    pub posted_seen: u64,
    /// What it has read of the cell at the head.
    pub port: Option<u32>,
    pub value: Option<i64>,
    /// All that was posted, once the poster has joined.
    pub whole: Option<LinkedList<Post>>,
}

/// What a seat knows.
pub enum View {
    Poster(PosterView),
    /// How many posters' seats were split off, and each lane.
    Taker(u64, LinkedList<LaneView>),
    /// A seat that has joined.
    Spent,
}
