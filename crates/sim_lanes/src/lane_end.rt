//! A lane, as one of its ends has it.
ghost use Rattle.std.specs.Prelude.{◌≡◌, ◌+◌, ◌<◌, ◌^◌};
ghost use Rattle.sim_lanes.specs.Places.{cell, width};

/// Where a lane lies, how many cells it has, and how many posts went through this end.
#[derive(Clone, Copy)]
pub struct LaneEnd {
    pub place: usize,
    pub capacity: u64,
    pub count: u64,
}

impl LaneEnd {
    /// The first word of the cell behind the posts that went through.
    pub(crate) fn cell(&self) -> usize
        requires room { 0 < self.now.capacity }
        requires small { self.now.place + width self.now.capacity < 2 ^ 63 }
        ensures { result ≡ cell self.now.place self.now.capacity self.now.count }
    {
        self.place + 2 + 2 * (self.count % self.capacity) as usize
    }
}
