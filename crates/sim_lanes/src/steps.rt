//! The kinds of step on the table. Each is of one seat, and changes what that seat knows, alone.
use crate::view::View;
use atomic_table::{Join, Play, Split};

/// A poster loads its lane's head: how many of its posts are taken.
pub struct LoadHead;

impl Play<u8, View> for LoadHead {
    ghost use Rattle.sim_lanes.specs.Plays.{SeesHead};

    ghost then = { SeesHead };
}

/// A poster stores the port of its next post.
pub struct StorePort;

impl Play<u8, View> for StorePort {
    ghost use Rattle.sim_lanes.specs.Plays.{WritesPort};

    ghost then = { WritesPort };
}

/// A poster stores the value of its next post.
pub struct StoreValue;

impl Play<u8, View> for StoreValue {
    ghost use Rattle.sim_lanes.specs.Plays.{WritesValue};

    ghost then = { WritesValue };
}

/// A poster stores its lane's tail: one more is posted.
pub struct StoreTail;

impl Play<u8, View> for StoreTail {
    ghost use Rattle.sim_lanes.specs.Plays.{Posts};

    ghost then = { Posts };
}

/// The taker loads a lane's tail: how many were posted.
pub struct LoadTail;

impl Play<u8, View> for LoadTail {
    ghost use Rattle.sim_lanes.specs.Plays.{SeesTail};

    ghost then = { SeesTail };
}

/// The taker loads the port of a lane's next post.
pub struct LoadPort;

impl Play<u8, View> for LoadPort {
    ghost use Rattle.sim_lanes.specs.Plays.{ReadsPort};

    ghost then = { ReadsPort };
}

/// The taker loads the value of a lane's next post.
pub struct LoadValue;

impl Play<u8, View> for LoadValue {
    ghost use Rattle.sim_lanes.specs.Plays.{ReadsValue};

    ghost then = { ReadsValue };
}

/// The taker stores a lane's head: one more is taken.
pub struct StoreHead;

impl Play<u8, View> for StoreHead {
    ghost use Rattle.sim_lanes.specs.Plays.{Takes};

    ghost then = { Takes };
}

/// The taker's seat makes that of the next poster, and in the end takes in that of each.
pub struct PosterSeat;

impl Split<View> for PosterSeat {
    ghost use Rattle.sim_lanes.specs.Plays.{split_off, next_poster};

    ghost left = { split_off };

    ghost right = { next_poster };
}

impl Join<View> for PosterSeat {
    ghost use Rattle.sim_lanes.specs.Plays.{joined_by};
    ghost use Rattle.sim_lanes.specs.declared.view.View.TheVariants.{Spent};

    ghost both = { joined_by };

    ghost spent = { Spent };
}
