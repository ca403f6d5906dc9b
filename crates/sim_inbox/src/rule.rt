//! The rule of a queue, over what it holds and what each pass knows.
use crate::taken::Taken;
use crossbeam_queue::protocol::{Join, Lesson, Outcome, Protocol, Split};
use sim_types::Post;
use std::collections::LinkedList;

/// What a pass knows. No value of it is made.
pub enum View {
    /// The poster's number, and what it posted.
    Poster(u64, LinkedList<Post>),
    /// What was taken, and for each poster that has joined all that it posted.
    Taker(LinkedList<Taken>, LinkedList<Option<LinkedList<Post>>>),
    /// Nothing: the pass has joined.
    Spent,
}

/// Of each poster, what was taken and then what the queue holds is what it posted.
pub struct InOrder;

impl Protocol<Taken, View> for InOrder {
    ghost use Rattle.std.specs.Prelude.{[]};
    ghost use Rattle.sim_inbox.specs.declared.rule.View.TheVariants.{Taker};
    ghost use Rattle.sim_inbox.specs.Delivery.{Delivers};

    ghost holds = { Delivers };

    ghost first = { Taker [] [] };
}

/// A push by a poster.
pub struct Pushed;

impl Outcome<Taken, View> for Pushed {
    ghost use Rattle.std.specs.Prelude.{◌≡◌};
    ghost use Rattle.sim_inbox.specs.Delivery.{with_post};

    ghost then = { λ before entry after. after ≡ with_post before entry };
}

/// A pop by the taker, and what it learns where nothing is left to pop.
pub struct Popped;

impl Outcome<Taken, View> for Popped {
    ghost use Rattle.sim_inbox.specs.Delivery.{Pops};

    ghost then = { Pops };
}

impl Lesson<Taken, View> for Popped {
    ghost use Rattle.sim_inbox.specs.Delivery.{Knows};

    ghost fact = { Knows };
}

/// How the taker's pass makes those of the posters, and takes them in again.
pub struct Posters;

impl Split<View> for Posters {
    ghost use Rattle.sim_inbox.specs.Delivery.{split_off, next_poster};

    ghost left = { split_off };

    ghost right = { next_poster };
}

impl Join<View> for Posters {
    ghost use Rattle.sim_inbox.specs.Delivery.{joined_by};
    ghost use Rattle.sim_inbox.specs.declared.rule.View.TheVariants.{Spent};

    ghost both = { joined_by };

    ghost spent = { Spent };
}
