//! The blocks that a script stands in.
ghost use Rattle.std.specs.Prelude.{◌≡◌, ◌<◌, ◌≤◌, [], ◌∷◌, length, IfOk, MatchOption};
ghost use Rattle.sim_script_model.specs.Scripts.{tail_of};
ghost use Rattle.sim_script.specs.Kept.{frame_of};

use sim_types::EventId;
use std::alloc::{AllocError, Global};
use std::marker::Model;

/// A block that a script stands in.
#[derive(Clone, Copy)]
pub(crate) enum Frame {
    /// A scope, with its request.
    InScope(EventId),
    /// A try, with the place of its catch line.
    InTry(u32),
    /// A loop, with the place behind its `end`.
    InLoop(u32),
    /// A repeat, with the place behind its `end` and the turns that are left, the present one
    /// among them.
    InRepeat(u32, i64),
}

/// The blocks from the outermost to the innermost. Memory for as many as find room is taken at once.
#[derive(Drop)]
pub(crate) struct Frames {
    values: Vec<Frame>,
}

impl Model for Frames {
    ghost use Rattle.std.specs.Prelude.{map, reverse, vec_capacity};
    ghost use Rattle.sim_script.specs.Kept.{FramesOf, frame_of};

    ghost Value = { FramesOf };

    ghost view = { λ a. record {
      blocks = reverse (map frame_of a.values.items);
      room = vec_capacity a.values;
    } };
}

impl Frames {
    pub(crate) fn new(alloc: Global, room: usize) -> Result<Frames, AllocError>
        ensures { IfOk result (λ frames. frames ≡ record { blocks = []; room = room }) }
    {
        Ok(Frames {
            values: Vec::with_capacity(alloc, room)?,
        })
    }

    /// Leaves all blocks.
    pub(crate) fn clear(&mut self)
        ensures { self.new ≡ record self.old { blocks = [] } }
    {
        self.values.clear();
    }

    /// The innermost block.
    pub(crate) fn innermost(&self) -> Option<Frame>
        ensures innermost { MatchOption result (self.now.blocks ≡ [])
            (λ frame. self.now.blocks ≡ frame_of frame ∷ tail_of self.now.blocks) }
        ensures few { length self.now.blocks ≤ self.now.room }
    {
        self.values.last().copied()
    }

    /// Enters a block.
    pub(crate) fn push(&mut self, frame: Frame)
        requires { length self.old.blocks < self.old.room }
        ensures { self.new ≡ record self.old { blocks = frame_of frame ∷ self.old.blocks } }
    {
        self.values.push_reserved(frame);
    }

    /// Leaves the innermost block, where there is one.
    pub(crate) fn pop(&mut self)
        ensures { self.new ≡ record self.old { blocks = tail_of self.old.blocks } }
    {
        let _ = self.values.pop();
    }
}
