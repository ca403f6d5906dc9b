//! What the trials of the top calls share: words, sources, and a gate where two passes meet.
ghost use Rattle.std.specs.Prelude.{◌<◌};

use sim_batch::Gate;
use sim_command::Word;
use sim_outside::MemSource;
use sim_types::List;
use std::alloc::{AllocError, Global};
use std::sync::atomic::{AtomicBool, AtomicU64, Ordering};

/// The words of a line.
pub(crate) fn words_of(alloc: Global, line: &str) -> Result<Vec<Word>, AllocError> {
    let mut words = Vec::new(alloc);
    for word in line.split_whitespace() {
        words.push(Word::new(alloc, word.as_bytes())?)?;
    }
    Ok(words)
}

/// A source of the text that gives at most `piece` bytes a read, and whose reads with these numbers fail.
pub(crate) fn source_of(
    alloc: Global,
    text: &str,
    piece: u32,
    fails: &[u64],
) -> Result<MemSource, AllocError>
    requires { 0 < piece }
{
    let bytes = text.as_bytes().to_vec(alloc)?;
    let fails = fails.to_vec(alloc)?;
    Ok(MemSource::new(List::from_vec(bytes), piece, List::from_vec(fails)))
}

/// How often a pass looks whether what it waits for has come.
pub(crate) const MOST_TURNS: u32 = 200_000_000;

/// A gate where the passes 0 and 1 wait for each other.
#[derive(Drop)]
pub(crate) struct Meeting {
    came: [AtomicBool; 2],
    met: AtomicU64,
}

impl Meeting {
    pub(crate) fn new() -> Meeting {
        Meeting {
            came: [AtomicBool::new(false), AtomicBool::new(false)],
            met: AtomicU64::new(0),
        }
    }

    /// How many passes saw the other come.
    pub(crate) fn met(&self) -> u64 {
        self.met.load(Ordering::SeqCst)
    }
}

impl Gate for Meeting {
    fn pass(&self, index: u32) {
        let (own, other) = match index {
            0 => (&self.came[0], &self.came[1]),
            _ => (&self.came[1], &self.came[0]),
        };
        own.store(true, Ordering::SeqCst);
        for _ in 0..MOST_TURNS {
            if other.load(Ordering::SeqCst) {
                self.met.fetch_add(1, Ordering::SeqCst);
                return;
            }
        }
    }
}
