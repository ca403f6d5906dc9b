//! Where statements go on besides at the next.
ghost use Rattle.std.specs.Prelude.{◌≡◌, ◌<◌, ◌≤◌, [], OnOk, length};
ghost use Rattle.sim_types.specs.Limits.{most_bytes};
ghost use Rattle.sim_language.specs.Links.{closings_then, link, linked, past_of, split_at, split_of};

use sim_types::Stmt;
use std::alloc::{AllocError, Global};
use std::marker::Model;

/// A block whose `end` stands further down.
#[derive(Drop)]
struct Closing {
    /// The place past its `end`.
    past: u32,
    /// That of its `catch`, or behind its `else`, or else the same.
    split: u32,
}

impl Model for Closing {
    ghost use Rattle.sim_language.specs.Links.{Closing};

    ghost Value = { Closing };

    ghost view = { λ a. record { past = a.past; split = a.split } };
}

/// The blocks that are closed from a statement on.
#[derive(Drop)]
struct Closings {
    /// The innermost is the last.
    blocks: Vec<Closing>,
}

impl Model for Closings {
    ghost use Rattle.std.specs.Prelude.{List, reverse};
    ghost use Rattle.sim_language.specs.Links.{Closing};

    ghost Value = { List Closing };

    ghost view = { λ a. reverse a.blocks.items };
}

impl Closings {
    /// None. It takes no memory.
    fn new(alloc: Global) -> Closings
        ensures { result ≡ [] }
    {
        Closings {
            blocks: Vec::new(alloc),
        }
    }

    fn past(&self) -> u32
        ensures { result ≡ past_of self.now }
    {
        match self.blocks.last() {
            Some(block) => block.past,
            None => 0,
        }
    }

    fn split(&self) -> u32
        ensures { result ≡ split_of self.now }
    {
        match self.blocks.last() {
            Some(block) => block.split,
            None => 0,
        }
    }

    /// Sets where the innermost is split.
    fn set_split(&mut self, place: u32)
        ensures { self.new ≡ split_at place self.old }
    {
        if let Some(block) = self.blocks.last_mut() {
            block.split = place;
        }
    }

    /// Tells a statement in front of these where it goes on.
    fn link(&self, statement: &mut Stmt)
        ensures { statement.new ≡ link statement.old self.now }
    {
        match statement {
            Stmt::Loop { past } => *past = self.past(),
            Stmt::Repeat { past, .. } => *past = self.past(),
            Stmt::If { other, .. } => *other = self.split(),
            Stmt::Else { past } => *past = self.past(),
            Stmt::Try { catch } => *catch = self.split(),
            Stmt::Catch { past, .. } => *past = self.past(),
            _ => {}
        }
    }

    /// Goes on to a statement in front of these.
    fn pass(&mut self, place: u32, statement: &Stmt) -> Result<(), AllocError>
        requires { place < most_bytes }
        ensures { OnOk result (self.new ≡ closings_then place statement.now self.old) }
    {
        match statement {
            Stmt::EndLoop { .. } | Stmt::EndRepeat { .. } | Stmt::EndWith | Stmt::EndPlain => {
                self.blocks.push(Closing {
                    past: place + 1,
                    split: place + 1,
                })?;
            }
            Stmt::Else { .. } => self.set_split(place + 1),
            Stmt::Catch { .. } => self.set_split(place),
            Stmt::With { .. }
            | Stmt::Loop { .. }
            | Stmt::Repeat { .. }
            | Stmt::If { .. }
            | Stmt::Try { .. } => {
                let _ = self.blocks.pop();
            }
            _ => {}
        }
        Ok(())
    }
}

/// Tells each statement the place where it goes on besides at the next.
pub fn link(alloc: Global, code: &mut Vec<Stmt>) -> Result<(), AllocError>
    requires { length code.old.items ≤ most_bytes }
    ensures { OnOk result (code.new.items ≡ linked 0 code.old.items) }
{
    let mut closings = Closings::new(alloc);
    for place in (0..code.len()).rev() {
        let statement = &mut code[place];
        closings.link(statement);
        closings.pass(place as u32, statement)?;
    }
    Ok(())
}
