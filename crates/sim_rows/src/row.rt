//! A worked row, and what it is answered.
ghost use Rattle.std.specs.Prelude.{◌≡◌, ◌↔◌, IsTrue, length};
ghost use Rattle.sim_rows.specs.Meant.{told_part, Wants};

use sim_command::Status;

/// How much of an answer a row tells.
#[derive(Clone, Copy)]
pub enum Tells {
    Whole,
    /// Its last lines alone.
    End,
}

/// A text with the answer that the rules give for it.
#[derive(Drop)]
pub struct Row {
    /// What the row shows.
    pub name: String,
    /// The words of the program, with blanks between them. Several that are answered alike have ` | ` between them.
    pub words: String,
    pub text: Vec<u8>,
    /// The exit status that is wanted, if the row says one.
    pub status: Option<u8>,
    pub tells: Tells,
    /// What is to be written, or how it is to end.
    pub answer: Vec<u8>,
}

/// What the program answers.
#[derive(Drop)]
pub struct Answer {
    pub status: Status,
    pub bytes: Vec<u8>,
}

impl Row {
    /// Whether this is the answer that is wanted: the exit status and what was written.
    pub fn is_answered_by(&self, status: u8, bytes: &[u8]) -> bool
        ensures { IsTrue result
            ↔ Wants self.now.status self.now.tells self.now.answer.items status bytes.now }
    {
        self.status == Some(status) && self.answer.as_slice() == self.told_part(bytes)
    }

    /// The bytes to be compared with the row's own: all that were written, or as many of the last ones.
    pub fn told_part<'a>(&self, bytes: &'a [u8]) -> &'a [u8]
        ensures { result.now
            ≡ told_part self.now.tells (length self.now.answer.items) bytes.now }
    {
        match self.tells {
            Tells::Whole => bytes,
            Tells::End => &bytes[bytes.len().saturating_sub(self.answer.len())..],
        }
    }
}
