//! How many rows were carried out, and how many of them were answered otherwise.
ghost use Rattle.std.specs.Prelude.{◌≡◌, ◌≢◌, ◌↔◌, IsTrue, IsFalse};

#[derive(Clone, Copy)]
pub struct Tally {
    pub rows: u64,
    pub wrong: u64,
}

impl Tally {
    /// Counts a row.
    pub fn count(&mut self, is_right: bool)
        ensures right { IsTrue is_right → self.new.wrong ≡ self.old.wrong }
        ensures wrong { IsFalse is_right → self.new.wrong ≢ 0 }
        ensures kept { self.old.wrong ≢ 0 → self.new.wrong ≢ 0 }
    {
        self.rows = self.rows.saturating_add(1);
        if !is_right {
            self.wrong = self.wrong.saturating_add(1);
        }
    }

    /// Whether no row was answered otherwise.
    pub fn is_right(&self) -> bool
        ensures { IsTrue result ↔ (self.now.wrong ≡ 0) }
    {
        self.wrong == 0
    }
}
