ghost use Rattle.std.specs.Prelude.{◌≡◌, ◌↔◌, ◌+◌, ◌<◌, ◌≤◌, ◌^◌, [], ◌∷◌, length, IsTrue, IsFalse, IsOk, OnOk, IfSome};
ghost use Rattle.std.specs.List.Sorted.{IsPermutation};
ghost use Rattle.sim_happen_model.specs.Agendas.{PopsFirst};
ghost use Rattle.sim_agenda.specs.Comparisons.{most_comparisons};
ghost use Rattle.sim_agenda.specs.Series.{FirstIsDue};

use crate::backlog::Backlog;
use crate::window::Window;
use sim_types::{Count, Entry};
use std::alloc::{AllocError, Global};
use std::marker::Model;

// The queue of one time has room for one in so many of the entries that the agenda has room for,
const SHARE: usize = 32;
// and for no more than so many: what is touched again and again stays small.
const MOST_AT_A_TIME: usize = 256;

/// The entries of what is scheduled, in no order that counts.
#[derive(Drop)]
pub struct Agenda {
    // those of the next times that came in rising order
    window: Window,
    // the others, with room for all
    backlog: Backlog,
}

impl Model for Agenda {
    ghost use Rattle.std.specs.Prelude.{◌-◌, ◌++◌, length};
    ghost use Rattle.sim_happen_model.specs.Agendas.{AgendaOf};
    ghost use Rattle.sim_agenda.specs.Windows.{IsSpread};

    ghost Value = { AgendaOf };

    ghost view = { λ a. record {
      entries = a.backlog.entries ++ a.window;
      spare = a.backlog.spare - length a.window;
    } };

    ghost invariant = { λ a. IsSpread a.backlog a.window };
}

// Whether the first of the window is due, and not the first of the backlog.
fn window_is_due(window: &Window, backlog: &Backlog, count: &mut Count) -> bool
    requires count { count.old ≤ 2 ^ 63 }
    ensures some { IsTrue result → 0 < length window.now }
    ensures window { IsTrue result → FirstIsDue backlog.now.entries window.now }
    ensures backlog { IsFalse result → FirstIsDue window.now backlog.now.entries }
    ensures twice { count.new ≤ count.old + 2 }
    ensures rises { count.old ≤ count.new }
    ensures alone { window.now ≡ [] → count.new ≡ count.old }
{
    let near = match window.first() {
        Some(near) => near,
        None => return false,
    };
    match backlog.first(count) {
        Some(other) => near.key.less(&other.key, count),
        None => true,
    }
}

impl Agenda {
    /// Nothing is scheduled.
    pub fn new(alloc: Global) -> Agenda
        ensures { result.entries ≡ [] }
    {
        Agenda {
            window: Window::new(alloc),
            backlog: Backlog::new(alloc),
        }
    }

    /// Makes room for so many more entries.
    pub fn reserve(&mut self, more: usize) -> Result<(), AllocError>
        ensures entries { self.new.entries ≡ self.old.entries }
        ensures room { OnOk result (more ≤ self.new.spare) }
        ensures never_less { self.old.spare ≤ self.new.spare }
        ensures succeeds { more ≤ self.old.spare → IsOk result }
    {
        if more <= self.spare() {
            return Ok(());
        }
        let all = more.checked_add(self.window.len()).ok_or(AllocError)?;
        self.backlog.reserve(all)?;
        let room = self.backlog.room();
        self.window.reserve((room / SHARE).min(MOST_AT_A_TIME))
    }

    /// An entry more. It takes no memory.
    pub fn push(&mut self, entry: Entry, count: &mut Count)
        requires room { 1 ≤ self.old.spare }
        requires count { count.old ≤ 2 ^ 63 }
        ensures entries { IsPermutation (entry ∷ self.old.entries) self.new.entries }
        ensures spare { self.new.spare + 1 ≡ self.old.spare }
        ensures rises { count.old ≤ count.new }
        ensures count { count.new ≤ count.old + most_comparisons (length self.old.entries) }
    {
        if !self.window.push(&entry, count) {
            self.backlog.push(entry, count);
        }
    }

    /// How many entries there are.
    pub fn len(&self) -> u64
        ensures { result ≡ length self.now.entries }
    {
        (self.backlog.len() + self.window.len()) as u64
    }

    /// For how many entries there is room, with those that there are.
    pub fn room(&self) -> usize
        ensures { result ≡ length self.now.entries + self.now.spare }
    {
        self.backlog.room()
    }

    /// For how many more entries there is room.
    pub fn spare(&self) -> usize
        ensures { result ≡ self.now.spare }
    {
        self.backlog.spare() - self.window.len()
    }

    /// Whether nothing is scheduled.
    pub fn is_empty(&self) -> bool
        ensures { IsTrue result ↔ (self.now.entries ≡ []) }
    {
        self.len() == 0
    }

    /// Takes the entry out that is due: no other comes before it. It takes no memory.
    pub fn pop(&mut self, count: &mut Count) -> Option<Entry>
        requires count { count.old ≤ 2 ^ 63 }
        ensures due { PopsFirst result self.old self.new }
        ensures spare { IfSome result (λ x. self.new.spare ≡ self.old.spare + 1) }
        ensures rises { count.old ≤ count.new }
        ensures count { count.new ≤ count.old + most_comparisons (length self.old.entries) }
    {
        if window_is_due(&self.window, &self.backlog, count) {
            return self.window.pop();
        }
        let entry = self.backlog.pop(count)?;
        let (time, _, _) = entry.key.parts();
        self.window.restart(time);
        Some(entry)
    }
}
