ghost use Rattle.std.specs.Prelude.{◌≡◌, ◌+◌, ◌*◌, ◌<◌, ◌≤◌, ◌^◌, [], ◌∷◌, length, IsOk, OnOk, IfSome, MatchOption};
ghost use Rattle.std.specs.List.Sorted.{IsPermutation};
ghost use Rattle.sim_happen_model.specs.Agendas.{PopsFirst};
ghost use Rattle.sim_agenda.specs.Comparisons.{most_comparisons};
ghost use Rattle.sim_agenda.specs.Series.{IsFirst};

use crate::heap;
use crate::series::{exchange_only, front_is_due, goes_behind};
use sim_types::{Count, Entry};
use std::alloc::{AllocError, Global};
use std::collections::VecDeque;
use std::marker::Model;

/// Entries in no order that counts. One that comes after all of the series when it is put in goes to its end, and any
/// other into the heap. Where the series has one entry alone, it may be far away, as the end of a run is, so that nothing
/// comes after it for long: it goes into the heap then, and the new entry begins the series. Each of the two has room for all.
#[derive(Drop)]
pub(crate) struct Backlog {
    heap: Vec<Entry>,
    series: VecDeque<Entry>,
}

impl Model for Backlog {
    ghost use Rattle.std.specs.Prelude.{◌+◌, ◌-◌, ◌++◌, min, vec_len, vec_capacity};
    ghost use Rattle.std.specs.VecDeque.{deque_len, deque_capacity};
    ghost use Rattle.sim_happen_model.specs.Agendas.{AgendaOf};
    ghost use Rattle.sim_agenda.specs.Series.{IsArranged};

    ghost Value = { AgendaOf };

    ghost view = { λ a. record {
      entries = a.heap.items ++ a.series.items;
      spare = min (vec_capacity a.heap) (deque_capacity a.series)
          - (vec_len a.heap + deque_len a.series);
    } };

    ghost invariant = { λ a. IsArranged a.heap.items a.series.items
        (vec_capacity a.heap) (deque_capacity a.series) };
}

impl Backlog {
    /// No entries.
    pub(crate) fn new(alloc: Global) -> Backlog
        ensures entries { result.entries ≡ [] }
        ensures few { result.spare < 2 ^ 63 }
    {
        Backlog {
            heap: Vec::new(alloc),
            series: VecDeque::new(alloc),
        }
    }

    /// Makes room for so many more entries.
    pub(crate) fn reserve(&mut self, more: usize) -> Result<(), AllocError>
        ensures entries { self.new.entries ≡ self.old.entries }
        ensures room { OnOk result (more ≤ self.new.spare) }
        ensures never_less { self.old.spare ≤ self.new.spare }
        ensures succeeds { more ≤ self.old.spare → IsOk result }
        ensures few { length self.new.entries + self.new.spare < 2 ^ 63 }
    {
        if more <= self.spare() {
            return Ok(());
        }
        self.heap.reserve(more.saturating_add(self.series.len()))?;
        // as much as the heap has: a deque grows by its length, and so anew for each call
        let room = self.heap.capacity();
        self.series.reserve(room.saturating_sub(self.series.len()))
    }

    /// An entry more. It takes no memory.
    pub(crate) fn push(&mut self, entry: Entry, count: &mut Count)
        requires room { 1 ≤ self.old.spare }
        requires count { count.old ≤ 2 ^ 63 + 2 }
        ensures entries { IsPermutation (entry ∷ self.old.entries) self.new.entries }
        ensures spare { self.new.spare + 1 ≡ self.old.spare }
        ensures rises { count.old ≤ count.new }
        ensures count { 2 * count.new ≤ 2 * count.old + most_comparisons (length self.old.entries) }
    {
        if goes_behind(&self.series, &entry, count) {
            self.series.push_back_reserved(entry);
        } else {
            let other = exchange_only(&mut self.series, entry);
            heap::push(&mut self.heap, other, count);
        }
    }

    /// How many entries there are.
    pub(crate) fn len(&self) -> usize
        ensures { result ≡ length self.now.entries }
    {
        self.heap.len() + self.series.len()
    }

    /// For how many entries there is room, with those that there are.
    pub(crate) fn room(&self) -> usize
        ensures { result ≡ length self.now.entries + self.now.spare }
    {
        self.heap.capacity().min(self.series.capacity())
    }

    /// For how many more entries there is room.
    pub(crate) fn spare(&self) -> usize
        ensures { result ≡ self.now.spare }
    {
        self.room() - self.len()
    }

    /// The first entry: no other comes before it.
    pub(crate) fn first(&self, count: &mut Count) -> Option<&Entry>
        requires count { count.old ≤ 2 ^ 63 }
        ensures first { MatchOption result (self.now.entries ≡ [])
            (λ x. IsFirst x.now self.now.entries) }
        ensures once { count.new ≤ count.old + 1 }
        ensures rises { count.old ≤ count.new }
        ensures alone { self.now.entries ≡ [] → count.new ≡ count.old }
    {
        if front_is_due(&self.series, &self.heap, count) {
            self.series.front()
        } else {
            self.heap.first()
        }
    }

    /// Takes the entry out that is due: no other comes before it. It takes no memory.
    pub(crate) fn pop(&mut self, count: &mut Count) -> Option<Entry>
        requires count { count.old ≤ 2 ^ 63 + 2 }
        ensures due { PopsFirst result self.old self.new }
        ensures spare { IfSome result (λ x. self.new.spare ≡ self.old.spare + 1) }
        ensures rises { count.old ≤ count.new }
        ensures count { count.new ≤ count.old + most_comparisons (length self.old.entries) }
        ensures half { 2 * count.new
            ≤ 2 * count.old + most_comparisons (length self.old.entries) + 2 }
    {
        if front_is_due(&self.series, &self.heap, count) {
            self.series.pop_front()
        } else {
            heap::pop(&mut self.heap, count)
        }
    }
}
