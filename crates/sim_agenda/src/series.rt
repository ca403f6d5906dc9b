//! Entries that came in rising order, in a queue: each comes before all that stand behind it, so the front is due first.
//! Where processes sleep for one and the same time again and again, most entries come so, and none of them has to find
//! its place among the others.
ghost use Rattle.std.specs.Prelude.{◌≡◌, ◌+◌, ◌<◌, ◌≤◌, ◌^◌, [], ◌∷◌, ◌++◌, IsTrue, IsFalse, IsSome, length};
ghost use Rattle.std.specs.Option.{option_to_list};
ghost use Rattle.std.specs.List.Sorted.{IsPermutation};
ghost use Rattle.std.specs.VecDeque.{deque_len, deque_capacity};
ghost use Rattle.sim_agenda.specs.Heaps.{IsHeap};
ghost use Rattle.sim_agenda.specs.Series.{Rises, FrontIsDue, FirstIsDue};

use sim_types::{Count, Entry};
use std::collections::VecDeque;
use std::mem;

/// Whether an entry may stand behind the last: all others come before it.
pub(crate) fn goes_behind(series: &VecDeque<Entry>, entry: &Entry, count: &mut Count) -> bool
    requires rises { Rises series.now.items }
    requires count { count.old ≤ 2 ^ 63 + 2 }
    ensures rises { IsTrue result → Rises (series.now.items ++ entry.now ∷ []) }
    ensures once { count.new ≤ count.old + 1 }
    ensures counts { count.old ≤ count.new }
    ensures alone { series.now.items ≡ [] → count.new ≡ count.old }
{
    match series.back() {
        Some(last) => last.key.less(&entry.key, count),
        None => true,
    }
}

/// Puts an entry behind the last, if there is room and all others come before it. It takes no memory.
pub(crate) fn put_behind(series: &mut VecDeque<Entry>, entry: &Entry, count: &mut Count) -> bool
    requires rises { Rises series.old.items }
    requires count { count.old ≤ 2 ^ 63 + 2 }
    ensures rises { Rises series.new.items }
    ensures put { IsTrue result → series.new.items ≡ series.old.items ++ entry.now ∷ [] }
    ensures kept { IsFalse result → series.new.items ≡ series.old.items }
    ensures once { count.new ≤ count.old + 1 }
    ensures counts { count.old ≤ count.new }
    ensures alone { series.old.items ≡ [] → count.new ≡ count.old }
{
    if series.len() == series.capacity() {
        return false;
    }
    if !goes_behind(series, entry, count) {
        return false;
    }
    series.push_back_reserved(*entry);
    true
}

/// Puts an entry in that comes before all of the series, where that is one entry alone, and returns that one; else returns
/// the entry. Where there are more, each of them may be due soon, and they are left alone. It takes no memory.
pub(crate) fn exchange_only(series: &mut VecDeque<Entry>, entry: Entry) -> Entry
    requires rises { Rises series.old.items }
    ensures rises { Rises series.new.items }
    ensures moved { IsPermutation (entry ∷ series.old.items) (result ∷ series.new.items) }
    ensures len { deque_len series.new ≡ deque_len series.old }
    ensures capacity { deque_capacity series.new ≡ deque_capacity series.old }
{
    if series.len() != 1 {
        return entry;
    }
    mem::replace(&mut series[0], entry)
}

/// Takes the front out. Where none is left, the queue begins at its front again.
pub(crate) fn take_front(series: &mut VecDeque<Entry>) -> Option<Entry>
    ensures items { series.old.items ≡ option_to_list result ++ series.new.items }
    ensures some { 0 < length series.old.items → IsSome result }
{
    let front = series.pop_front();
    if series.is_empty() {
        series.clear();
    }
    front
}

/// Whether the front of the series is due, and not the first of the heap.
pub(crate) fn front_is_due(series: &VecDeque<Entry>, heap: &[Entry], count: &mut Count) -> bool
    requires rises { Rises series.now.items }
    requires heap { IsHeap heap.now }
    requires count { count.old ≤ 2 ^ 63 + 2 }
    ensures front { IsTrue result → FrontIsDue series.now.items heap.now }
    ensures first { IsFalse result → FirstIsDue series.now.items heap.now }
    ensures once { count.new ≤ count.old + 1 }
    ensures counts { count.old ≤ count.new }
    ensures alone { heap.now ≡ [] → count.new ≡ count.old }
{
    match (series.front(), heap.first()) {
        (Some(front), Some(first)) => front.key.less(&first.key, count),
        (front, _) => front.is_some(),
    }
}
