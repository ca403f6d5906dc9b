//! Entries as a binary heap: the first is due, and below the one at `i` stand those at `2 i + 1` and `2 i + 2`, neither
//! of which comes before it. Where an entry is put in, others are copied by one level each into a place whose entry is
//! no longer wanted, and the new one is written once, where it belongs.
ghost use Rattle.std.specs.Prelude.{◌≡◌, ◌+◌, ◌-◌, ◌*◌, ◌<◌, ◌≤◌, ◌^◌, [], ◌∷◌, length, set, slice_index_or, MatchOption, vec_len, vec_capacity};
ghost use Rattle.std.specs.List.Sorted.{IsPermutation};
ghost use Rattle.sim_happen_model.specs.Agendas.{TakesFirst};
ghost use Rattle.sim_agenda.specs.Comparisons.{most_comparisons, ComparesAtLevels};
ghost use Rattle.sim_agenda.specs.Heaps as heaps;
ghost use Rattle.sim_agenda.specs.Heaps.{IsHeap, IsHeapBut, IsFirstBelow, IsMovedUp};

use sim_types::{Count, Entry};

// The place above a place.
fn parent(place: usize) -> usize
    requires { 0 < place }
    ensures { result ≡ heaps.parent place }
{
    (place - 1) / 2
}

// Of the two places right below one, that of the entry that is due first.
fn first_below(entries: &[Entry], place: usize, count: &mut Count) -> usize
    requires inner { 2 * place + 2 < length entries.now }
    requires count { count.old < 2 ^ 64 - 1 }
    ensures within { result < length entries.now }
    ensures below { heaps.parent result ≡ place }
    ensures lower { place < result }
    ensures first { IsFirstBelow entries.now result }
    ensures once { count.new ≡ count.old + 1 }
{
    let right = 2 * place + 2;
    // without a branch, which would be guessed wrong half of the time
    right - entries[right - 1].key.less(&entries[right].key, count) as usize
}

// From the top to the bottom, copies to each place the entry below it that is due first. The first is gone then, and the
// entry at the place that is told stands above it too.
fn move_up(entries: &mut [Entry], count: &mut Count) -> usize
    requires some { 0 < length entries.old }
    requires heap { IsHeap entries.old }
    requires count { count.old + length entries.old < 2 ^ 64 }
    ensures bottom { length entries.new ≤ 2 * result + 1 }
    ensures moved { IsMovedUp entries.old entries.new result }
    ensures count { ComparesAtLevels result count.old count.new }
{
    let mut place = 0;
    while 2 * place + 2 < entries.len() {
        let child = first_below(entries, place, count);
        entries[place] = entries[child];
        place = child;
    }
    let left = 2 * place + 1;
    if left < entries.len() {
        entries[place] = entries[left];
        place = left;
    }
    place
}

// Puts an entry in for the one at a place at the bottom. Those above that place move down where it comes before them.
fn put_from(entries: &mut [Entry], bottom: usize, entry: Entry, count: &mut Count)
    requires within { bottom < length entries.old }
    requires bottom { length entries.old ≤ 2 * bottom + 1 }
    requires heap { IsHeapBut entries.old bottom }
    requires count { count.old + length entries.old < 2 ^ 64 }
    ensures heap { IsHeap entries.new }
    ensures len { length entries.new ≡ length entries.old }
    ensures moved { IsPermutation (set entries.old bottom entry) entries.new }
    ensures count { ComparesAtLevels bottom count.old count.new }
{
    let mut place = bottom;
    while 0 < place {
        let above = parent(place);
        if !entry.key.less(&entries[above].key, count) {
            break;
        }
        entries[place] = entries[above];
        place = above;
    }
    entries[place] = entry;
}

// Puts an entry in, and takes the first out.
fn exchange_first(entries: &mut [Entry], entry: Entry, count: &mut Count) -> Entry
    requires heap { IsHeap entries.old }
    requires some { 0 < length entries.old }
    requires count { count.old ≤ 2 ^ 63 + 3 }
    ensures heap { IsHeap entries.new }
    ensures len { length entries.new ≡ length entries.old }
    ensures moved { IsPermutation (entry ∷ entries.old) (result ∷ entries.new) }
    ensures first { result ≡ slice_index_or entries.old 0 result }
    ensures rises { count.old ≤ count.new }
    ensures count { 2 * count.new ≤ 2 * count.old + most_comparisons (length entries.old + 1) }
{
    let first = entries[0];
    let bottom = move_up(entries, count);
    put_from(entries, bottom, entry, count);
    first
}

/// An entry more. It takes no memory.
pub(crate) fn push(entries: &mut Vec<Entry>, entry: Entry, count: &mut Count)
    requires heap { IsHeap entries.old.items }
    requires room { vec_len entries.old < vec_capacity entries.old }
    requires count { count.old ≤ 2 ^ 63 + 3 }
    ensures heap { IsHeap entries.new.items }
    ensures moved { IsPermutation (entry ∷ entries.old.items) entries.new.items }
    ensures len { vec_len entries.new ≡ vec_len entries.old + 1 }
    ensures capacity { vec_capacity entries.new ≡ vec_capacity entries.old }
    ensures count { ComparesAtLevels (vec_len entries.old) count.old count.new }
{
    let place = entries.len();
    // what stands in the new slot meanwhile does not count
    let any = entry;
    entries.push_reserved(any);
    put_from(entries, place, entry, count);
}

/// Takes the first out. It takes no memory, and compares at most half as often as an agenda may.
pub(crate) fn pop(entries: &mut Vec<Entry>, count: &mut Count) -> Option<Entry>
    requires heap { IsHeap entries.old.items }
    requires count { count.old ≤ 2 ^ 63 + 3 }
    ensures heap { IsHeap entries.new.items }
    ensures due { MatchOption result ((entries.old.items ≡ []) × (entries.new.items ≡ []))
        (λ x. TakesFirst entries.old.items x entries.new.items) }
    ensures len { MatchOption result (vec_len entries.new ≡ vec_len entries.old)
        (λ _. vec_len entries.new + 1 ≡ vec_len entries.old) }
    ensures capacity { vec_capacity entries.new ≡ vec_capacity entries.old }
    ensures rises { count.old ≤ count.new }
    ensures count { 2 * count.new ≤ 2 * count.old + most_comparisons (vec_len entries.old) }
{
    let last = entries.pop()?;
    if entries.is_empty() {
        return Some(last);
    }
    Some(exchange_first(entries, last, count))
}
