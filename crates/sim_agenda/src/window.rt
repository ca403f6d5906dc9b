//! The entries of the next times, a queue for each time: of these the first is found without a comparison, however many
//! there are. The queues are a ring, and the window slides with the time: where an entry is taken, the queues of the times
//! before it have none left, and they become those of as many later times.
ghost use Rattle.std.specs.Prelude.{◌≡◌, ℕ, ◌+◌, ◌%◌, ◌<◌, ◌≤◌, ◌^◌, ◌+ℤ◌, pos, [], ◌∷◌, ◌++◌, map, length};
ghost use Rattle.std.specs.Prelude.{slice_index_or, IsTrue, IsFalse, IfSome, IfOk, MatchOption, All, vec_len};
ghost use Rattle.std.specs.List.Sorted.{IsPermutation};
ghost use Rattle.sim_happen_model.specs.Agendas.{TakesFirst};
ghost use Rattle.sim_agenda.specs.Series.{IsFirst};
ghost use Rattle.sim_agenda.specs.Windows.{joined, turned};

use crate::series::{put_behind, take_front};
use sim_types::{Count, Entry};
use std::alloc::{AllocError, Global};
use std::collections::VecDeque;
use std::marker::Model;

// How many times there is a queue for.
const TIMES: usize = 64;

/// Entries of the times from a start on. The start is never later than the entry that was taken last, so that others of
/// its time find their queue.
#[derive(Drop)]
pub(crate) struct Window {
    // a ring with one for each time, with its entries in rising order; none before the first `reserve`
    queues: Vec<VecDeque<Entry>>,
    // the place of the start's queue; those of the times after it follow, and after the last place comes the first
    turn: usize,
    // the time that the window begins at
    start: i64,
    // from the start on, the number of the first queue that is not empty, or the number of all queues
    first: usize,
    // how many entries there are in all queues
    len: usize,
    alloc: Global,
}

impl Model for Window {
    ghost use Rattle.std.specs.Prelude.{List, map};
    ghost use Rattle.sim_types.specs.declared.event.Entry.{Entry};
    ghost use Rattle.sim_agenda.specs.Windows.{joined, turned, IsRing};

    ghost Value = { List Entry };

    ghost view = { λ a. joined (turned a.turn (map (λ q. q.items) a.queues.items)) };

    ghost invariant = { λ a. IsRing (map (λ q. q.items) a.queues.items) a.turn
        a.start a.first a.len };
}

// The number of the queue of a time, of so many queues from the start on.
fn number_of(queues: usize, start: i64, time: i64) -> Option<usize>
    ensures { IfSome result (λ i. (i < queues) × (time ≡ start +ℤ pos i)) }
{
    let number = usize::try_from(time.checked_sub(start)?).ok()?;
    if number < queues { Some(number) } else { None }
}

// The place in the ring of the queue with a number.
fn place_in_ring(turn: usize, number: usize) -> usize
    requires turn { turn < 64 }
    requires number { number < 64 }
    ensures { result ≡ (turn + number) % 64 }
{
    (turn + number) % TIMES
}

// Makes room for so many entries in all in a queue.
fn reserve_to(queue: &mut VecDeque<Entry>, all: usize) -> Result<(), AllocError>
    ensures { queue.new.items ≡ queue.old.items }
{
    let len = queue.len();
    if len < all {
        queue.reserve_exact(all - len)?;
    }
    Ok(())
}

// Makes so much room in each queue.
fn reserve_each(queues: &mut [VecDeque<Entry>], all: usize) -> Result<(), AllocError>
    ensures { map (λ q. q.items) queues.new ≡ map (λ q. q.items) queues.old }
{
    for queue in queues.iter_mut() {
        reserve_to(queue, all)?;
    }
    Ok(())
}

// A queue for each time, with room for so many entries.
fn empty_queues(alloc: Global, each: usize) -> Result<Vec<VecDeque<Entry>>, AllocError>
    ensures len { IfOk result (λ v. vec_len v ≡ 64) }
    ensures empty { IfOk result (λ v. All (λ q. q.items ≡ []) v.items) }
{
    let mut queues = Vec::new(alloc);
    for _ in 0..TIMES {
        queues.push(VecDeque::with_capacity(alloc, each)?)?;
    }
    Ok(queues)
}

// From a place of the ring on, the number of the first queue that is not empty, or the number of all. Where there are no
// entries, no queue is looked at.
fn next_filled(queues: &[VecDeque<Entry>], turn: usize, len: usize) -> usize
    requires all { length queues.now ≡ 64 }
    requires turn { turn < 64 }
    requires len { len ≡ length (joined (turned turn (map (λ q. q.items) queues.now))) }
    ensures before { (i : ℕ) → i < result
        → slice_index_or (turned turn (map (λ q. q.items) queues.now)) i [] ≡ [] }
    ensures filled { result < 64
        → 0 < length (slice_index_or (turned turn (map (λ q. q.items) queues.now)) result []) }
{
    if len == 0 {
        return TIMES;
    }
    let mut number = 0;
    while number < TIMES && queues[place_in_ring(turn, number)].is_empty() {
        number += 1;
    }
    number
}

impl Window {
    /// No entries, and no queues.
    pub(crate) fn new(alloc: Global) -> Window
        ensures { result ≡ [] }
    {
        Window {
            queues: Vec::new(alloc),
            turn: 0,
            start: 0,
            first: 0,
            len: 0,
            alloc,
        }
    }

    /// Makes the queues, and in each room for so many entries.
    pub(crate) fn reserve(&mut self, each: usize) -> Result<(), AllocError>
        ensures { self.new ≡ self.old }
    {
        if !self.queues.is_empty() {
            return reserve_each(&mut self.queues, each);
        }
        self.queues = empty_queues(self.alloc, each)?;
        self.first = TIMES;
        Ok(())
    }

    /// How many entries there are.
    pub(crate) fn len(&self) -> usize
        ensures { result ≡ length self.now }
    {
        self.len
    }

    /// An entry more, if there is a queue of its time that has room, and all there come before it. Whether it was put in.
    /// It takes no memory.
    pub(crate) fn push(&mut self, entry: &Entry, count: &mut Count) -> bool
        requires few { length self.old < 2 ^ 63 }
        requires count { count.old ≤ 2 ^ 63 }
        ensures entries { IsTrue result → IsPermutation (entry.now ∷ self.old) self.new }
        ensures kept { IsFalse result → self.new ≡ self.old }
        ensures once { count.new ≤ count.old + 1 }
        ensures counts { count.old ≤ count.new }
        ensures alone { self.old ≡ [] → count.new ≡ count.old }
    {
        let (time, _, _) = entry.key.parts();
        let number = match number_of(self.queues.len(), self.start, time) {
            Some(number) => number,
            None => return false,
        };
        let place = place_in_ring(self.turn, number);
        if !put_behind(&mut self.queues[place], entry, count) {
            return false;
        }
        self.len += 1;
        self.first = self.first.min(number);
        true
    }

    /// The first entry: no other comes before it.
    pub(crate) fn first(&self) -> Option<&Entry>
        ensures { MatchOption result (self.now ≡ []) (λ x. IsFirst x.now self.now) }
    {
        if self.len == 0 {
            return None;
        }
        self.queues[place_in_ring(self.turn, self.first)].front()
    }

    /// Takes the first entry out, and begins at its time. It takes no memory.
    pub(crate) fn pop(&mut self) -> Option<Entry>
        ensures { MatchOption result ((self.old ≡ []) × (self.new ≡ []))
            (λ x. TakesFirst self.old x self.new) }
    {
        if self.len == 0 {
            return None;
        }
        let place = place_in_ring(self.turn, self.first);
        let popped = take_front(&mut self.queues[place])?;
        let (time, _, _) = popped.key.parts();
        self.len -= 1;
        self.turn = place;
        self.start = time;
        self.first = next_filled(&self.queues, place, self.len);
        Some(popped)
    }

    /// Begins at another time, if there are no entries.
    pub(crate) fn restart(&mut self, time: i64)
        ensures { self.new ≡ self.old }
    {
        if self.len == 0 {
            self.start = time;
        }
    }
}
