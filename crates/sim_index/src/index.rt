ghost use Rattle.std.specs.Prelude.{◌≡◌, ◌+◌, ◌-◌, ◌<◌, ◌≤◌, ◌^◌, [], length, Some, None, IsSome, is_some, IsOk, OnOk, count_by, slice_set};
ghost use Rattle.sim_index.specs.IndexOf.{place_of_number, with_number};

use crate::entries::{
    Entry, GONE, Guesses, compact, compact_if_full, is_at, position, position_by_guesses, put,
};
use std::alloc::{AllocError, Global};
use std::marker::Model;

/// Numbers that rise as they are given, and the place of each that has one: an index of slots that are given again,
/// where numbers are not.
///
/// The entries stand in rising order of their numbers, so a new number comes last, and takes no memory beyond what was
/// reserved. A number that is taken out leaves its entry behind, marked. There is room for four entries for each number
/// that has a place; when it is full, all that are marked go at once, and also when they are many and as many as those
/// that have a place. So this comes once in at least half as many new numbers as entries are looked at, and the memory
/// does not grow with the numbers that were ever given.
#[derive(Drop)]
pub struct Index {
    entries: Vec<Entry>,
    guesses: Guesses,
    // Where a number was found when it was last searched for by halving, at the slot that its lowest bits name. There
    // are none, or as many as a power of two. A hint is only a guess, tested by the number of the entry there: entries
    // move, and numbers share slots, and a place that 32 bits do not name has no hint of its own. Processes that go on in
    // no order of their numbers are found by theirs, without halving.
    hints: Vec<u32>,
    // How many numbers have a place.
    live: usize,
    // The least number that may still be given.
    given: u64,
    // With so many entries those that are marked go, though there may be room for more.
    most: usize,
}

// How many entries there is room for, for each number that has a place.
const ENTRIES_PER_NUMBER: usize = 4;

// How many hints there are at least, once there is room: among few, too many numbers would share theirs.
const LEAST_HINTS: usize = 64;

impl Model for Index {
    ghost use Rattle.std.specs.Prelude.{◌-◌, ◌/◌, vec_capacity};
    ghost use Rattle.sim_index.specs.IndexOf.{IndexOf};

    ghost Value = { IndexOf };

    ghost use Rattle.sim_index.specs.Entries.{entries_per_number, places_below, IsSoundIndex};

    ghost view = { λ a. record {
      places = places_below a.given a.entries.items;
      spare = vec_capacity a.entries / entries_per_number - a.live;
    } };

    ghost invariant = { λ a. IsSoundIndex a.entries.items a.live a.given (vec_capacity a.entries) };
}

impl Index {
    /// No number was given. It takes no memory.
    pub fn new(alloc: Global) -> Index
        ensures places { result.places ≡ [] }
        ensures spare { result.spare ≡ 0 }
    {
        Index {
            entries: Vec::new(alloc),
            guesses: Guesses {
                ahead: 0,
                sought: 0,
            },
            hints: Vec::new(alloc),
            live: 0,
            given: 0,
            most: 0,
        }
    }

    /// How many numbers have a place.
    pub fn len(&self) -> usize
        ensures { result ≡ count_by is_some self.now.places }
    {
        self.live
    }

    /// For how many more numbers there is room.
    pub fn spare(&self) -> usize
        ensures { result ≡ self.now.spare }
    {
        self.entries.capacity() / ENTRIES_PER_NUMBER - self.live
    }

    /// The least number that may still be given by `insert`.
    pub fn next(&self) -> u64
        ensures { result ≡ length self.now.places }
    {
        self.given
    }

    /// Makes room for so many more numbers.
    pub fn reserve(&mut self, more: u32) -> Result<(), AllocError>
        ensures ok { OnOk result (more ≤ self.new.spare) }
        ensures succeeds { more ≤ self.old.spare → IsOk result }
        ensures never_less { self.old.spare ≤ self.new.spare }
        ensures places { self.new ≡ record self.old { spare = self.new.spare } }
    {
        let more = more as usize;
        if self.entries.capacity() / ENTRIES_PER_NUMBER - self.live >= more {
            return Ok(());
        }
        compact(&mut self.entries);
        let wanted = ENTRIES_PER_NUMBER * (self.live + more);
        self.entries.reserve(wanted - self.live)?;
        // A hint for each number that there is room for.
        let numbers = self.entries.capacity() / ENTRIES_PER_NUMBER;
        let hints = numbers.max(LEAST_HINTS).next_power_of_two();
        self.hints.resize(hints, 0)
    }

    /// The place of a number, if it has one.
    pub fn get(&self, number: u64) -> Option<usize>
        ensures { result ≡ place_of_number number self.now.places }
    {
        match position(self.entries.as_slice(), self.guesses, number) {
            Some(at) => self.entries[at].known_place(),
            None => None,
        }
    }

    /// The same, for a number that is looked up again and again: until another one is sought, it is found at once, and
    /// after that mostly without a search.
    #[inline(always)]
    pub fn seek(&mut self, number: u64) -> Option<usize>
        ensures place { result ≡ place_of_number number self.old.places }
        ensures same { self.new ≡ self.old }
    {
        let sought = self.guesses.sought;
        if is_at(self.entries.as_slice(), number, sought) {
            return self.entries[sought].known_place();
        }
        self.seek_other(number)
    }

    // The same, where the number is not the one that was sought last.
    #[inline(never)]
    fn seek_other(&mut self, number: u64) -> Option<usize>
        ensures place { result ≡ place_of_number number self.old.places }
        ensures same { self.new ≡ self.old }
    {
        let entries = self.entries.as_slice();
        match position_by_guesses(entries, self.guesses, self.hints.as_mut_slice(), number) {
            Some(at) => {
                self.guesses.sought = at;
                self.entries[at].known_place()
            }
            None => None,
        }
    }

    /// Gives a place to a number that is greater than all before.
    pub fn insert(&mut self, number: u64, place: usize)
        requires spare { 0 < self.old.spare }
        requires number { length self.old.places ≤ number }
        requires last { number < 2 ^ 64 - 1 }
        requires place { place < 2 ^ 64 - 1 }
        ensures places { self.new.places ≡ with_number number place self.old.places }
        ensures spare { self.new.spare + 1 ≡ self.old.spare }
    {
        compact_if_full(&mut self.entries, &mut self.most, self.live);
        self.guesses.ahead = number.wrapping_sub(self.entries.len() as u64);
        self.entries.push_reserved(Entry { number, place });
        self.live += 1;
        self.given = number + 1;
    }

    /// Gives a place to a number that has none, though greater ones were given. As many entries may move as there are.
    pub fn insert_earlier(&mut self, number: u64, place: usize)
        requires spare { 0 < self.old.spare }
        requires number { number < length self.old.places }
        requires none { place_of_number number self.old.places ≡ None }
        requires place { place < 2 ^ 64 - 1 }
        ensures places { self.new.places ≡ slice_set self.old.places number (Some place) }
        ensures spare { self.new.spare + 1 ≡ self.old.spare }
    {
        compact_if_full(&mut self.entries, &mut self.most, self.live);
        put(&mut self.entries, Entry { number, place });
        self.live += 1;
    }

    /// Gives another place to a number that has one.
    pub fn set(&mut self, number: u64, place: usize)
        requires there { IsSome (place_of_number number self.old.places) }
        requires place { place < 2 ^ 64 - 1 }
        ensures places { self.new.places ≡ slice_set self.old.places number (Some place) }
        ensures spare { self.new.spare ≡ self.old.spare }
    {
        match position(self.entries.as_slice(), self.guesses, number) {
            Some(at) => {
                let entry = &mut self.entries[at];
                entry.place = place;
            }
            None => unreachable!(),
        }
    }

    /// Takes out a number. The answer is the place that it had.
    pub fn remove(&mut self, number: u64) -> usize
        requires { IsSome (place_of_number number self.old.places) }
        ensures place { place_of_number number self.old.places ≡ Some result }
        ensures places { self.new.places ≡ slice_set self.old.places number None }
        ensures spare { self.new.spare ≡ self.old.spare + 1 }
    {
        match position(self.entries.as_slice(), self.guesses, number) {
            Some(at) => {
                let entry = &mut self.entries[at];
                let place = entry.place;
                entry.place = GONE;
                self.live -= 1;
                place
            }
            None => unreachable!(),
        }
    }
}
