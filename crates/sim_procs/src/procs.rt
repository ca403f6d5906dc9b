ghost use Rattle.std.specs.Prelude.{◌≡◌, ◌↔◌, ℕ, ◌+◌, ◌<◌, ◌≤◌, ◌==◌, List, [], ◌∷◌, ◌++◌, length, IfOk, OnOk, IsOk, IfSome, IsSome, IsNone, MatchOption, IsSomeAnd, IsTrue, Some, None, ◌-◌, ◌^◌, is_some, option_and_then, slice_index_or};
ghost use Rattle.std.specs.Option.{option_map};
ghost use Rattle.std.specs.List.Sorted.{IsPermutation};
ghost use Rattle.sim_machine.specs.NumberBounds.{most_events};
ghost use Rattle.sim_procs.specs.RecordOf.{record_of, begun_record, with_record, scope_of, innermost, without_innermost, KeepsOthers, StandsAt};
ghost use Rattle.sim_index.specs.IndexOf.{place_of_number};
ghost use Rattle.sim_procs.specs.Indexed.{IsFoundSomewhere, SetsPlace, found_there, numbers, HasNumberAt};

use crate::record::ProcRecord;
use crate::scopes::Scopes;
use sim_index::Index;
use sim_types::{EventId, ProcId, Scope};
use std::alloc::{AllocError, Global};
use std::marker::Model;
use std::snapshot::Snapshot;

/// The live processes, each with its body, its target and its open scopes. It must be spent by `abandon`.
pub struct Procs<B> {
    records: Vec<ProcRecord<B>>,
    // Where the record stood of the process that was sought last.
    sought: usize,
    // Where records stood when the index was last asked for them by `seek`, each at the slot that the lowest bits of half
    // the number of its process name. There are no slots, or as many as a power of two. A hint, like `sought`, is only a
    // guess, tested by the number of the record there: records move, and numbers share slots, and a place that 32 bits do
    // not name has no hint of its own. Processes that go on in no order of their numbers are found by theirs, without the
    // index.
    hints: Vec<u32>,
    // Where the record of each process stands.
    index: Index,
    // How many scopes find room in each record.
    room: Snapshot<usize>,
}

// How many hints there are at least, once there is room: among few, too many numbers would share theirs.
const LEAST_HINTS: usize = 64;

impl<B> Model for Procs<B> {
    ghost use Rattle.std.specs.Prelude.{◌-◌, min, vec_len, vec_capacity};
    ghost use Rattle.sim_procs.specs.RecordOf.{ProcsOf};
    ghost use Rattle.sim_procs.specs.Indexed.{AreStored};

    ghost Value = { ProcsOf B };

    ghost view = { λ a. record {
      live = a.records.items;
      spare = min (vec_capacity a.records - vec_len a.records) a.index.spare;
      room = a.room.value;
    } };

    ghost invariant = { λ a. AreStored a.index.places a.room.value a.records.items };
}

impl<B> Procs<B> {
    /// No process is alive. In the record of each so many scopes are to find room.
    pub fn new(alloc: Global, room: usize) -> Result<Procs<B>, AllocError>
        ensures live { IfOk result (λ p. p.live ≡ []) }
        ensures room { IfOk result (λ p. p.room ≡ room) }
    {
        Ok(Procs {
            records: Vec::new(alloc),
            sought: 0,
            hints: Vec::new(alloc),
            index: Index::new(alloc),
            room: Snapshot::of(&room),
        })
    }

    /// Whether there is room for one more.
    pub fn has_room(&self) -> bool
        ensures { IsTrue result ↔ 1 ≤ self.now.spare }
    {
        self.records.len() < self.records.capacity() && 0 < self.index.spare()
    }

    /// Makes room for one more.
    #[inline(always)]
    pub fn reserve(&mut self) -> Result<(), AllocError>
        ensures live { self.new.live ≡ self.old.live }
        ensures scopes { self.new.room ≡ self.old.room }
        ensures room { OnOk result (1 ≤ self.new.spare) }
        ensures never_less { self.old.spare ≤ self.new.spare }
        ensures succeeds { 1 ≤ self.old.spare → IsOk result }
    {
        if self.has_room() {
            return Ok(());
        }
        self.records.reserve(1)?;
        self.index.reserve(1)?;
        // A hint for each record that there is room for.
        let hints = self.records.capacity().max(LEAST_HINTS).next_power_of_two();
        self.hints.resize(hints, 0)
    }

    /// A process more is alive.
    #[tactic(auto, using(crate::proofs::Records::adding))]
    #[inline(always)]
    pub fn add(&mut self, id: ProcId, body: B, target: EventId, scopes: Scopes)
        requires room { 1 ≤ self.old.spare }
        requires new { record_of id self.old.live ≡ None }
        requires number { id.0 < most_events }
        requires scopes { scopes ≡ record { scopes = []; room = self.old.room } }
        ensures live { IsPermutation
            (begun_record id body target self.old.room ∷ self.old.live) self.new.live }

        // By their numbers, this one is found, and the others are as before.
        ensures found { record_of id self.new.live
            ≡ Some (begun_record id body target self.old.room) }
        ensures others { KeepsOthers id self.old.live self.new.live }

        ensures scopes { self.new.room ≡ self.old.room }
        ensures spare { self.new.spare + 1 ≡ self.old.spare }
    {
        let place = self.records.as_slice().len();
        give_place(&mut self.index, id.0, place);
        self.records
            .push_reserved(ProcRecord::new(id, body, target, scopes));
    }

    // The place of a record, found by its number: at once for the process that was sought last.
    #[tactic(auto, using(crate::proofs::Places::found_at))]
    fn place(&self, id: ProcId) -> Option<usize>
        ensures { MatchOption result (record_of id self.now.live ≡ None)
            (λ i. StandsAt id self.now.live i) }
    {
        if is_at(self.records.as_slice(), id, self.sought) {
            return Some(self.sought);
        }
        self.index.get(id.0)
    }

    // The same, for a process that runs and is looked up again and again: until another one is sought, it is found at once,
    // and after that mostly without the index.
    fn seek(&mut self, id: ProcId) -> Option<usize>
        ensures place { MatchOption result (record_of id self.old.live ≡ None)
            (λ i. StandsAt id self.old.live i) }
        ensures room { IfSome (record_of id self.old.live) (λ r. r.room ≡ self.old.room) }
        ensures same { self.new ≡ self.old }
    {
        if is_at(self.records.as_slice(), id, self.sought) {
            return Some(self.sought);
        }
        self.seek_other(id)
    }

    // The same, where the process is not the one that was sought last.
    #[inline(never)]
    #[tactic(auto, using(crate::proofs::Places::found_at))]
    fn seek_other(&mut self, id: ProcId) -> Option<usize>
        ensures place { MatchOption result (record_of id self.old.live ≡ None)
            (λ i. StandsAt id self.old.live i) }
        ensures same { self.new ≡ self.old }
    {
        // A process and the event that begins it have numbers in a row, so numbers of processes are two apart at least.
        let lowest_bits = self.hints.len().wrapping_sub(1);
        match self.hints.get_mut((id.0 / 2) as usize & lowest_bits) {
            Some(hint) => {
                let guess = *hint as usize;
                if is_at(self.records.as_slice(), id, guess) {
                    self.sought = guess;
                    return Some(guess);
                }
                let at = self.index.get(id.0)?;
                *hint = u32::try_from(at).unwrap_or(u32::MAX);
                self.sought = at;
                Some(at)
            }
            None => self.index.get(id.0),
        }
    }

    /// Whether the process has not ended.
    pub fn is_alive(&self, id: ProcId) -> bool
        ensures { result ≡ is_some (record_of id self.now.live) }
    {
        self.place(id).is_some()
    }

    ghost use Rattle.std.specs.Borrow.{sem};
    ghost use Rattle.sim_procs.specs.Lending.{LendsBodyAt, LendsBodyOf};

    // The body of the record at a place.
    fn body_at(&mut self, at: usize) -> &mut B
        requires { at < length self.old.live }
        ensures* lends { sem 𝓛 (LendsBodyAt B.row self.entry at result) }
        ensures value { (d : _) → result.now ≡ (slice_index_or self.old.live at d).body }
    {
        let record = &mut self.records[at];
        record.body_mut()
    }

    /// The body of the process, for reading.
    pub fn body(&self, id: ProcId) -> &B
        requires alive { IsSome (record_of id self.now.live) }
        ensures value { option_map (λ r. r.body) (record_of id self.now.live) ≡ Some result.now }
    {
        match self.place(id) {
            Some(at) => self.records[at].body(),
            None => unreachable!(),
        }
    }

    /// The body of the process, to be changed.
    pub fn body_mut(&mut self, id: ProcId) -> &mut B
        requires alive { IsSome (record_of id self.old.live) }
        ensures* lends { sem 𝓛 (LendsBodyOf B.row self.entry id result) }
        ensures value { option_map (λ r. r.body) (record_of id self.old.live) ≡ Some result.now }
        ensures room { IfSome (record_of id self.old.live) (λ r. r.room ≡ self.old.room) }
    {
        match self.seek(id) {
            Some(at) => self.body_at(at),
            None => unreachable!(),
        }
    }

    /// The event that the process waits for.
    pub fn target(&self, id: ProcId) -> Option<EventId>
        ensures { result ≡ option_map (λ r. r.target) (record_of id self.now.live) }
    {
        let at = self.place(id)?;
        Some(self.records[at].target())
    }

    /// The process waits for another event. The answer is what it waited for before.
    pub fn replace_target(&mut self, id: ProcId, target: EventId) -> EventId
        requires alive { IsSome (record_of id self.old.live) }
        ensures before { option_map (λ r. r.target) (record_of id self.old.live) ≡ Some result }
        ensures after { self.new ≡ with_record id (λ r. record r { target = target }) self.old }
    {
        match self.place(id) {
            Some(at) => self.records[at].replace_target(target),
            None => unreachable!(),
        }
    }

    /// The open scope of this process with this request.
    pub fn scope(&self, id: ProcId, request: EventId) -> Option<Scope>
        ensures { result
            ≡ option_and_then (λ r. scope_of request r.scopes) (record_of id self.now.live) }
    {
        let at = self.place(id)?;
        self.records[at].scope(request)
    }

    /// A scope more is open, inside the others.
    pub fn push_scope(&mut self, id: ProcId, scope: Scope)
        requires alive { IsSomeAnd (record_of id self.old.live)
            (λ r. length r.scopes < r.room) }
        ensures { self.new
            ≡ with_record id (λ r. record r { scopes = r.scopes ++ scope ∷ [] }) self.old }
    {
        match self.place(id) {
            Some(at) => self.records[at].push_scope(scope),
            None => unreachable!(),
        }
    }

    /// The innermost open scope of the process, which is then closed.
    #[tactic(auto, using(crate::proofs::Records::unchanged_where_none))]
    #[inline(always)]
    pub fn pop_scope(&mut self, id: ProcId) -> Option<Scope>
        ensures result { result
            ≡ option_and_then (λ r. innermost r.scopes) (record_of id self.old.live) }
        ensures closed { self.new
            ≡ with_record id (λ r. record r { scopes = without_innermost r.scopes }) self.old }
    {
        match self.place(id) {
            Some(at) => self.records[at].pop_scope(),
            None => None,
        }
    }

    /// Takes the record of a process, which is then no longer alive.
    #[tactic(auto, using(crate::proofs::Records::taking))]
    #[inline(always)]
    pub fn take(&mut self, id: ProcId) -> Option<ProcRecord<B>>
        ensures taken { result ≡ record_of id self.old.live }
        ensures none { IsNone result → self.new ≡ self.old }
        ensures live { IfSome result (λ r. IsPermutation self.old.live (r ∷ self.new.live)) }

        // By their numbers, this one is found no more, and the others are as before.
        ensures gone { record_of id self.new.live ≡ None }
        ensures others { KeepsOthers id self.old.live self.new.live }

        ensures scopes { self.new.room ≡ self.old.room }
        ensures spare { IfSome result (λ r. self.new.spare ≡ self.old.spare + 1) }
    {
        let at = self.place(id)?;
        self.index.remove(id.0);
        let taken = self.records.swap_remove(at);
        find_at(&mut self.index, self.records.as_slice(), at);
        Some(taken)
    }

    /// Spends all records.
    pub fn abandon(self)
    where
        B: Drop,
    {
        let Procs {
            mut records,
            sought: _,
            hints: _,
            index: _,
            room: _,
        } = self;
        while let Some(record) = records.pop() {
            record.abandon();
        }
        records.destroy_empty();
    }
}

// Whether the record of a process stands at a place.
fn is_at<B>(records: &[ProcRecord<B>], id: ProcId, at: usize) -> bool
    ensures { IsTrue result → HasNumberAt id records.now at }
{
    at < records.len() && records[at].id().0 == id.0
}

// Gives a place to a number that has none. Numbers mostly rise, and then no entry of the index moves.
#[tactic(auto, using(crate::proofs::Places::inserted, crate::proofs::Places::set_there))]
fn give_place(index: &mut Index, number: u64, place: usize)
    requires spare { 0 < index.old.spare }
    requires none { place_of_number number index.old.places ≡ None }
    requires number { number < most_events }
    requires place { place < 2 ^ 64 - 1 }
    ensures places { SetsPlace number (Some place) index.old.places index.new.places }
    ensures spare { index.new.spare + 1 ≡ index.old.spare }
{
    if number < index.next() {
        index.insert_earlier(number, place);
    } else {
        index.insert(number, place);
    }
}

// The record at a place, if one stands there, is found there.
fn find_at<B>(index: &mut Index, records: &[ProcRecord<B>], at: usize)
    requires { IsFoundSomewhere index.old.places (numbers records.now) at }
    ensures places { index.new.places ≡ found_there index.old.places (numbers records.now) at }
    ensures spare { index.new.spare ≡ index.old.spare }
{
    if at < records.len() {
        index.set(records[at].id().0, at);
    }
}
