ghost use Rattle.std.specs.Prelude.{◌≡◌, ◌↔◌, ◌+◌, ◌<◌, ◌≤◌, ◌^◌, [], ◌∷◌, ◌++◌, length, Some, None, IsSome, IsFalse, IsTrue, is_some, IsOk, IfOk, IfNone, OnOk, OnErr, MatchOption, slice_index_or};
ghost use Rattle.std.specs.List.{list_any};
ghost use Rattle.sim_machine.specs.Events.{pending_event, without_first};
ghost use Rattle.sim_machine.specs.Standing.{one_if};
ghost use Rattle.sim_machine.specs.Users.{first_of_list};
ghost use Rattle.sim_machine.specs.Callbacks.{is_same_callback};
ghost use Rattle.sim_happen_model.specs.TableOf.{new_kept, first_kept, kept_at, IsKept, AreNeeded, kept_count, kept_and_spare};
ghost use Rattle.sim_happen_model.specs.Changes.{with_outcome, with_defused, with_processed, with_cancelled, with_callback, without_callback, with_holder, change_kept, change_or_forget, callbacks_freed, conditions_freed, more_events, more_callbacks};
ghost use Rattle.sim_events.specs.States.{state_of};
ghost use Rattle.sim_events.specs.declared.table.EventState.TheVariants as state;
ghost use Rattle.sim_events.specs.Stores.{IsStore, IsStored, ArePlaced, ForgetsSlot, AddsSlot};
ghost use Rattle.sim_callbacks.specs.declared.chain.Chain.{Chain};
ghost use Rattle.sim_index.specs.IndexOf.{place_of_number};
ghost use Rattle.slab.specs.Slab.{HasRoomFor};

mod conditions;
mod holding;

use crate::slot::Slot;
use crate::store::Store;
use sim_callbacks::{Chain, Nodes};
use sim_index::Index;
use sim_types::{Callback, EventId, EventKind, Outcome};
use slab::Slab;
use std::alloc::{AllocError, Global};
use std::marker::Model;

/// How far an event has come.
#[derive(Clone, Copy, Debug, PartialEq, Eq)]
pub enum EventState {
    /// It has no outcome.
    Pending,
    /// It has an outcome, and is not processed.
    Triggered,
    /// Its callbacks are called, or were.
    Processed,
}

/// The event has its outcome already.
#[derive(Clone, Copy, Debug)]
pub struct AlreadySet;

/// The events that are kept, by their numbers, and the callbacks that are left to call of the event that is being
/// processed.
///
/// Events are numbered from 0 as they are made. One is kept until it is processed or cancelled, and for as long as it
/// has a holder. When it goes, its callbacks go with it, and its room is given again; its number is not.
#[derive(Drop)]
pub struct Table {
    index: Index,
    store: Store,
    left: Chain,
}

impl Model for Table {
    ghost use Rattle.sim_happen_model.specs.TableOf.{TableOf};

    ghost Value = { TableOf };

    ghost use Rattle.sim_events.specs.Stores.{table_of, IsSoundTable};

    ghost view = { λ a. table_of a.index a.store a.left };

    ghost invariant = { λ a. IsSoundTable a.index.places a.store a.left };
}

// The key of the slot of an event.
fn key_of(index: &Index, event: EventId) -> usize
    requires { IsSome (place_of_number event.0 index.now.places) }
    ensures { place_of_number event.0 index.now.places ≡ Some result }
{
    match index.get(event.0) {
        Some(key) => key,
        None => unreachable!(),
    }
}

// A slot more, for the event of the next number.
#[inline(always)]
fn add(index: &mut Index, slots: &mut Slab<Slot>, slot: Slot) -> EventId
    requires room { HasRoomFor slots.old 1 }
    requires spare { 0 < index.old.spare }
    requires number { length index.old.places < 2 ^ 62 }
    ensures id { result.0 ≡ length index.old.places }
    ensures adds { AddsSlot index.old slots.old slot index.new slots.new }
{
    let number = index.next();
    let _known = slots.capacity();
    let key = slots.insert_reserved(slot);
    index.insert(number, key);
    EventId(number)
}

// An event goes where it is not to be kept any more, with its callbacks and what it has as a condition.
#[inline(always)]
fn forget_unneeded(index: &mut Index, store: &mut Store, event: EventId, key: usize)
    requires store { IsStore store.old }
    requires placed { ArePlaced index.old.places store.old.slots }
    requires key { place_of_number event.0 index.old.places ≡ Some key }
    ensures { (left : Chain) → IsStored store.old left
        → ForgetsSlot event index.old store.old index.new store.new left }
{
    if store.slots[key].is_needed() {
        return;
    }
    index.remove(event.0);
    store.give_back(key);
}

impl Table {
    /// Event 0 alone, which is processed and ok, and has a holder for good.
    pub fn new(alloc: Global) -> Result<Table, AllocError>
        ensures events { IfOk result (λ t. t.events ≡ Some first_kept ∷ []) }
        ensures left { IfOk result (λ t. t.left ≡ []) }
    {
        let mut index = Index::new(alloc);
        let mut slots = Slab::new(alloc);
        index.reserve(1)?;
        slots.reserve(1)?;
        let mut first = Slot::new(EventKind::Plain);
        first.set_outcome(Outcome::Ok(0));
        first.processed = true;
        first.holders = 1;
        add(&mut index, &mut slots, first);
        Ok(Table {
            index,
            store: Store {
                slots,
                nodes: Nodes::new(alloc),
                parts: Slab::new(alloc),
            },
            left: Chain::new(),
        })
    }

    /// Makes room for so many more events and callbacks.
    pub fn reserve(&mut self, events: u32, callbacks: u32) -> Result<(), AllocError>
        ensures events { OnOk result (events ≤ self.new.spare.events) }
        ensures callbacks { OnOk result (callbacks ≤ self.new.spare.callbacks) }
        ensures succeeds { events ≤ self.old.spare.events
            → callbacks ≤ self.old.spare.callbacks → IsOk result }
        ensures never_less_events { self.old.spare.events ≤ self.new.spare.events }
        ensures never_less_callbacks { self.old.spare.callbacks ≤ self.new.spare.callbacks }
        ensures conditions { self.new.spare.conditions ≡ self.old.spare.conditions }
        ensures rest { self.new ≡ record self.old { spare = self.new.spare } }
    {
        self.index.reserve(events)?;
        self.store.slots.reserve(events as usize)?;
        self.store.nodes.reserve(callbacks)
    }

    /// Whether there is room for so many more events and callbacks.
    pub fn has_room(&self, events: u32, callbacks: u32) -> bool
        ensures { IsTrue result ↔ ((events ≤ self.now.spare.events)
            × (callbacks ≤ self.now.spare.callbacks)) }
    {
        let slots = &self.store.slots;
        let events = events as usize;
        events <= self.index.spare()
            && events <= slots.capacity() - slots.len()
            && callbacks as usize <= self.store.nodes.spare()
    }

    /// How many events are kept: those that are neither processed nor cancelled, and those that have a holder.
    pub fn slots(&self) -> u64
        ensures count { result ≡ kept_count self.now.events }
        ensures needed { AreNeeded self.now.events }
    {
        self.index.len() as u64
    }

    /// Whether an event is kept.
    pub fn is_kept(&self, event: EventId) -> bool
        ensures { result ≡ is_some (slice_index_or self.now.events event.0 None) }
    {
        self.index.get(event.0).is_some()
    }

    /// A pending event more, which takes the next number.
    #[inline(always)]
    pub fn make(&mut self, kind: EventKind) -> EventId
        requires spare { 0 < self.old.spare.events }
        requires number { length self.old.events < 2 ^ 62 }
        ensures id { result.0 ≡ length self.old.events }
        ensures events { self.new.events
            ≡ self.old.events ++ Some (new_kept (pending_event kind)) ∷ [] }
        ensures left { self.new.left ≡ self.old.left }
        ensures spare { more_events 1 self.new.spare ≡ self.old.spare }
    {
        add(&mut self.index, &mut self.store.slots, Slot::new(kind))
    }

    /// A triggered event more, which takes the next number: it is made and set at once.
    #[inline(always)]
    pub fn make_triggered(&mut self, kind: EventKind, outcome: Outcome) -> EventId
        requires spare { 0 < self.old.spare.events }
        requires number { length self.old.events < 2 ^ 62 }
        ensures id { result.0 ≡ length self.old.events }
        ensures events { self.new.events ≡ self.old.events
            ++ Some (with_outcome outcome (new_kept (pending_event kind))) ∷ [] }
        ensures left { self.new.left ≡ self.old.left }
        ensures spare { more_events 1 self.new.spare ≡ self.old.spare }
    {
        let mut slot = Slot::new(kind);
        slot.set_outcome(outcome);
        add(&mut self.index, &mut self.store.slots, slot)
    }

    /// How far an event has come.
    pub fn state(&self, event: EventId) -> EventState
        requires kept { IsKept self.now.events event }
        ensures { result ≡ state_of (kept_at self.now.events event).event }
    {
        let slot = &self.store.slots[key_of(&self.index, event)];
        if slot.processed {
            EventState::Processed
        } else if slot.is_pending() {
            EventState::Pending
        } else {
            EventState::Triggered
        }
    }

    /// How an event turned out. None where it is pending.
    #[inline(always)]
    pub fn outcome(&self, event: EventId) -> Option<Outcome>
        requires kept { IsKept self.now.events event }
        ensures outcome { result ≡ (kept_at self.now.events event).event.outcome }
        ensures pending { (result ≡ None)
            ↔ (state_of (kept_at self.now.events event).event ≡ state.Pending) }
    {
        self.store.slots[key_of(&self.index, event)].outcome()
    }

    /// What an event is for, and how it turned out. It is looked up once.
    #[inline(always)]
    pub fn kind_and_outcome(&self, event: EventId) -> (EventKind, Option<Outcome>)
        requires kept { IsKept self.now.events event }
        ensures kind { result.0 ≡ (kept_at self.now.events event).event.kind }
        ensures outcome { result.1 ≡ (kept_at self.now.events event).event.outcome }
    {
        let slot = &self.store.slots[key_of(&self.index, event)];
        (slot.kind, slot.outcome())
    }

    /// Whether a failure of the event ends no run.
    pub fn is_defused(&self, event: EventId) -> bool
        requires kept { IsKept self.now.events event }
        ensures { result ≡ (kept_at self.now.events event).event.defused }
    {
        self.store.slots[key_of(&self.index, event)].defused
    }

    /// Whether an event was cancelled: it was taken out of its queue.
    pub fn is_cancelled(&self, event: EventId) -> bool
        requires kept { IsKept self.now.events event }
        ensures { result ≡ (kept_at self.now.events event).event.cancelled }
    {
        self.store.slots[key_of(&self.index, event)].cancelled
    }

    /// The first of the callbacks of an event, if it has one. No other is looked at.
    pub fn first_callback(&self, event: EventId) -> Option<Callback>
        requires kept { IsKept self.now.events event }
        ensures { result ≡ first_of_list (kept_at self.now.events event).callbacks }
    {
        let slot = &self.store.slots[key_of(&self.index, event)];
        self.store.nodes.first(&slot.callbacks)
    }

    /// A pending event gets its outcome.
    pub fn set(&mut self, event: EventId, outcome: Outcome) -> Result<(), AlreadySet>
        requires kept { IsKept self.old.events event }
        ensures pending { IsOk result ↔ ((kept_at self.old.events event).event.outcome ≡ None) }
        ensures events { OnOk result
            (self.new.events ≡ change_kept event (with_outcome outcome) self.old.events) }
        ensures rest { OnOk result (self.new ≡ record self.old { events = self.new.events }) }
        ensures err { OnErr result (self.new ≡ self.old) }
    {
        let key = key_of(&self.index, event);
        if !self.store.slots[key].is_pending() {
            return Err(AlreadySet);
        }
        self.store.slots[key].set_outcome(outcome);
        Ok(())
    }

    /// A failure of the event no longer ends the run.
    pub fn defuse(&mut self, event: EventId)
        requires kept { IsKept self.old.events event }
        ensures events { self.new.events ≡ change_kept event with_defused self.old.events }
        ensures rest { self.new ≡ record self.old { events = self.new.events } }
    {
        let key = key_of(&self.index, event);
        self.store.slots[key].defused = true;
    }

    /// Appends a callback to those of an event that is not processed.
    #[inline(always)]
    pub fn register(&mut self, event: EventId, callback: Callback)
        requires kept { IsKept self.old.events event }
        requires unprocessed { IsFalse (kept_at self.old.events event).event.processed }
        requires spare { 0 < self.old.spare.callbacks }
        ensures events { self.new.events
            ≡ change_kept event (with_callback callback) self.old.events }
        ensures left { self.new.left ≡ self.old.left }
        ensures spare { more_callbacks 1 self.new.spare ≡ self.old.spare }
    {
        let key = key_of(&self.index, event);
        self.store
            .nodes
            .append(&mut self.store.slots[key].callbacks, callback);
    }

    /// Appends a callback, as by `register`, of one that is not processed, and a holder with it. It is looked up once.
    #[inline(always)]
    pub fn register_held(&mut self, event: EventId, callback: Callback)
        requires kept { IsKept self.old.events event }
        requires unprocessed { IsFalse (kept_at self.old.events event).event.processed }
        requires few { (kept_at self.old.events event).holders < 2 ^ 61 }
        requires spare { 0 < self.old.spare.callbacks }
        ensures events { self.new.events ≡ change_kept event
            (λ k. with_callback callback (with_holder k)) self.old.events }
        ensures left { self.new.left ≡ self.old.left }
        ensures spare { more_callbacks 1 self.new.spare ≡ self.old.spare }
    {
        let key = key_of(&self.index, event);
        let awaited = &mut self.store.slots[key];
        awaited.holders += 1;
        self.store.nodes.append(&mut awaited.callbacks, callback);
    }

    /// Takes out the first callback of an event that is the same as this one. False where there is none.
    pub fn unregister(&mut self, event: EventId, callback: Callback) -> bool
        requires kept { IsKept self.old.events event }
        ensures found { result
            ≡ list_any (is_same_callback callback) (kept_at self.old.events event).callbacks }
        ensures events { self.new.events
            ≡ change_kept event (without_callback callback) self.old.events }
        ensures left { self.new.left ≡ self.old.left }
        ensures spare { self.new.spare ≡ more_callbacks (one_if result) self.old.spare }
        ensures absent { IsFalse result → self.new ≡ self.old }
    {
        let key = key_of(&self.index, event);
        self.store
            .nodes
            .take_out(&mut self.store.slots[key].callbacks, callback)
    }

    /// A triggered event is processed: its callbacks are now those that are left to call. It goes where nobody holds
    /// it.
    pub fn begin(&mut self, event: EventId)
        requires kept { IsKept self.old.events event }
        requires triggered { IsSome (kept_at self.old.events event).event.outcome }
        requires unprocessed { IsFalse (kept_at self.old.events event).event.processed }
        requires called { self.old.left ≡ [] }
        ensures events { self.new.events ≡ change_or_forget event with_processed self.old.events }
        ensures left { self.new.left ≡ (kept_at self.old.events event).callbacks }
        ensures kept_and_spare { kept_and_spare self.new ≡ kept_and_spare self.old }
        ensures callbacks { self.new.spare.callbacks ≡ self.old.spare.callbacks }
        ensures conditions { self.new.spare.conditions
            ≡ self.old.spare.conditions
            + conditions_freed (with_processed (kept_at self.old.events event)) }
    {
        // This event is looked up again and again until it is settled.
        let key = match self.index.seek(event.0) {
            Some(key) => key,
            None => unreachable!(),
        };
        let slot = &mut self.store.slots[key];
        slot.processed = true;
        self.left = slot.callbacks.take();
        forget_unneeded(&mut self.index, &mut self.store, event, key);
    }

    /// A triggered event is processed, as by `begin`, and has a holder more, so it stays. It is looked up once. The answer is
    /// its kind and how it turned out.
    pub fn begin_held(&mut self, event: EventId) -> (EventKind, Option<Outcome>)
        requires kept { IsKept self.old.events event }
        requires triggered { IsSome (kept_at self.old.events event).event.outcome }
        requires few { (kept_at self.old.events event).holders < 2 ^ 61 }
        requires called { self.old.left ≡ [] }
        ensures kind { result.0 ≡ (kept_at self.old.events event).event.kind }
        ensures outcome { result.1 ≡ (kept_at self.old.events event).event.outcome }
        ensures events { self.new.events ≡ change_kept event
            (λ k. with_processed (with_holder k)) self.old.events }
        ensures left { self.new.left ≡ (kept_at self.old.events event).callbacks }
        ensures spare { self.new.spare ≡ self.old.spare }
    {
        let key = match self.index.seek(event.0) {
            Some(key) => key,
            None => unreachable!(),
        };
        let slot = &mut self.store.slots[key];
        slot.processed = true;
        slot.holders += 1;
        let callbacks = slot.callbacks.take();
        self.left = callbacks;
        (slot.kind, slot.outcome())
    }

    /// The first of the callbacks that are left to call, if one is. No other is looked at.
    pub fn first_left(&self) -> Option<Callback>
        ensures { result ≡ first_of_list self.now.left }
    {
        self.store.nodes.first(&self.left)
    }

    /// Takes the first of the callbacks that are left to call.
    pub fn next(&mut self) -> Option<Callback>
        ensures left { MatchOption result
            (self.old.left ≡ []) (λ c. self.old.left ≡ c ∷ self.new.left) }
        ensures none { IfNone result (self.new ≡ self.old) }
        ensures events { self.new.events ≡ self.old.events }
        ensures spare { self.new.spare ≡ more_callbacks (one_if (is_some result)) self.old.spare }
    {
        self.store.nodes.take_first(&mut self.left)
    }

    /// Takes out the first of the callbacks that are left to call that is the same as this one. False where there is
    /// none.
    pub fn strip(&mut self, callback: Callback) -> bool
        ensures found { result ≡ list_any (is_same_callback callback) self.old.left }
        ensures left { self.new.left ≡ without_first (is_same_callback callback) self.old.left }
        ensures events { self.new.events ≡ self.old.events }
        ensures spare { self.new.spare ≡ more_callbacks (one_if result) self.old.spare }
        ensures absent { IsFalse result → self.new ≡ self.old }
    {
        self.store.nodes.take_out(&mut self.left, callback)
    }

    /// A pending event is cancelled: it was taken out of its queue. It goes where nobody holds it.
    pub fn shut(&mut self, event: EventId)
        requires kept { IsKept self.old.events event }
        requires pending { (kept_at self.old.events event).event.outcome ≡ None }
        ensures events { self.new.events ≡ change_or_forget event with_cancelled self.old.events }
        ensures left { self.new.left ≡ self.old.left }
        ensures kept_and_spare { kept_and_spare self.new ≡ kept_and_spare self.old }
        ensures callbacks { self.new.spare.callbacks
            ≡ self.old.spare.callbacks
            + callbacks_freed (with_cancelled (kept_at self.old.events event)) }
        ensures conditions { self.new.spare.conditions
            ≡ self.old.spare.conditions
            + conditions_freed (with_cancelled (kept_at self.old.events event)) }
    {
        let key = key_of(&self.index, event);
        self.store.slots[key].cancelled = true;
        forget_unneeded(&mut self.index, &mut self.store, event, key);
    }
}
