ghost use Rattle.std.specs.Prelude.{◌≡◌, ◌↔◌, ◌+◌, ◌<◌, ◌≤◌, ◌^◌, pos, ◌≤ℤ◌, ◌<ℤ◌, ◌+ℤ◌, [], ◌∷◌, length, Some, None, IsSome, IsFalse, IsTrue, is_some, is_none, IfOk, IsOk, IsErr, IfNone, IfSome, OnOk, OnErr, MatchOption, option_map, if◌then◌else◌};
ghost use Rattle.std.specs.List.{list_any};
ghost use Rattle.sim_types.specs.declared.event.Entry.{Entry};
ghost use Rattle.sim_machine.specs.Conditions as conditions;
ghost use Rattle.sim_machine.specs.Events as events;
ghost use Rattle.sim_machine.specs.Triggering as triggering;
ghost use Rattle.sim_machine.specs.Runs.{first_calendar};
ghost use Rattle.sim_machine.specs.Standing.{one_if};
ghost use Rattle.sim_machine.specs.Steps.{outcome_or_zero};
ghost use Rattle.std.specs.List.Sorted.{IsPermutation};
ghost use Rattle.sim_happen_model.specs.Agendas.{PopsFirst};
ghost use Rattle.sim_machine.specs.Callbacks.{is_same_callback};
ghost use Rattle.sim_happen_model.specs.TableOf.{IsKept, kept_at, kept_count};
ghost use Rattle.sim_happen_model.specs.Changes.{more_events, more_callbacks, change_kept, change_or_forget, with_processed, with_holder, without_holder};
ghost use Rattle.sim_events.specs.States.{is_unhandled};
ghost use Rattle.sim_happen_model.specs.HappenOf.{IsOpen, AreHeldByFew, held, unheld_event, one_more, with_one_more, gone_if_unheld, KeepsRoom};
ghost use Rattle.sim_happen_model.specs.Holders.{HasOwnHolder, SameMemberships};
ghost use Rattle.sim_happen.specs.EntryParts.{entry_of};
ghost use Rattle.sim_happen_model.specs.Shows.{Shows, Turns, Follows, PopsEntry};

mod kept;

use crate::fault::AlreadyTriggered;
use sim_agenda::Agenda;
use sim_events::Table;
use sim_types::{Callback, Count, Entry, EventId, EventKind, Key, LAST_TIME, Line, Outcome};
use std::alloc::{AllocError, Global};
use std::marker::Model;

/// Time and what happens in it: the events that are kept, their callbacks and conditions, and the agenda. Times and delays
/// are whole numbers, and their unit is the model's own.
///
/// What contracts say of a call is what the machine does to each calendar that was shown before it. A calendar is shown
/// where it says of the events that are kept just what is kept of them. Some calendar always is (`shows_seen` of
/// `sim_happen_law`), and all that are shown agree on the time, the entries and what is kept (`seen_alike`), so a clause
/// `follows` or `made` says exactly what is kept after the call.
#[derive(Drop)]
pub struct Happen {
    time: i64,
    scheduled: u64,
    agenda: Agenda,
    table: Table,
}

impl Model for Happen {
    ghost use Rattle.sim_happen_model.specs.HappenOf.{HappenOf};
    ghost use Rattle.sim_happen_model.specs.Sound.{happen_of, IsSound};

    ghost Value = { HappenOf };

    ghost view = { λ a. happen_of a.time a.scheduled a.agenda a.table };

    ghost invariant = { λ a.
        IsSound (happen_of a.time a.scheduled a.agenda a.table) a.agenda.spare };
}

// An entry more.
#[inline(always)]
fn push(agenda: &mut Agenda, entry: Entry)
    requires { 1 ≤ agenda.old.spare }
    ensures entries { IsPermutation (entry ∷ agenda.old.entries) agenda.new.entries }
    ensures spare { agenda.new.spare + 1 ≡ agenda.old.spare }
{
    let (time, priority, number) = entry.key.parts();
    push_parts(agenda, time, priority, number, entry.event);
}

// An entry more, of these parts. They are handed over one by one, here and where an entry is taken out, so that the bytes
// between the fields of an entry, which say nothing, are not copied with it.
fn push_parts(agenda: &mut Agenda, time: i64, priority: u8, number: u64, event: EventId)
    requires { 1 ≤ agenda.old.spare }
    ensures entries { IsPermutation
        (entry_of (time, priority, number, event) ∷ agenda.old.entries) agenda.new.entries }
    ensures spare { agenda.new.spare + 1 ≡ agenda.old.spare }
{
    let key = Key::new(time, priority, number);
    agenda.push(Entry { key, event }, &mut Count::new());
}

// The entry that is due is taken out.
#[inline(always)]
fn pop(agenda: &mut Agenda) -> Option<Entry>
    ensures due { PopsFirst result agenda.old agenda.new }
    ensures spare { IfSome result (λ x. agenda.new.spare ≡ agenda.old.spare + 1) }
{
    let (time, priority, number, event) = pop_parts(agenda)?;
    let key = Key::new(time, priority, number);
    Some(Entry { key, event })
}

// The entry that is due is taken out: its parts.
fn pop_parts(agenda: &mut Agenda) -> Option<(i64, u8, u64, EventId)>
    ensures due { PopsFirst (option_map entry_of result) agenda.old agenda.new }
    ensures spare { IfSome result (λ x. agenda.new.spare ≡ agenda.old.spare + 1) }
{
    let entry = agenda.pop(&mut Count::new())?;
    let (time, priority, number) = entry.key.parts();
    Some((time, priority, number, entry.event))
}

// An event that is triggered is processed and has a holder more, and its callbacks are those that are left to call. The
// answer is its kind and its outcome.
fn begin(table: &mut Table, event: EventId) -> (EventKind, Outcome)
    requires kept { IsKept table.old.events event }
    requires triggered { IsSome (kept_at table.old.events event).event.outcome }
    requires unprocessed { IsFalse (kept_at table.old.events event).event.processed }
    requires few { (kept_at table.old.events event).holders < 2 ^ 60 }
    requires called { table.old.left ≡ [] }
    ensures kind { result.0 ≡ (kept_at table.old.events event).event.kind }
    ensures outcome { result.1 ≡ outcome_or_zero (kept_at table.old.events event).event.outcome }
    ensures events { table.new.events ≡ change_kept event
        (λ k. with_processed (with_holder k)) table.old.events }
    ensures left { table.new.left ≡ (kept_at table.old.events event).callbacks }
    ensures spare { table.new.spare ≡ table.old.spare }
{
    let (kind, outcome) = table.begin_held(event);
    (kind, outcome.unwrap_or(Outcome::Ok(0)))
}

impl Happen {
    /// Time 0, at which nothing is scheduled, and event 0 alone, which is processed and has a holder for good.
    pub fn new(alloc: Global) -> Result<Happen, AllocError>
        ensures calendar { IfOk result (λ h. Shows h (first_calendar 0)) }
        ensures held { IfOk result (λ h. held h ≡ Some 1 ∷ []) }
        ensures left { IfOk result (λ h. h.left ≡ []) }
    {
        let table = Table::new(alloc)?;
        let mut agenda = Agenda::new(alloc);
        agenda.reserve(1)?;
        Ok(Happen {
            time: 0,
            scheduled: 0,
            agenda,
            table,
        })
    }

    // How many of the events that are kept are yet to be scheduled. Those that are have their places in the agenda.
    fn unscheduled(&self) -> usize
        ensures count { result + length self.now.agenda ≡ kept_count self.now.events }
        ensures few { result ≤ 2 ^ 62 }
    {
        (self.table.slots() - self.agenda.len()) as usize
    }

    /// Whether there is room for so many more events, all of which may be conditions, with their places in the agenda, and
    /// for so many more callbacks. Where there is, `reserve` is sure to succeed.
    pub fn has_room(&self, events: u32, callbacks: u32) -> bool
        ensures { IsTrue result ↔ ((events ≤ self.now.spare.events)
            × (callbacks ≤ self.now.spare.callbacks)
            × (events ≤ self.now.spare.conditions)) }
    {
        self.table.slots() as usize + events as usize <= self.agenda.room()
            && self.table.has_room(events, callbacks)
            && self.table.has_room_for_conditions(events)
    }

    /// Makes room for so many more events, none of which is a condition, with their places in the agenda, and for so many
    /// more callbacks.
    pub fn reserve_plain(&mut self, events: u32, callbacks: u32) -> Result<(), AllocError>
        ensures events { OnOk result (events ≤ self.new.spare.events) }
        ensures callbacks { OnOk result (callbacks ≤ self.new.spare.callbacks) }
        ensures ready { events ≤ self.old.spare.events
            → callbacks ≤ self.old.spare.callbacks → IsOk result }
        ensures never_less_events { self.old.spare.events ≤ self.new.spare.events }
        ensures never_less_callbacks { self.old.spare.callbacks ≤ self.new.spare.callbacks }
        ensures conditions { self.new.spare.conditions ≡ self.old.spare.conditions }
        ensures rest { self.new ≡ record self.old { spare = self.new.spare } }
    {
        let unscheduled = self.unscheduled();
        self.agenda.reserve(unscheduled + events as usize)?;
        self.table.reserve(events, callbacks)
    }

    /// Makes room for so many more events, all of which may be conditions, with their places in the agenda, and for so many
    /// more callbacks.
    pub fn reserve(&mut self, events: u32, callbacks: u32) -> Result<(), AllocError>
        ensures events { OnOk result (events ≤ self.new.spare.events) }
        ensures callbacks { OnOk result (callbacks ≤ self.new.spare.callbacks) }
        ensures conditions { OnOk result (events ≤ self.new.spare.conditions) }
        ensures ready { events ≤ self.old.spare.events → events ≤ self.old.spare.conditions
            → callbacks ≤ self.old.spare.callbacks → IsOk result }
        ensures never_less_events { self.old.spare.events ≤ self.new.spare.events }
        ensures never_less_callbacks { self.old.spare.callbacks ≤ self.new.spare.callbacks }
        ensures never_less_conditions { self.old.spare.conditions ≤ self.new.spare.conditions }
        ensures rest { self.new ≡ record self.old { spare = self.new.spare } }
    {
        self.reserve_plain(events, callbacks)?;
        self.table.reserve_conditions(events)
    }

    /// The time, which is 0 at the start and then that of the event that was popped last.
    pub fn now(&self) -> i64
        ensures { result ≡ self.now.time }
    {
        self.time
    }

    /// Whether nothing is scheduled.
    pub fn is_empty(&self) -> bool
        ensures { IsTrue result ↔ (self.now.agenda ≡ []) }
    {
        self.agenda.is_empty()
    }

    /// The table, for reading.
    pub fn table(&self) -> &Table
        ensures events { result.now.events ≡ self.now.events }
        ensures left { result.now.left ≡ self.now.left }
    {
        &self.table
    }

    /// A pending event more, which takes the next number. A condition is made with its members.
    #[inline(always)]
    pub fn make(&mut self, kind: EventKind) -> EventId
        requires spare { 0 < self.old.spare.events }
        requires number { length self.old.events < 2 ^ 62 }
        ensures id { result.0 ≡ length self.old.events }
        ensures made { Turns (triggering.make kind) unheld_event self.old self.new }
        ensures spare { more_events 1 self.new.spare ≡ self.old.spare }
    {
        let _known = &self.agenda;
        self.table.make(kind)
    }

    /// Appends a callback to those of an event that is not processed.
    #[inline(always)]
    pub fn register(&mut self, event: EventId, callback: Callback)
        requires kept { IsKept self.old.events event }
        requires unprocessed { IsFalse (kept_at self.old.events event).event.processed }
        requires spare { 0 < self.old.spare.callbacks }
        ensures follows { Follows (events.register event callback) self.old self.new }
        ensures spare { more_callbacks 1 self.new.spare ≡ self.old.spare }
    {
        self.table.register(event, callback);
    }

    /// The event is held once more, and then a callback is appended, as by `register`. The event is looked up once.
    #[inline(always)]
    pub fn register_held(&mut self, event: EventId, callback: Callback)
        requires kept { IsKept self.old.events event }
        requires unprocessed { IsFalse (kept_at self.old.events event).event.processed }
        requires few { (kept_at self.old.events event).holders < 2 ^ 60 }
        requires spare { 0 < self.old.spare.callbacks }
        ensures follows { Follows (events.register event callback)
            (with_one_more event self.old) self.new }
        ensures spare { more_callbacks 1 self.new.spare ≡ self.old.spare }
    {
        self.table.register_held(event, callback);
    }

    /// Takes out the first callback of an event that is the same as this one. False where there is none.
    pub fn unregister(&mut self, event: EventId, callback: Callback) -> bool
        requires kept { IsKept self.old.events event }
        ensures found { result
            ≡ list_any (is_same_callback callback) (kept_at self.old.events event).callbacks }
        ensures follows { Follows (events.unregister event (is_same_callback callback))
            self.old self.new }
        ensures spare { self.new.spare ≡ more_callbacks (one_if result) self.old.spare }
    {
        self.table.unregister(event, callback)
    }

    /// A failure of the event no longer ends the run.
    pub fn defuse(&mut self, event: EventId)
        requires kept { IsKept self.old.events event }
        ensures follows { Follows (events.defuse event) self.old self.new }
        ensures spare { self.new.spare ≡ self.old.spare }
    {
        self.table.defuse(event);
    }

    /// Takes the first of the callbacks that are left to call.
    pub fn next(&mut self) -> Option<Callback>
        ensures left { MatchOption result
            (self.old.left ≡ []) (λ c. self.old.left ≡ c ∷ self.new.left) }
        ensures none { IfNone result (self.new ≡ self.old) }
        ensures spare { self.new.spare ≡ more_callbacks (one_if (is_some result)) self.old.spare }
        ensures rest { self.new
            ≡ record self.old { left = self.new.left; spare = self.new.spare } }
    {
        self.table.next()
    }

    /// Takes out the first of the callbacks that are left to call that is the same as this one. False where there is
    /// none.
    pub fn strip(&mut self, callback: Callback) -> bool
        ensures found { result ≡ list_any (is_same_callback callback) self.old.left }
        ensures left { self.new.left
            ≡ events.without_first (is_same_callback callback) self.old.left }
        ensures spare { self.new.spare ≡ more_callbacks (one_if result) self.old.spare }
        ensures rest { self.new
            ≡ record self.old { left = self.new.left; spare = self.new.spare } }
    {
        self.table.strip(callback)
    }

    /// One holder more: the event is kept until that holder is given back.
    pub fn hold(&mut self, event: EventId)
        requires kept { IsKept self.old.events event }
        requires few { (kept_at self.old.events event).holders < 2 ^ 60 }
        ensures held { Turns (λ c. c) (one_more event) self.old self.new }
        ensures spare { self.new.spare ≡ self.old.spare }
    {
        self.add_holder(event);
    }

    /// The same, and what is kept then.
    pub(crate) fn add_holder(&mut self, event: EventId)
        requires kept { IsKept self.old.events event }
        requires few { (kept_at self.old.events event).holders < 2 ^ 61 }
        ensures held { Turns (λ c. c) (one_more event) self.old self.new }
        ensures events { self.new.events ≡ change_kept event with_holder self.old.events }
        ensures spare { self.new.spare ≡ self.old.spare }
    {
        self.table.hold(event);
    }

    /// A pending event is cancelled, since it was taken out of its queue at a resource. It goes where nobody holds it.
    pub fn shut(&mut self, event: EventId)
        requires is_open { IsOpen self.old event }
        ensures cancelled { Turns (events.cancel_event event) (gone_if_unheld event)
            self.old self.new }
        ensures room { KeepsRoom self.old self.new }
    {
        self.table.shut(event);
    }

    /// One holder fewer, beside those that are conditions. The event goes where it is processed or cancelled and nobody else
    /// holds it.
    pub(crate) fn release(&mut self, event: EventId)
        requires held { HasOwnHolder self.old.events event }
        ensures events { self.new.events ≡ change_or_forget event without_holder self.old.events }
        ensures rest { self.new
            ≡ record self.old { events = self.new.events; spare = self.new.spare } }
        ensures room { KeepsRoom self.old self.new }
    {
        self.table.unhold(event);
    }

    /// One holder fewer of an event that is no condition, as by `release`. The answer is whether it failed and nobody defused
    /// it. None where it is a condition: its holder stays.
    #[inline(always)]
    pub(crate) fn release_plain(&mut self, event: EventId) -> Option<bool>
        requires held { HasOwnHolder self.old.events event }
        ensures plain { is_some result
            ≡ is_none (kept_at self.old.events event).event.condition }
        ensures condition { IfNone result (self.new ≡ self.old) }
        ensures unhandled { IfSome result (λ unhandled.
            unhandled ≡ is_unhandled (kept_at self.old.events event).event) }
        ensures events { IfSome result (λ _.
            self.new.events ≡ change_or_forget event without_holder self.old.events) }
        ensures rest { self.new
            ≡ record self.old { events = self.new.events; spare = self.new.spare } }
        ensures room { KeepsRoom self.old self.new }
    {
        self.table.unhold_plain(event)
    }

    /// Whether now and a delay pass the last time.
    pub(crate) fn is_too_late(&self, delay: i64) -> bool
        ensures { IsTrue result ↔ pos (2 ^ 62) <ℤ (self.now.time +ℤ delay) }
    {
        delay > LAST_TIME - self.time
    }

    // The key of an entry after a delay.
    fn key_after(&self, priority: u8, delay: i64) -> Key
        requires not_past { pos 0 ≤ℤ delay }
        requires high { (self.now.time +ℤ delay) ≤ℤ pos (2 ^ 62) }
        ensures { result ≡ record {
          time = self.now.time +ℤ delay;
          priority = priority;
          number = self.now.scheduled;
        } }
    {
        Key::new(self.time + delay, priority, self.scheduled)
    }

    /// An event of this kind is made that has its outcome, and an entry after a delay.
    #[inline(always)]
    pub(crate) fn make_scheduled(
        &mut self,
        kind: EventKind,
        outcome: Outcome,
        priority: u8,
        delay: i64,
    ) -> EventId
        requires spare { 0 < self.old.spare.events }
        requires number { length self.old.events < 2 ^ 62 }
        requires not_past { pos 0 ≤ℤ delay }
        requires high { (self.old.time +ℤ delay) ≤ℤ pos (2 ^ 62) }
        ensures id { result.0 ≡ length self.old.events }
        ensures made { Turns (λ c. triggering.schedule (events.next_event c) outcome
            priority delay (triggering.make kind c)) unheld_event self.old self.new }
        ensures spare { more_events 1 self.new.spare ≡ self.old.spare }
    {
        let key = self.key_after(priority, delay);
        let event = self.table.make_triggered(kind, outcome);
        self.scheduled += 1;
        push(&mut self.agenda, Entry { key, event });
        event
    }

    /// A pending event gets its outcome, and an entry after a delay.
    pub(crate) fn put(
        &mut self,
        event: EventId,
        outcome: Outcome,
        priority: u8,
        delay: i64,
    ) -> Result<(), AlreadyTriggered>
        requires kept { IsKept self.old.events event }
        requires not_cancelled { IsFalse (kept_at self.old.events event).event.cancelled }
        requires not_past { pos 0 ≤ℤ delay }
        requires high { (self.old.time +ℤ delay) ≤ℤ pos (2 ^ 62) }
        ensures refused { IsErr result
            ↔ IsSome (kept_at self.old.events event).event.outcome }
        ensures ok { OnOk result (Follows (triggering.schedule event outcome priority delay)
            self.old self.new) }
        ensures err { OnErr result (self.new ≡ self.old) }
        ensures members { SameMemberships self.old.events self.new.events }
        ensures spare { self.new.spare ≡ self.old.spare }
    {
        let key = self.key_after(priority, delay);
        match self.table.set(event, outcome) {
            Err(_) => Err(AlreadyTriggered),
            Ok(()) => {
                self.scheduled += 1;
                push(&mut self.agenda, Entry { key, event });
                Ok(())
            }
        }
    }

    /// A pending event gets its outcome, and an entry at now.
    pub(crate) fn put_now(
        &mut self,
        event: EventId,
        outcome: Outcome,
        priority: u8,
    ) -> Result<(), AlreadyTriggered>
        requires kept { IsKept self.old.events event }
        requires not_cancelled { IsFalse (kept_at self.old.events event).event.cancelled }
        ensures refused { IsErr result
            ↔ IsSome (kept_at self.old.events event).event.outcome }
        ensures ok { OnOk result (Follows (triggering.schedule event outcome priority (pos 0))
            self.old self.new) }
        ensures err { OnErr result (self.new ≡ self.old) }
        ensures members { SameMemberships self.old.events self.new.events }
        ensures spare { self.new.spare ≡ self.old.spare }
    {
        let _known = &self.time;
        self.put(event, outcome, priority, 0)
    }

    /// Pops the entry that is due: it is its time, its event is processed and has a holder more, and its callbacks are
    /// those that are left to call. The answer is the line of the trace that tells it. None where nothing is scheduled.
    #[inline(always)]
    pub fn step(&mut self) -> Option<Line>
        requires called { self.old.left ≡ [] }
        requires few { AreHeldByFew self.old.events }
        ensures steps { MatchOption result
            ((self.old.agenda ≡ []) × (self.new ≡ self.old))
            (λ line. (x : Entry) × PopsEntry x line self.old self.new) }
        ensures spare { self.new.spare ≡ self.old.spare }
    {
        match pop(&mut self.agenda) {
            None => None,
            Some(entry) => {
                let event = entry.event;
                let (kind, outcome) = begin(&mut self.table, event);
                let (time, priority, number) = entry.key.parts();
                self.time = time;
                Some(Line::Event {
                    time,
                    priority,
                    number,
                    kind,
                    event,
                    outcome,
                })
            }
        }
    }
}
