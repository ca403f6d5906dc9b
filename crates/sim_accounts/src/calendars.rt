//! What no change of a calendar touches: members stay, what is closed stays closed, and but for registrations and pops as many
//! callbacks pass outcomes on.
ghost use Rattle.std.specs.Prelude.{◌≡◌, [], false, Bool, ℕ, ℤ, List, Option};
ghost use Rattle.sim_types.specs.declared.event.Callback.{Callback};
ghost use Rattle.sim_types.specs.declared.event.Callback.TheVariants as callback;
ghost use Rattle.sim_types.specs.declared.event.Entry.{Entry};
ghost use Rattle.sim_types.specs.declared.event.EventId.{EventId};
ghost use Rattle.sim_types.specs.declared.event.EventKind.{EventKind};
ghost use Rattle.sim_types.specs.declared.event.Outcome.{Outcome};
ghost use Rattle.sim_types.specs.declared.event.ProcId.{ProcId};
ghost use Rattle.sim_types.specs.declared.event.Throw.{Throw};
ghost use Rattle.sim_types.specs.declared.setup.Resource.{Resource};
ghost use Rattle.sim_types.specs.declared.setup.Until.{Until};
ghost use Rattle.sim_machine.specs.State.{AllOrAny, Calendar, Facilities};
ghost use Rattle.sim_machine.specs.Agenda.{popped};
ghost use Rattle.sim_machine.specs.Conditions.{build, check, make_condition, members_of};
ghost use Rattle.sim_machine.specs.Effect.{pass_on};
ghost use Rattle.sim_machine.specs.Events.{cancel_event, defuse, next_event, register, unregister};
ghost use Rattle.sim_machine.specs.Processes.{defuse_failed, make_events_of_process};
ghost use Rattle.sim_machine.specs.Requests.{cancel, leave, make_get, make_put, make_release, make_request};
ghost use Rattle.sim_machine.specs.Runs.{set_stop};
ghost use Rattle.sim_machine.specs.Triggering.{make, make_interruption, make_timeout, schedule};
ghost use Rattle.sim_machine.specs.Trying.{try_get, try_put};
ghost use Rattle.sim_happen_model.specs.Naming.{triggered_by};
ghost use Rattle.sim_happen_model.specs.HolderChanges.{ComesAfter, ComesPlainly, ComesQuietly, MakesNoCondition};

/// A calendar comes after itself, and after all that the one before it comes after.
pub fn later_calendars()
    ensures itself { (c : Calendar) → ComesPlainly c c }
    ensures after { (c : Calendar) (d : Calendar) (e : Calendar) → ComesAfter c d → ComesAfter d e →
        ComesAfter c e }
    ensures quietly { (c : Calendar) (d : Calendar) (e : Calendar) → ComesQuietly c d →
        ComesQuietly d e → ComesQuietly c e }
    ensures plainly { (c : Calendar) (d : Calendar) (e : Calendar) → ComesPlainly c d →
        ComesPlainly d e → ComesPlainly c e }
{}

/// The calendar in which an event is made, gets its outcome, is defused, or is cancelled comes plainly after the one before.
pub fn changed_events()
    ensures made { (k : EventKind) (c : Calendar) → ComesPlainly c (make k c) }
    ensures scheduled { (e : EventId) (x : Outcome) (priority : ℕ) (delay : ℤ) (c : Calendar) →
        ComesPlainly c (schedule e x priority delay c) }
    ensures passed { (x : Option Outcome) (e : EventId) (c : Calendar) →
        ComesPlainly c (pass_on x e c) }
    ensures defused { (e : EventId) (c : Calendar) → ComesPlainly c (defuse e c) }
    ensures defused_failed { (e : EventId) (c : Calendar) → ComesPlainly c (defuse_failed e c) }
    ensures cancelled { (e : EventId) (c : Calendar) → ComesPlainly c (cancel_event e c) }
    ensures timeout { (delay : ℤ) (value : ℤ) (c : Calendar) →
        ComesPlainly c (make_timeout delay value c) }
    ensures interruption { (p : ProcId) (t : Throw) (c : Calendar) →
        ComesPlainly c (make_interruption p t c) }
    ensures process { (c : Calendar) → ComesPlainly c (make_events_of_process c) }
    ensures stop { (u : Until) (c : Calendar) → ComesPlainly c (set_stop u c) }
{}

/// So does the one in which a callback is registered or taken out, but for one that passes an outcome on, since that holds an
/// event.
pub fn changed_callbacks()
    ensures registered { (e : EventId) (x : Callback) (c : Calendar) →
        triggered_by x ≡ [] → ComesPlainly c (register e x c) }
    ensures unregistered { (e : EventId) (test : Callback → Bool) (c : Calendar) →
        ((y : EventId) → test (callback.Trigger y) ≡ false) → ComesPlainly c (unregister e test c) }
    ensures any_after { (e : EventId) (x : Callback) (c : Calendar) →
        ComesAfter c (register e x c) }
    ensures any_none { (e : EventId) (x : Callback) (c : Calendar) →
        MakesNoCondition c (register e x c) }
{}

/// A condition that is made has these members for good; checking and building it, and the pop of an entry, change no members.
pub fn changed_conditions()
    ensures made { (sort : AllOrAny) (ms : List EventId) (c : Calendar) →
        ComesQuietly c (make_condition sort ms c) }
    ensures members { (sort : AllOrAny) (ms : List EventId) (c : Calendar) →
        members_of (make_condition sort ms c) (next_event c) ≡ ms }
    ensures checked { (cond : EventId) (member : EventId) (c : Calendar) →
        ComesPlainly c (check cond member c) }
    ensures built { (cond : EventId) (c : Calendar) → ComesPlainly c (build cond c) }
    ensures popped_after { (x : Entry) (c : Calendar) → ComesAfter c (popped x c) }
    ensures popped_none { (x : Entry) (c : Calendar) → MakesNoCondition c (popped x c) }
{}

/// Requests, puts and gets that are made, tried, cancelled, released and left change no members, and open nothing again.
pub fn changed_facilities()
    ensures requested { (rs : List Resource) (res : ℕ) (p : ProcId) (priority : ℤ) (preempts : Bool)
        (f : Facilities) →
        ComesPlainly f.calendar (make_request rs res p priority preempts f).calendar }
    ensures put { (rs : List Resource) (res : ℕ) (amount : ℤ) (priority : ℤ) (f : Facilities) →
        ComesPlainly f.calendar (make_put rs res amount priority f).calendar }
    ensures got { (rs : List Resource) (res : ℕ) (least : ℤ) (greatest : ℤ) (f : Facilities) →
        ComesPlainly f.calendar (make_get rs res least greatest f).calendar }
    ensures tried_put { (rs : List Resource) (res : ℕ) (f : Facilities) →
        ComesPlainly f.calendar (try_put rs res f).calendar }
    ensures tried_get { (rs : List Resource) (res : ℕ) (f : Facilities) →
        ComesPlainly f.calendar (try_get rs res f).calendar }
    ensures cancelled { (e : EventId) (f : Facilities) →
        ComesPlainly f.calendar (cancel e f).calendar }
    ensures released { (res : ℕ) (request : EventId) (f : Facilities) →
        ComesPlainly f.calendar (make_release res request f).calendar }
    ensures left { (res : ℕ) (request : EventId) (f : Facilities) →
        ComesPlainly f.calendar (leave res request f).calendar }
{}
