//! What each change of the machine's state does to who holds which event: who has a holder more, and who one fewer.
ghost use Rattle.std.specs.Prelude.{◌≡◌, ◌+◌, ◌++◌, ◌∷◌, [], false, true, ℕ, ℤ, map, nat_le, List};
ghost use Rattle.std.specs.List.{list_all};
ghost use Rattle.sim_types.specs.declared.event.Callback.{Callback};
ghost use Rattle.sim_types.specs.declared.event.Entry.{Entry};
ghost use Rattle.sim_types.specs.declared.event.EventId.{EventId};
ghost use Rattle.sim_types.specs.declared.event.EventKind.TheVariants as kind;
ghost use Rattle.sim_types.specs.declared.event.Outcome.{Outcome};
ghost use Rattle.sim_types.specs.declared.event.ProcId.{ProcId};
ghost use Rattle.sim_types.specs.declared.event.Signal.{Signal};
ghost use Rattle.sim_types.specs.declared.line.End.{End};
ghost use Rattle.sim_types.specs.declared.line.Line.{Line};
ghost use Rattle.sim_machine.specs.State.{Active, Calendar, Calling, Facilities, Idle, OpenScope, Over, Plan, ProcessOf, State};
ghost use Rattle.sim_machine.specs.Effect.{calendar};
ghost use Rattle.sim_machine.specs.Events.{is_processed, next_event, register};
ghost use Rattle.sim_machine.specs.Triggering.{make};
ghost use Rattle.sim_machine.specs.Processes.{end_process, make_process, stop_waiting, strip_resume, wait, with_body, write_line};
ghost use Rattle.sim_machine.specs.Processes as processes;
ghost use Rattle.sim_machine.specs.LawfulBodies.{place_fits};
ghost use Rattle.sim_machine.specs.Runs.{blank_state};
ghost use Rattle.sim_machine.specs.Scopes.{close_scope, on_events, on_facilities, open_scope};
ghost use Rattle.sim_machine.specs.Standing.{one_if};
ghost use Rattle.sim_machine.specs.Steps.{control_to, pop_entry, settle};
ghost use Rattle.sim_machine.specs.Tellings.{Telling};
ghost use Rattle.sim_happen_model.specs.Naming.{but_zero, held_alone, named_by_process, named_in_places, triggered_by};
ghost use Rattle.sim_happen_model.specs.HolderChanges.{ComesQuietly, HasOnlyScope, IsOnlyProcess, StatesTrade};

/// A process that waits for an event holds it in place of the one that it waited for; one that goes on at once holds what it
/// held. A process that is no longer resumed by its target still holds it.
pub fn waiting_processes<B>()
    ensures waits { (n : ℕ) (tell : Telling B) (s : State B) (p : ProcId) (x : ProcessOf B)
        (e : EventId) → IsOnlyProcess p x s → is_processed (calendar s) e ≡ false →
        StatesTrade n tell (but_zero (e ∷ [])) (but_zero (x.target ∷ [])) s (wait e p s) }
    ensures target { (n : ℕ) (tell : Telling B) (s : State B) (p : ProcId) (x : ProcessOf B)
        (e : EventId) → IsOnlyProcess p x s →
        StatesTrade n tell (but_zero (e ∷ [])) (but_zero (x.target ∷ []))
        s (processes.change_process p (λ y. record y { target = e }) s) }
    ensures goes_on { (n : ℕ) (tell : Telling B) (s : State B) (p : ProcId) (e : EventId) →
        is_processed (calendar s) e ≡ true → StatesTrade n tell [] [] s (wait e p s) }
    ensures stops { (n : ℕ) (tell : Telling B) (s : State B) (p : ProcId) →
        StatesTrade n tell [] [] s (stop_waiting p s) }
{}

/// A process that is made holds its init event and what its body has in places; one that has ended holds nothing any more; and
/// where a body changes, the places of the new body hold in place of those of the old one.
pub fn living_processes<B>()
    ensures made { (n : ℕ) (tell : Telling B) (g : Plan B) (k : ℕ) (args : List ℤ) (s : State B) →
        let first = next_event (calendar s) in
        let init = next_event (make kind.Process (calendar s)) in
        let places = named_in_places tell (g.start k args (record { 0 = first.0 })) in
        StatesTrade n tell (but_zero (init ∷ places)) [] s (make_process g k args s) }
    ensures ended { (n : ℕ) (tell : Telling B) (s : State B) (p : ProcId) (x : ProcessOf B)
        (outcome : Outcome) → IsOnlyProcess p x s →
        StatesTrade n tell [] (but_zero (named_by_process tell x)) s (end_process p outcome s) }
    ensures body { (n : ℕ) (tell : Telling B) (s : State B) (p : ProcId) (x : ProcessOf B) (b : B) →
        IsOnlyProcess p x s →
        StatesTrade n tell (but_zero (named_in_places tell b))
        (but_zero (named_in_places tell x.body)) s (with_body p b s) }
{}

/// In a lawful state a place for a number has event 0, so all places may be read alike.
pub fn places_of_numbers<B>()
    ensures same { (tell : Telling B) (c : Calendar) (b : B) →
        list_all (place_fits c) (tell.places b) ≡ true → but_zero (named_in_places tell b)
        ≡ but_zero (map (λ y. y.event) (tell.places b)) }
{}

/// An open scope holds its request.
pub fn open_scopes<B>()
    ensures opened { (n : ℕ) (tell : Telling B) (s : State B) (p : ProcId) (request : EventId)
        (res : ℕ) → StatesTrade n tell (but_zero (request ∷ [])) [] s (open_scope p request res s) }
    ensures closed { (n : ℕ) (tell : Telling B) (s : State B) (x : OpenScope) →
        HasOnlyScope x.request s →
        StatesTrade n tell [] (but_zero (x.request ∷ [])) s (close_scope s x) }
{}

/// An event is held from its pop until it is settled or stops the run. A callback that passes an outcome on holds the event
/// that it passes it on to, from its registration until it is called.
pub fn events_in_process<B>()
    ensures popped { (n : ℕ) (tell : Telling B) (s : State B) (x : Entry) →
        s.control ≡ Idle → StatesTrade n tell (but_zero (x.event ∷ [])) [] s (pop_entry x s) }
    ensures registered { (n : ℕ) (tell : Telling B) (s : State B) (e : EventId) (x : Callback) →
        StatesTrade n tell (triggered_by x) [] s (on_events (register e x) s) }
    ensures called { (n : ℕ) (tell : Telling B) (s : State B) (e : EventId) (x : Callback)
        (left : List Callback) → s.control ≡ Calling e (x ∷ left) →
        StatesTrade n tell [] (triggered_by x) s (control_to (Calling e left) s) }
    ensures runs { (n : ℕ) (tell : Telling B) (s : State B) (e : EventId) (x : Callback)
        (left : List Callback) (p : ProcId) (told : Signal) → s.control ≡ Calling e (x ∷ left) →
        StatesTrade n tell [] (triggered_by x) s (control_to (Active e left p told) s) }
    ensures stops { (n : ℕ) (tell : Telling B) (s : State B) (e : EventId) (x : Callback)
        (left : List Callback) (why : End) → s.control ≡ Calling e (x ∷ left) →
        StatesTrade n tell [] (but_zero (e ∷ []) ++ triggered_by x)
        s (control_to (Over why e left) s) }
    ensures settled { (n : ℕ) (tell : Telling B) (s : State B) (e : EventId) →
        s.control ≡ Calling e [] → StatesTrade n tell [] (but_zero (e ∷ [])) s (settle e s) }
{}

/// Nobody holds an event more or fewer where a process is told something or comes to rest, where a resumption is taken out of
/// the callbacks left to call, where a line is written or a word drawn, and where a calendar changes quietly.
pub fn quiet_changes<B>()
    ensures told { (n : ℕ) (tell : Telling B) (s : State B) (x : Signal) →
        StatesTrade n tell [] [] s (processes.tell x s) }
    ensures rests { (n : ℕ) (tell : Telling B) (s : State B) →
        StatesTrade n tell [] [] s (processes.rest s) }
    ensures stripped { (n : ℕ) (tell : Telling B) (s : State B) (p : ProcId) →
        StatesTrade n tell [] [] s (record s { control = strip_resume p s.control }) }
    ensures written { (n : ℕ) (tell : Telling B) (s : State B) (line : Line) →
        StatesTrade n tell [] [] s (write_line line s) }
    ensures drawn { (n : ℕ) (tell : Telling B) (s : State B) →
        StatesTrade n tell [] [] s (record s { drawn = s.drawn + 1 }) }
    ensures facilities { (n : ℕ) (tell : Telling B) (s : State B)
        (change : Facilities → Facilities) →
        ComesQuietly (calendar s) (change s.facilities).calendar →
        StatesTrade n tell [] [] s (on_facilities change s) }
{}

/// Before anything is made, event 0 and the named ones are held once, and no other is.
pub fn blank_states<B>()
    ensures named { (tell : Telling B) (g : Plan B) (e : EventId) →
        held_alone g.setup.events tell (blank_state g) e ≡ one_if (nat_le e.0 g.setup.events) }
{}
