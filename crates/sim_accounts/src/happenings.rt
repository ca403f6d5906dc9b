//! The accounts after a call on what happens, by the calendars that it shows and by who is held.
ghost use Rattle.std.specs.Prelude.{◌≡◌, ◌∷◌, ◌<◌, [], true, ℕ, All, List, Option, length};
ghost use Rattle.sim_types.specs.declared.event.EventId.{EventId};
ghost use Rattle.sim_machine.specs.State.{Calendar};
ghost use Rattle.sim_machine.specs.Conditions.{members_of};
ghost use Rattle.sim_machine.specs.Events.{next_event};
ghost use Rattle.sim_machine.specs.KeptEvents.{is_closed};
ghost use Rattle.sim_happen_model.specs.TableOf.{IsKept};
ghost use Rattle.sim_happen_model.specs.HappenOf.{HappenOf, gone_if_unheld, held, holding, one_more, unheld_event};
ghost use Rattle.sim_happen_model.specs.Accounts.{AreGoneClosed, Balanced};
ghost use Rattle.sim_happen_model.specs.HolderChanges.{KeepsHolders, MakesNoCondition, ShowsLater};

/// Where no event has a holder more or fewer, the accounts balance as before.
pub fn balanced_as_before()
    ensures balanced { (h : HappenOf) (n : HappenOf) (c : Calendar) (d : Calendar)
        (alone : EventId → ℕ) (todo : List EventId) → ShowsLater h n c d → MakesNoCondition c d →
        KeepsHolders d (held h) (held n) →
        Balanced alone todo h.events → Balanced alone todo n.events }
    ensures gone { (h : HappenOf) (n : HappenOf) (c : Calendar) (d : Calendar) →
        ShowsLater h n c d → MakesNoCondition c d → KeepsHolders d (held h) (held n) →
        AreGoneClosed h.events c → AreGoneClosed n.events d }
{}

/// No event has a holder more or fewer where all are held as before, where an event is made besides, and where one goes that
/// nobody holds.
pub fn kept_holders()
    ensures all { (d : Calendar) (hs : List (Option ℕ)) → KeepsHolders d hs hs }
    ensures made { (d : Calendar) (hs : List (Option ℕ)) (gs : List (Option ℕ)) →
        KeepsHolders d hs gs → KeepsHolders d hs (unheld_event gs) }
    ensures gone { (d : Calendar) (e : EventId) (hs : List (Option ℕ)) (gs : List (Option ℕ)) →
        e.0 < length hs → is_closed d e ≡ true → members_of d e ≡ [] →
        KeepsHolders d hs gs → KeepsHolders d hs (gone_if_unheld e gs) }
{}

/// Where an event has a holder more, that one is to be given back.
pub fn balanced_with_holder()
    ensures balanced { (h : HappenOf) (n : HappenOf) (c : Calendar) (d : Calendar) (e : EventId)
        (alone : EventId → ℕ) (todo : List EventId) → ShowsLater h n c d → MakesNoCondition c d →
        IsKept h.events e → held n ≡ one_more e (held h) →
        Balanced alone todo h.events → Balanced alone (e ∷ todo) n.events }
    ensures gone { (h : HappenOf) (n : HappenOf) (c : Calendar) (d : Calendar) (e : EventId) →
        ShowsLater h n c d → MakesNoCondition c d →
        IsKept h.events e → held n ≡ one_more e (held h) →
        AreGoneClosed h.events c → AreGoneClosed n.events d }
{}

/// Where a condition is made, which holds its members, the accounts balance as before.
pub fn balanced_with_condition()
    ensures balanced { (h : HappenOf) (n : HappenOf) (c : Calendar) (d : Calendar)
        (ms : List EventId) (alone : EventId → ℕ) (todo : List EventId) → ShowsLater h n c d →
        members_of d (next_event c) ≡ ms → All (IsKept h.events) ms → held n ≡ holding ms (held h) →
        Balanced alone todo h.events → Balanced alone todo n.events }
    ensures gone { (h : HappenOf) (n : HappenOf) (c : Calendar) (d : Calendar) (ms : List EventId) →
        ShowsLater h n c d →
        members_of d (next_event c) ≡ ms → All (IsKept h.events) ms → held n ≡ holding ms (held h) →
        AreGoneClosed h.events c → AreGoneClosed n.events d }
{}
