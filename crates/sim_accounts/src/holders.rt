//! How holders are given back, and how counts of holders change into one another.
ghost use Rattle.std.specs.Prelude.{◌≡◌, ◌∷◌, ◌++◌, ◌+◌, ◌<◌, ◌||◌, false, true, List, Option, ℕ, count_by, nat_le};
ghost use Rattle.std.specs.List.{list_any};
ghost use Rattle.sim_types.specs.declared.event.EventId.{EventId};
ghost use Rattle.sim_machine.specs.State.{Calendar, State};
ghost use Rattle.sim_machine.specs.Events.{is_same};
ghost use Rattle.sim_machine.specs.KeptEvents.{is_in_body, is_in_process, is_to_be_triggered};
ghost use Rattle.sim_machine.specs.Tellings.{Telling};
ghost use Rattle.sim_happen_model.specs.TableOf.{IsKept, Kept, kept_at};
ghost use Rattle.sim_happen_model.specs.HappenOf.{HappenOf, gone_if_unheld, held};
ghost use Rattle.sim_happen_model.specs.Holders.{HasOwnHolder, unheld};
ghost use Rattle.sim_happen_model.specs.Shows.{Shows};
ghost use Rattle.sim_happen_model.specs.Naming.{held_alone};
ghost use Rattle.sim_happen_model.specs.Accounts.{AreGoneClosed, Balanced};
ghost use Rattle.sim_happen_model.specs.HolderChanges.{Trades};

/// A holder that is still to be given back is given back, with all that goes with it through conditions that are kept no
/// more: the accounts balance with what is to be given back then.
pub fn unheld_balanced()
    ensures balanced { (alone : EventId → ℕ) (e : EventId) (todo : List EventId)
        (events : List (Option Kept)) → Balanced alone (e ∷ todo) events →
        Balanced alone todo (unheld e events) }

    // There is one to be given back.
    ensures kept { (alone : EventId → ℕ) (e : EventId) (todo : List EventId)
        (events : List (Option Kept)) → Balanced alone (e ∷ todo) events → IsKept events e }
    ensures own { (alone : EventId → ℕ) (e : EventId) (todo : List EventId)
        (events : List (Option Kept)) → Balanced alone (e ∷ todo) events →
        HasOwnHolder events e }
{}

/// What is kept then is as it was shown, and what goes is closed.
pub fn unheld_shown()
    ensures shown { (h : HappenOf) (n : HappenOf) (c : Calendar) (alone : EventId → ℕ) (e : EventId)
        (todo : List EventId) → Shows h c → AreGoneClosed h.events c →
        Balanced alone (e ∷ todo) h.events → n.events ≡ unheld e h.events →
        n ≡ record h { events = n.events; spare = n.spare } → Shows n c }
    ensures gone { (h : HappenOf) (n : HappenOf) (c : Calendar) (alone : EventId → ℕ) (e : EventId)
        (todo : List EventId) → Shows h c → AreGoneClosed h.events c →
        Balanced alone (e ∷ todo) h.events → n.events ≡ unheld e h.events →
        AreGoneClosed n.events c }
{}

/// Where a holder is given back, an event that is neither processed nor cancelled stays kept, and stays as it is.
pub fn open_events()
    ensures kept { (alone : EventId → ℕ) (e : EventId) (f : EventId) (todo : List EventId)
        (events : List (Option Kept)) → Balanced alone (e ∷ todo) events → IsKept events f →
        let x = (kept_at events f).event in (x.processed || x.cancelled) ≡ false →
        IsKept (unheld e events) f }
    ensures same { (alone : EventId → ℕ) (e : EventId) (f : EventId) (todo : List EventId)
        (events : List (Option Kept)) → Balanced alone (e ∷ todo) events → IsKept events f →
        let x = (kept_at events f).event in (x.processed || x.cancelled) ≡ false →
        (kept_at (unheld e events) f).event ≡ x }
{}

/// Where a holder was taken beforehand for each event that gains one, the accounts balance with the holders that are lost,
/// which are to be given back.
pub fn traded_balanced()
    ensures balanced { (gained : List EventId) (lost : List EventId) (todo : List EventId)
        (old : EventId → ℕ) (new : EventId → ℕ) (events : List (Option Kept)) →
        Trades gained lost old new → Balanced old (gained ++ todo) events →
        Balanced new (lost ++ todo) events }
    ensures joined { (gained : List EventId) (lost : List EventId) (gained_then : List EventId)
        (lost_then : List EventId) (old : EventId → ℕ) (now : EventId → ℕ) (new : EventId → ℕ) →
        Trades gained lost old now → Trades gained_then lost_then now new →
        Trades (gained ++ gained_then) (lost ++ lost_then) old new }
{}

/// What is held is kept, and does not go where it is cancelled.
pub fn held_events()
    ensures kept { (alone : EventId → ℕ) (e : EventId) (todo : List EventId)
        (events : List (Option Kept)) → Balanced alone todo events →
        0 < alone e + count_by (is_same e) todo → IsKept events e }
    ensures stays { (alone : EventId → ℕ) (e : EventId) (todo : List EventId) (h : HappenOf) →
        Balanced alone todo h.events → 0 < alone e + count_by (is_same e) todo →
        gone_if_unheld e (held h) ≡ held h }
{}

/// Each reason to keep an event, but for conditions, is a holder: it is named for good, is being processed, is the target of a
/// live process or stands in one of its places, has an open scope, or is to get an outcome from another event.
pub fn reasons<B>()
    ensures named { (n : ℕ) (tell : Telling B) (s : State B) (e : EventId) →
        nat_le e.0 n ≡ true → 0 < held_alone n tell s e }
    ensures processed { (n : ℕ) (tell : Telling B) (s : State B) (e : EventId) →
        is_in_process s.control e ≡ true → 0 < held_alone n tell s e }
    ensures body { (n : ℕ) (tell : Telling B) (s : State B) (e : EventId) →
        list_any (is_in_body tell e) s.processes ≡ true → 0 < held_alone n tell s e }
    ensures scope { (n : ℕ) (tell : Telling B) (s : State B) (e : EventId) →
        list_any (λ x. is_same x.request e) s.scopes ≡ true → 0 < held_alone n tell s e }
    ensures triggered { (n : ℕ) (tell : Telling B) (s : State B) (e : EventId) →
        is_to_be_triggered e s ≡ true → 0 < held_alone n tell s e }
{}
