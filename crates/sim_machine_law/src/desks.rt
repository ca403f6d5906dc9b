ghost use Rattle.std.specs.Prelude.{◌≡◌, ◌≢◌, ◌≤ℤ◌, ◌↔◌, ℕ, List, [], ◌∷◌, ◌++◌, pos, length, All, AllPairs, true, false, Some};
ghost use Rattle.std.specs.List.Sorted.{IsPermutation};
ghost use Rattle.sim_types.specs.Throws.{preemption};
ghost use Rattle.sim_types.specs.declared.event.EventId.{EventId};
ghost use Rattle.sim_types.specs.declared.event.RequestKey.{RequestKey};
ghost use Rattle.sim_machine.specs.State.{Granted, Released, Preempted, Slot, User, Deed};
ghost use Rattle.sim_types.specs.declared.event.Outcome.TheVariants as outcome;
ghost use Rattle.sim_machine.specs.Events.{event_at, next_event};
ghost use Rattle.sim_machine.specs.Keys.{is_served_first};
ghost use Rattle.sim_machine.specs.Users.{resource_at, users, put_queue, get_queue};
ghost use Rattle.sim_machine.specs.Attempts.{NoSlot, FreeSlot, SlotOf, grant_of};
ghost use Rattle.sim_machine.specs.Trying.{attempt, preempt};
ghost use Rattle.sim_machine.specs.Requests.{is_own_victim, make_request};
ghost use Rattle.sim_machine_law.specs.Desks.{IsServedBefore, puts_at, gets_at, GoesByKeys, StandsBehind, with_key, IsLastServed, HasRoom, TakesSlotOf, TakesNoSlot, users_besides, user_since, struck, urgent_entry, AreOfOneProcess, KeepsUses};

/// Of two requests the one with the smaller priority comes first, then the earlier one, and at one time the one that preempts
/// (SimPy's "Shared resources", PriorityRequest).
pub fn request_keys()
    ensures first { (a b : RequestKey) → (is_served_first a b ≡ true) ↔ IsServedBefore a b }
    ensures equal { (a b : RequestKey) → ¬ IsServedBefore a b → ¬ IsServedBefore b a → a ≡ b }
{}

/// The requests and puts that wait at a resource stand in its queue, none of them twice or left out. Those of a priority or
/// preemptive resource go by their keys, and equals stand as they came; all else waits as it came (SimPy's "Shared
/// resources").
pub fn queues()
    ensures same_waiters { (rs : _) (res : _) (ws : _) →
        IsPermutation (puts_at res ws) (put_queue rs res ws) }
    ensures by_keys { (rs : _) (res : _) (ws : _) →
        GoesByKeys (resource_at rs res).kind → AllPairs StandsBehind (put_queue rs res ws) }
    ensures equals { (rs : _) (res : _) (ws : _) (key : _) →
        with_key key (put_queue rs res ws) ≡ with_key key (puts_at res ws) }
    ensures as_came { (rs : _) (res : _) (ws : _) →
        ¬ GoesByKeys (resource_at rs res).kind → put_queue rs res ws ≡ puts_at res ws }
    ensures gets { (res : _) (ws : _) → get_queue res ws ≡ gets_at res ws }
{}

/// A request is given a slot exactly where one is free, or where it takes that of a user: at a preemptive resource, where it
/// preempts and its key comes before that of the user with the greatest key, among equals the one last granted. So an equal
/// key takes nobody's (SimPy's "Shared resources", PreemptiveResource).
pub fn grants()
    ensures free { (r : _) (key : _) (us : _) → (grant_of r key us ≡ FreeSlot) ↔ HasRoom r us }
    ensures taken { (r : _) (key : _) (us : _) (u : _) →
        grant_of r key us ≡ SlotOf u → TakesSlotOf r key us u }
    ensures no_room { (r : _) (key : _) (us : _) → grant_of r key us ≡ NoSlot → ¬ HasRoom r us }
    ensures no_victim { (r : _) (key : _) (us : _) →
        grant_of r key us ≡ NoSlot → TakesNoSlot r key us }
{}

/// The users of a resource are the requests that were granted, in this order, and neither released nor preempted since. Where
/// no more slots are used than there are, a preemption makes room for one (SimPy's "Shared resources", Resource.users).
pub fn users_of_deeds()
    ensures granted { (res : _) (u : _) (ledger : _) →
        users res (ledger ++ Granted res u ∷ []) ≡ users res ledger ++ u ∷ [] }
    ensures granted_elsewhere { (n : ℕ) (res : ℕ) (u : _) (ledger : _) →
        res ≢ n → users n (ledger ++ Granted res u ∷ []) ≡ users n ledger }
    ensures released { (n : _) (res : _) (r : _) (ledger : _) →
        users n (ledger ++ Released res r ∷ []) ≡ users_besides r (users n ledger) }
    ensures preempted { (n : _) (res : _) (r : _) (ledger : _) →
        users n (ledger ++ Preempted res r ∷ []) ≡ users_besides r (users n ledger) }
    ensures room { (r : _) (res : _) (u : User) (ledger : List Deed) →
        IsLastServed (users res ledger) u → pos (length (users res ledger)) ≤ℤ r.capacity →
        HasRoom r (users res (ledger ++ Preempted res u.request ∷ [])) }
{}

/// An attempt at a request does nothing without a slot; else the request is a user since now, behind all others, in place of
/// the user whose slot it takes (SimPy's "Shared resources").
pub fn attempts()
    ensures nothing { (rs : _) (w : _) (p : _) (key : _) (f : _) → w.want ≡ Slot p key →
        grant_of (resource_at rs w.res) key (users w.res f.ledger) ≡ NoSlot → attempt rs w f ≡ f }
    ensures more { (rs : _) (w : _) (p : _) (key : _) (f : _) → w.want ≡ Slot p key →
        grant_of (resource_at rs w.res) key (users w.res f.ledger) ≡ FreeSlot →
        users w.res (attempt rs w f).ledger ≡ users w.res f.ledger ++ user_since w p key f ∷ [] }
    ensures replaced { (rs : _) (w : _) (p : _) (key : _) (f : _) (u : _) → w.want ≡ Slot p key →
        grant_of (resource_at rs w.res) key (users w.res f.ledger) ≡ SlotOf u →
        users w.res (attempt rs w f).ledger
        ≡ users_besides u.request (users w.res f.ledger) ++ user_since w p key f ∷ [] }
{}

/// A preemption makes an event that throws into the preempted process, at once and before all that is not urgent, the time
/// since which it used the slot; it ends no run by itself (SimPy's "Shared resources", Preempted).
pub fn preemptions()
    ensures throws { (res : _) (u : _) (f : _) →
        (event_at (preempt res u f).calendar (next_event f.calendar)).outcome
        ≡ Some (outcome.Fail (record { kind = preemption; value = u.since })) }
    ensures defused { (res : _) (u : _) (f : _) →
        (event_at (preempt res u f).calendar (next_event f.calendar)).defused ≡ true }
    ensures strikes { (res : _) (u : _) (f : _) → (preempt res u f).calendar.registered
        ≡ f.calendar.registered ++ struck (next_event f.calendar) u.process ∷ [] }
    ensures urgent { (res : _) (u : _) (f : _) → (preempt res u f).calendar.agenda
        ≡ urgent_entry (next_event f.calendar) f.calendar ∷ f.calendar.agenda }
    ensures waiters { (res : _) (u : _) (f : _) → (preempt res u f).waiters ≡ f.waiters }
{}

/// A process that is not its own victim loses no slot by making its request, where no request is used by two processes (this
/// project's own; SimPy raises in the midst of it).
pub fn own_victim()
    ensures keeps_uses { (rs : _) (res : _) (p : _) (priority : _) (preempts : _) (f : _) →
        AreOfOneProcess f.ledger → is_own_victim rs res p priority preempts f ≡ false →
        KeepsUses p f (make_request rs res p priority preempts f) }
{}
