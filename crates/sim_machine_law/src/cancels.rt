ghost use Rattle.std.specs.Prelude.{◌≡◌, ◌≢◌, ◌+◌};
ghost use Rattle.sim_machine.specs.Events.{event_at};
ghost use Rattle.sim_machine.specs.Users.{users, items, level_after};
ghost use Rattle.sim_machine.specs.Requests.{cancel, leave};
ghost use Rattle.sim_machine_law.specs.Desks.{users_besides, waiters_besides};

/// What is cancelled waits no longer; no other waiter is touched, nothing is done at any resource, and nothing is scheduled
/// (SimPy's "Shared resources", cancel).
pub fn cancelled_waiters()
    ensures waiters { (e : _) (f : _) → (cancel e f).waiters ≡ waiters_besides e f.waiters }
    ensures ledger { (e : _) (f : _) → (cancel e f).ledger ≡ f.ledger }
    ensures agenda { (e : _) (f : _) → (cancel e f).calendar.agenda ≡ f.calendar.agenda }
    ensures registered { (e : _) (f : _) →
        (cancel e f).calendar.registered ≡ f.calendar.registered }
    ensures others { (e : _) (f : _) (x : _) →
        x ≢ e → event_at (cancel e f).calendar x ≡ event_at f.calendar x }
{}

/// Where a scope is left its request waits no longer and uses no slot. No other waiter is touched or served, all other uses
/// stay, and so do items and levels (SimPy's "Shared resources", requests as context managers).
pub fn left_scopes()
    ensures waiters { (res : _) (request : _) (f : _) →
        (leave res request f).waiters ≡ waiters_besides request f.waiters }
    ensures users { (res : _) (request : _) (f : _) →
        users res (leave res request f).ledger ≡ users_besides request (users res f.ledger) }
    ensures other_users { (n : _) (res : _) (request : _) (f : _) →
        users_besides request (users n (leave res request f).ledger)
        ≡ users_besides request (users n f.ledger) }
    ensures items { (n : _) (res : _) (request : _) (f : _) →
        items n (leave res request f).ledger ≡ items n f.ledger }
    ensures levels { (opening : _) (n : _) (res : _) (request : _) (f : _) →
        level_after opening n (leave res request f).ledger ≡ level_after opening n f.ledger }
    ensures one_event { (res : _) (request : _) (f : _) →
        (leave res request f).calendar.scheduled ≡ f.calendar.scheduled + 1 }
{}
