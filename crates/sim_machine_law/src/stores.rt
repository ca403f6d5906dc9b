ghost use Rattle.std.specs.Prelude.{◌≡◌, ◌≢◌, ℤ, List, [], ◌∷◌, ◌++◌, Some, All, ◌<◌, false, length};
ghost use Rattle.sim_types.specs.declared.setup.ResourceKind.TheVariants as resource;
ghost use Rattle.sim_machine.specs.State.{Item, Give, Take, Deposited, Taken};
ghost use Rattle.sim_machine.specs.Users.{resource_at, items, item_for, put_queue, get_queue};
ghost use Rattle.sim_machine.specs.Attempts.{is_container};
ghost use Rattle.sim_machine.specs.Trying.{attempt, try_put, try_get};
ghost use Rattle.sim_machine_law.specs.Desks.{gets_at};
ghost use Rattle.sim_machine_law.specs.Stocks.{IsGet, IsFirstPut, IsFirstLeast, HasNoneInRange, IsFirstInRange, FindsNoneWhereLeft, GivesOne, items_besides, item_of, HasItemSpace, IsHandedOut, IsPutIn};

/// The items of a store are those that were put, in this order, and not taken since (SimPy's "Shared resources",
/// Store.items).
pub fn items_of_deeds()
    ensures deposited { (res : _) (x : _) (ledger : _) →
        items res (ledger ++ Deposited res x ∷ []) ≡ items res ledger ++ x ∷ [] }
    ensures deposited_elsewhere { (n : _) (res : _) (x : _) (ledger : _) →
        res ≢ n → items n (ledger ++ Deposited res x ∷ []) ≡ items n ledger }
    ensures taken { (n : _) (res : _) (put : _) (ledger : _) →
        items n (ledger ++ Taken res put ∷ []) ≡ items_besides put (items n ledger) }
{}

/// A store gives the first item put; a priority store the one with the least priority, among equals the first put; a filter
/// store the first put of those in the range of the get. Where there is none such, none is given (SimPy's "Shared resources",
/// Store, PriorityStore and FilterStore).
pub fn given_items()
    ensures first { (least : _) (greatest : _) (xs : _) (x : _) →
        item_for resource.Store least greatest xs ≡ Some x → IsFirstPut xs x }
    ensures first_least { (least : _) (greatest : _) (xs : _) (x : _) →
        item_for resource.PStore least greatest xs ≡ Some x → IsFirstLeast xs x }
    ensures first_in_range { (least : _) (greatest : _) (xs : _) (x : _) →
        item_for resource.FStore least greatest xs ≡ Some x → IsFirstInRange least greatest xs x }
    ensures none { (least : _) (greatest : _) (xs : _) →
        item_for resource.Store least greatest xs ≡ None → xs ≡ [] }
    ensures none_least { (least : _) (greatest : _) (xs : _) →
        item_for resource.PStore least greatest xs ≡ None → xs ≡ [] }
    ensures none_in_range { (least : _) (greatest : _) (xs : _) →
        item_for resource.FStore least greatest xs ≡ None → HasNoneInRange least greatest xs }
{}

/// An attempt at a get hands out the item that is to be given, and one at a put puts its item behind all others while there
/// is room; else they do nothing. No other waiter is touched (SimPy's "Shared resources", Store).
pub fn store_attempts()
    ensures handed { (rs : _) (w : _) (f : _) (least : _) (greatest : _) (x : _) →
        is_container (resource_at rs w.res).kind ≡ false → w.want ≡ Take least greatest →
        w.event.0 < length f.calendar.events →
        item_for (resource_at rs w.res).kind least greatest (items w.res f.ledger) ≡ Some x →
        IsHandedOut w x f (attempt rs w f) }
    ensures none { (rs : _) (w : _) (f : _) (least : _) (greatest : _) →
        is_container (resource_at rs w.res).kind ≡ false → w.want ≡ Take least greatest →
        item_for (resource_at rs w.res).kind least greatest (items w.res f.ledger) ≡ None →
        attempt rs w f ≡ f }
    ensures put { (rs : _) (w : _) (f : _) (value : _) (priority : _) →
        is_container (resource_at rs w.res).kind ≡ false → w.want ≡ Give value priority →
        w.event.0 < length f.calendar.events →
        HasItemSpace (resource_at rs w.res) (items w.res f.ledger) →
        IsPutIn w (item_of w value priority) f (attempt rs w f) }
    ensures full { (rs : _) (w : _) (f : _) (value : _) (priority : _) →
        is_container (resource_at rs w.res).kind ≡ false → w.want ≡ Give value priority →
        ¬ HasItemSpace (resource_at rs w.res) (items w.res f.ledger) → attempt rs w f ≡ f }
{}

/// A try of the requests or puts of any resource but a container is one attempt, at the first, and so is one of the gets of a
/// store or priority store (this project's own: SimPy's documentation does not say).
pub fn one_attempt()
    ensures put { (rs : _) (res : _) (f : _) (w : _) (ws : _) →
        (resource_at rs res).kind ≢ resource.Container → put_queue rs res f.waiters ≡ w ∷ ws →
        try_put rs res f ≡ attempt rs w f }
    ensures get { (rs : _) (res : _) (f : _) (w : _) (ws : _) →
        GivesOne (resource_at rs res).kind → get_queue res f.waiters ≡ w ∷ ws →
        try_get rs res f ≡ attempt rs w f }
    ensures no_put { (rs : _) (res : _) (f : _) →
        put_queue rs res f.waiters ≡ [] → try_put rs res f ≡ f }
    ensures no_get { (rs : _) (res : _) (f : _) →
        get_queue res f.waiters ≡ [] → try_get rs res f ≡ f }
{}

/// A try of the gets of a filter store goes along them all: after it no get that waits there finds an item in its range. This
/// speaks of a store at which only gets wait so, as in every lawful state (SimPy's "Shared resources", FilterStore).
pub fn filter_store_tries()
    ensures none_left { (rs : _) (res : _) (f : _) → (resource_at rs res).kind ≡ resource.FStore →
        All IsGet (gets_at res f.waiters) →
        All (λ w. FindsNoneWhereLeft res w (try_get rs res f)) (gets_at res f.waiters) }
{}
