ghost use Rattle.std.specs.Prelude.{◌≡◌, ◌+ℤ◌, ◌-ℤ◌, All};
ghost use Rattle.sim_types.specs.declared.setup.ResourceKind.TheVariants as resource;
ghost use Rattle.sim_machine.specs.Users.{resource_at, level_after};
ghost use Rattle.sim_machine.specs.Trying.{try_put, try_get};
ghost use Rattle.sim_machine.specs.Runs.{total};
ghost use Rattle.sim_machine_law.specs.Desks.{puts_at, gets_at};
ghost use Rattle.sim_machine_law.specs.Stocks.{amounts_put, amounts_got, IsPut, IsGet, WaitOnce, ServesFront, filled_by, drained_by, HasSpace, HasAmount};

/// A container holds what it held at first, and all that was put, less all that was got (SimPy's "Shared resources",
/// Container.level).
pub fn levels()
    ensures amounts { (opening : _) (res : _) (ledger : _) → level_after opening res ledger
        ≡ (opening +ℤ total (amounts_put res ledger)) -ℤ total (amounts_got res ledger) }
{}

/// A try of a container serves those at the front of the queue, in order, and stops at the first that does not fit: no later
/// one overtakes it. This speaks of a container at which only puts and gets wait, each once, as in every lawful state
/// (SimPy's "Shared resources", Container).
pub fn container_tries()
    ensures puts { (rs : _) (res : _) (f : _) → (resource_at rs res).kind ≡ resource.Container →
        WaitOnce f.waiters → All IsPut (puts_at res f.waiters) →
        ServesFront filled_by (HasSpace rs) (puts_at res f.waiters) f (try_put rs res f) }
    ensures gets { (rs : _) (res : _) (f : _) → (resource_at rs res).kind ≡ resource.Container →
        WaitOnce f.waiters → All IsGet (gets_at res f.waiters) →
        ServesFront drained_by (HasAmount rs) (gets_at res f.waiters) f (try_get rs res f) }
{}
