//! What holds of all desks and of the queues that they show.
ghost use Rattle.std.specs.Prelude.{◌≡◌, ℤ, Bool, List, [], ◌∷◌, ◌++◌, filter};
ghost use Rattle.sim_types.specs.declared.event.EventId.{EventId};
ghost use Rattle.sim_types.specs.declared.event.ProcId.{ProcId};
ghost use Rattle.sim_types.specs.declared.setup.ResourceKind.{ResourceKind};
ghost use Rattle.sim_machine.specs.State.{Waiter};
ghost use Rattle.sim_machine.specs.Users.{in_order};
ghost use Rattle.sim_shared_model.specs.declared.desk.Grant.TheVariants as grant;
ghost use Rattle.sim_shared_model.specs.DeskOf.{DeskOf};
ghost use Rattle.sim_shared_model.specs.Attempts.{IsGranted, IsPreempting, attempt_of};

/// What the answer of an attempt tells of the first that waits: it is given a free slot, or that of a user.
pub fn answers()
    ensures granted { (time : ℤ) (d : DeskOf) (request : EventId) →
        (attempt_of time d).answer ≡ grant.Granted request → IsGranted request d }
    ensures preempted { (time : ℤ) (d : DeskOf) (request : EventId) (victim : EventId) →
        (process : ProcId) (since : ℤ) →
        (attempt_of time d).answer ≡ grant.Preempted request victim process since →
        IsPreempting request victim process since d }
{}

/// A queue in order stays so, where one joins it that came last, and where some leave it (SimPy's SortedQueue).
pub fn queues()
    ensures joined { (kind : ResourceKind) (w : Waiter) (ws : List Waiter) →
        in_order kind (ws ++ w ∷ []) ≡ in_order kind (in_order kind ws ++ w ∷ []) }
    ensures left { (kind : ResourceKind) (stays : Waiter → Bool) (ws : List Waiter) →
        in_order kind (filter stays ws) ≡ filter stays (in_order kind ws) }
{}
