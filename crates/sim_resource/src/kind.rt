//! The kinds of desks.
ghost use Rattle.std.specs.Prelude.{◌≡◌};
ghost use Rattle.sim_machine.specs.Requests.{is_preemptive};
ghost use Rattle.sim_shared_model.specs.DeskOf.{resource_kind, goes_by_keys};

use sim_shared_model::DeskKind;

/// Whether requests wait by their keys.
pub(crate) fn goes_by_keys(kind: DeskKind) -> bool
    ensures { result ≡ goes_by_keys kind }
{
    match kind {
        DeskKind::Plain => false,
        DeskKind::Priority => true,
        DeskKind::Preemptive => true,
    }
}

/// Whether a request may take the slot of a user.
pub(crate) fn is_preemptive(kind: DeskKind) -> bool
    ensures { result ≡ is_preemptive (resource_kind kind) }
{
    match kind {
        DeskKind::Plain => false,
        DeskKind::Priority => false,
        DeskKind::Preemptive => true,
    }
}
