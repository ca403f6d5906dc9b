ghost use Rattle.std.specs.Prelude.{◌≡◌};
ghost use Rattle.sim_machine.specs.Callbacks.{is_same_callback};

use sim_types::Callback;

/// Whether two callbacks are the same.
pub(crate) fn is_same(one: Callback, other: Callback) -> bool
    ensures { result ≡ is_same_callback one other }
{
    match (one, other) {
        (Callback::Resume(p), Callback::Resume(q)) => p.0 == q.0,
        (Callback::Check(e), Callback::Check(f)) => e.0 == f.0,
        (Callback::Build(e), Callback::Build(f)) => e.0 == f.0,
        (Callback::TryPut(r), Callback::TryPut(s)) => r == s,
        (Callback::TryGet(r), Callback::TryGet(s)) => r == s,
        (Callback::Strike(p), Callback::Strike(q)) => p.0 == q.0,
        (Callback::Stop, Callback::Stop) => true,
        (Callback::Trigger(e), Callback::Trigger(f)) => e.0 == f.0,
        _ => false,
    }
}
