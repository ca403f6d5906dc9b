//! The order of keys.
ghost use Rattle.std.specs.Prelude.{◌≡◌};
ghost use Rattle.sim_machine.specs.Keys as keys;

use sim_types::RequestKey;

/// Whether a request of the first key is served before one of the second: by priority, then by time, and at one time those
/// that preempt before those that wait (SimPy's PriorityRequest).
pub(crate) fn is_served_first(first: RequestKey, second: RequestKey) -> bool
    ensures { result ≡ keys.is_served_first first second }
{
    if first.priority != second.priority {
        return first.priority < second.priority;
    }
    if first.time != second.time {
        return first.time < second.time;
    }
    !first.wait && second.wait
}
