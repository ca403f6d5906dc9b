//! What a process is told.
ghost use Rattle.std.specs.Prelude.{◌≡◌};
ghost use Rattle.sim_native.specs.Told.{event_by, number_by, thrown_by, value_by};

use sim_types::{ERROR, EventId, Signal, Throw};
use std::snapshot::Snapshot;

/// What is thrown at a process that is told this, if anything is.
pub(crate) fn thrown_by(told: Signal) -> Option<Throw>
    ensures { result ≡ thrown_by told }
{
    match told {
        Signal::Thrown(what) => Some(what),
        Signal::Raised(error) => Some(Throw {
            kind: ERROR,
            value: i64::from(error),
        }),
        _ => None,
    }
}

/// A process is told this: a value is kept.
pub(crate) fn keep_value(told: Signal, val: &mut Snapshot<i64>)
    ensures { val.new.value ≡ value_by told val.old.value }
{
    if let Signal::Value(value) = told {
        *val = Snapshot::of(&value);
    }
}

/// The number that a process is told, or 0.
pub(crate) fn number_by(told: Signal) -> i64
    ensures { result ≡ number_by told }
{
    match told {
        Signal::Number(number) => number,
        _ => 0,
    }
}

/// The event that a process is told of, or event 0.
pub(crate) fn event_by(told: Signal) -> EventId
    ensures { result ≡ event_by told }
{
    match told {
        Signal::Made(event) => event,
        _ => EventId(0),
    }
}
