ghost use Rattle.std.specs.Prelude.{◌≡◌, ◌-◌, ◌&&◌, not, is_none};
ghost use Rattle.sim_machine.specs.Events.{is_fail};
ghost use Rattle.sim_callbacks.specs.Chains.{IsEmpty};
ghost use Rattle.sim_events.specs.Slots.{new_slot, outcome_in, slot_with_outcome, is_slot_needed};

use sim_callbacks::Chain;
use sim_types::{EventKind, Outcome, Throw};

/// Whether an event has an outcome, and which.
#[derive(Clone, Copy)]
pub(crate) enum Stage {
    Pending,
    Succeeded,
    Failed,
}

/// An event that is kept, with its callbacks and how many hold it.
///
/// The outcome stands in three fields, so that it is read and written in place: a copy of an enum with payloads waits
/// for its bytes. What is looked at when an event is popped comes first.
#[derive(Drop)]
pub(crate) struct Slot {
    pub(crate) kind: EventKind,
    pub(crate) stage: Stage,
    /// The kind of what was thrown, which counts only where the event failed.
    pub(crate) throw: u8,
    pub(crate) defused: bool,
    pub(crate) processed: bool,
    pub(crate) cancelled: bool,
    pub(crate) is_condition: bool,
    /// The value of the outcome, which counts only where there is one.
    pub(crate) value: i64,
    pub(crate) holders: u64,
    pub(crate) callbacks: Chain,
    /// The key of what it has as a condition, which counts only where it is one.
    pub(crate) part: usize,
}

impl Slot {
    /// The slot of a pending event that nobody holds.
    pub(crate) fn new(kind: EventKind) -> Slot
        ensures slot { result ≡ new_slot kind result.callbacks }
        ensures none { IsEmpty result.callbacks }
    {
        Slot {
            kind,
            stage: Stage::Pending,
            throw: 0,
            defused: false,
            processed: false,
            cancelled: false,
            is_condition: false,
            value: 0,
            holders: 0,
            callbacks: Chain::new(),
            part: 0,
        }
    }

    /// Whether the event has no outcome.
    pub(crate) fn is_pending(&self) -> bool
        ensures { result ≡ is_none (outcome_in self.now) }
    {
        match self.stage {
            Stage::Pending => true,
            Stage::Succeeded => false,
            Stage::Failed => false,
        }
    }

    /// The outcome of the event, if it has one.
    #[inline(always)]
    pub(crate) fn outcome(&self) -> Option<Outcome>
        ensures { result ≡ outcome_in self.now }
    {
        match self.stage {
            Stage::Pending => None,
            Stage::Succeeded => Some(Outcome::Ok(self.value)),
            Stage::Failed => Some(Outcome::Fail(Throw {
                kind: self.throw,
                value: self.value,
            })),
        }
    }

    /// Whether the event failed, and nobody defused it.
    pub(crate) fn is_unhandled(&self) -> bool
        ensures { result ≡ (is_fail (outcome_in self.now) && not self.now.defused) }
    {
        matches!(self.stage, Stage::Failed) && !self.defused
    }

    /// The event gets an outcome.
    pub(crate) fn set_outcome(&mut self, outcome: Outcome)
        ensures { self.new ≡ slot_with_outcome outcome self.old }
    {
        match outcome {
            Outcome::Ok(value) => {
                self.stage = Stage::Succeeded;
                self.value = value;
            }
            Outcome::Fail(thrown) => {
                self.stage = Stage::Failed;
                self.value = thrown.value;
                self.throw = thrown.kind;
            }
        }
    }

    /// Whether the event is to be kept: it is neither processed nor cancelled, or has a holder.
    pub(crate) fn is_needed(&self) -> bool
        ensures { result ≡ is_slot_needed self.now }
    {
        !(self.processed || self.cancelled) || 0 < self.holders
    }

    /// Whether the event is not to be kept where it has one holder fewer.
    pub(crate) fn goes_without_holder(&self) -> bool
        ensures { result
            ≡ not (is_slot_needed (record self.now { holders = self.now.holders - 1 })) }
    {
        (self.processed || self.cancelled) && self.holders <= 1
    }
}
