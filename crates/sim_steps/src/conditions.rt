//! Conditions that processes make, and what their callbacks do (SimPy's "Condition events").
ghost use Rattle.std.specs.Prelude.{◌≡◌, ◌↔◌, ◌<◌, ◌≤◌, ◌^◌, All, IfOk, OnOk, OnErr, IsErr, IsTrue, length, if◌then◌else◌};
ghost use Rattle.sim_types.specs.declared.op.Op.TheVariants as op;
ghost use Rattle.sim_machine.specs.Conditions as conditions;
ghost use Rattle.sim_machine.specs.Effect as effect;
ghost use Rattle.sim_machine.specs.Scopes.{on_events};
ghost use Rattle.sim_machine.specs.State.{Calendar, Every, Either};
ghost use Rattle.sim_happen_model.specs.TableOf.{IsKept};
ghost use Rattle.sim_happen_model.specs.HappenOf.{held, holding};
ghost use Rattle.sim_happen_model.specs.Shows.{Shows, Turns};
ghost use Rattle.sim_steps_model.specs.Becoming.{AreFew, Becomes, BecomesWith};
ghost use Rattle.sim_steps_model.specs.Conditions.{BuildsCondition, ChecksMember};
ghost use Rattle.sim_steps_model.specs.PartsOf.{HasUnitRoom, IsRunningIn, KeepsButHappen, KeepsResources, plan_of};

use crate::parts::Parts;
use sim_happen::TooWide;
use sim_procs::Body;
use sim_types::{CONDITION_TOO_WIDE, EventId, Members, ProcId, Signal};

/// Yes as 1 and no as 0.
fn number_of(is: bool) -> i64
    ensures { result ≡ effect.number_of is }
{
    if is { 1 } else { 0 }
}

impl<B: Body> Parts<B> {
    // A condition that waits for all of its members or for one of them is made, unless it would weigh too much.
    fn add_condition(&mut self, for_all: bool, members: Members) -> Result<EventId, TooWide>
        requires members { All (IsKept self.old.shared.happen.events) members }
        requires few { AreFew (2 ^ 41) (held self.old.shared.happen) }
        requires room { HasUnitRoom self.old }
        requires number { length self.old.shared.happen.events < 2 ^ 62 }
        ensures few { length members ≤ 16 }
        ensures wide { (c : Calendar) → Shows self.old.shared.happen c
            → IsErr result ↔ IsTrue (conditions.is_too_wide members c) }
        ensures id { IfOk result (λ e. e.0 ≡ length self.old.shared.happen.events) }
        ensures ok { OnOk result (Turns
            (conditions.make_condition (if for_all then Every else Either) members)
            (holding members) self.old.shared.happen self.new.shared.happen) }
        ensures err { OnErr result (self.new ≡ self.old) }
        ensures rest { KeepsButHappen self.old self.new }
    {
        let _known = members.as_slice();
        if for_all {
            self.shared.happen_mut().all_of(members)
        } else {
            self.shared.happen_mut().any_of(members)
        }
    }

    /// The running process makes a condition of these members, unless it would weigh too much.
    #[inline(never)]
    pub(crate) fn make_condition(
        &mut self,
        event: EventId,
        process: ProcId,
        for_all: bool,
        members: &Members,
    )
        requires running { IsRunningIn event process self.old.control }
        requires members { All (IsKept self.old.shared.happen.events) members.now }
        requires few { AreFew (2 ^ 41) (held self.old.shared.happen) }
        requires room { HasUnitRoom self.old }
        requires number { length self.old.shared.happen.events < 2 ^ 62 }
        ensures becomes { BecomesWith B.body 16
            (effect.with_condition (if for_all then Every else Either) members.now)
            self.old self.new }
        ensures resources { KeepsResources self.old self.new }
    {
        match self.add_condition(for_all, members.copied()) {
            Ok(condition) => self.tell(event, process, Signal::Made(condition)),
            Err(_) => self.tell(event, process, Signal::Raised(CONDITION_TOO_WIDE)),
        }
    }

    /// The running process asks whether an event stands in the value of a condition.
    #[inline(never)]
    pub(crate) fn has(
        &mut self,
        event: EventId,
        process: ProcId,
        condition: EventId,
        other: EventId,
    )
        requires running { IsRunningIn event process self.old.control }
        requires kept { IsKept self.old.shared.happen.events condition }
        ensures becomes { Becomes B.body
            (effect.effect (plan_of B.body self.old) process (op.Has condition other))
            self.old self.new }
        ensures resources { KeepsResources self.old self.new }
    {
        let has = self.shared.happen().has(condition, other);
        self.tell(event, process, Signal::Number(number_of(has)));
    }

    /// An event is checked, which is a member of a condition.
    #[inline(never)]
    pub(crate) fn check(&mut self, condition: EventId, event: EventId)
        requires kept { IsKept self.old.shared.happen.events event }
        requires checks { ChecksMember condition event self.old.shared.happen.events }
        ensures becomes { Becomes B.body
            (on_events (conditions.check condition event)) self.old self.new }
        ensures resources { KeepsResources self.old self.new }
    {
        self.shared.happen_mut().check(condition, event);
    }

    /// A condition that is processed is built.
    #[inline(never)]
    pub(crate) fn build(&mut self, condition: EventId)
        requires builds { BuildsCondition condition self.old.shared.happen.events }
        ensures becomes { Becomes B.body
            (on_events (conditions.build condition)) self.old self.new }
        ensures resources { KeepsResources self.old self.new }
    {
        self.shared.happen_mut().build(condition);
    }
}
