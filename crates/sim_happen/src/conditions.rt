//! Conditions: events that wait for all of some events, or for one (SimPy's "Condition events").
ghost use Rattle.std.specs.Prelude.{◌≡◌, ◌↔◌, ℕ, ◌+◌, ◌<◌, ◌≤◌, ◌^◌, pos, IsErr, IfOk, OnOk, OnErr, length, None, IsSome, IsTrue, IsFalse, All, fold, nat_lt, if◌then◌else◌};
ghost use Rattle.std.specs.List.{list_any, sum_by};
ghost use Rattle.sim_machine.specs.Conditions as conditions;
ghost use Rattle.sim_machine.specs.Events as events;
ghost use Rattle.sim_machine.specs.State.{Calendar, Every, Either};
ghost use Rattle.sim_machine.specs.Triggering as triggering;
ghost use Rattle.sim_happen_model.specs.TableOf.{IsKept, kept_at, kept_condition};
ghost use Rattle.sim_happen_model.specs.HappenOf.{AreHeldByFew, KeepsRoom, one_more_each, holding};
ghost use Rattle.sim_happen_model.specs.Holders.{AreOwed};
ghost use Rattle.sim_happen_model.specs.Sound.{weight_in};
ghost use Rattle.sim_happen_model.specs.Joining.{IsJoining, TakesCallbacks, HasRoomFor, TakesRoomFor};
ghost use Rattle.sim_happen_model.specs.Shows.{Shows, Turns, Follows};

use crate::fault::TooWide;
use crate::happen::Happen;
use crate::triggering::NORMAL;
use sim_events::MOST_WEIGHT;
use sim_types::{Callback, EventId, Members, Outcome, Throw};

impl Happen {
    // The condition succeeds once it is met.
    fn succeed_if_met(&mut self, condition: EventId)
        requires kept { IsKept self.old.events condition }
        requires pending { (kept_at self.old.events condition).event.outcome ≡ None }
        requires not_cancelled { IsFalse (kept_at self.old.events condition).event.cancelled }
        requires condition { IsSome (kept_at self.old.events condition).event.condition }
        ensures follows { Follows (λ c. if conditions.is_met (conditions.condition_at c condition)
            then triggering.succeed condition (pos 0) c else c) self.old self.new }
        ensures spare { self.new.spare ≡ self.old.spare }
    {
        if self.is_met(condition) {
            let _triggered = self.put_now(condition, Outcome::Ok(0), NORMAL);
        }
    }

    // A member that failed is defused, and the condition fails with what it threw.
    fn fail_with(&mut self, condition: EventId, member: EventId, what: Throw)
        requires kept { IsKept self.old.events condition }
        requires pending { (kept_at self.old.events condition).event.outcome ≡ None }
        requires not_cancelled { IsFalse (kept_at self.old.events condition).event.cancelled }
        requires member { IsKept self.old.events member }
        ensures follows { Follows
            (λ c. triggering.fail condition what (events.defuse member c)) self.old self.new }
        ensures spare { self.new.spare ≡ self.old.spare }
    {
        self.defuse(member);
        let _triggered = self.put_now(condition, Outcome::Fail(what), NORMAL);
    }

    // What a member that was just counted makes of a pending condition.
    fn judge(&mut self, condition: EventId, member: EventId, outcome: Option<Outcome>)
        requires kept { IsKept self.old.events condition }
        requires pending { (kept_at self.old.events condition).event.outcome ≡ None }
        requires not_cancelled { IsFalse (kept_at self.old.events condition).event.cancelled }
        requires condition { IsSome (kept_at self.old.events condition).event.condition }
        requires member { IsKept self.old.events member }
        ensures follows { Follows (conditions.judge condition member outcome) self.old self.new }
        ensures spare { self.new.spare ≡ self.old.spare }
    {
        match outcome {
            Some(Outcome::Fail(what)) => self.fail_with(condition, member, what),
            Some(Outcome::Ok(_)) => self.succeed_if_met(condition),
            None => self.succeed_if_met(condition),
        }
    }

    // A member of a pending condition was processed.
    fn check_pending(&mut self, condition: EventId, member: EventId)
        requires kept { IsKept self.old.events condition }
        requires pending { (kept_at self.old.events condition).event.outcome ≡ None }
        requires not_cancelled { IsFalse (kept_at self.old.events condition).event.cancelled }
        requires condition { IsSome (kept_at self.old.events condition).event.condition }
        requires few { let x = kept_condition self.old.events condition in
            x.count < length x.members }
        requires member { IsKept self.old.events member }
        ensures follows { Follows (conditions.check condition member) self.old self.new }
        ensures spare { self.new.spare ≡ self.old.spare }
    {
        let outcome = self.outcome(member);
        self.count_member(condition);
        self.judge(condition, member, outcome);
    }

    // A member of a condition was processed.
    fn check_condition(&mut self, condition: EventId, member: EventId)
        requires kept { IsKept self.old.events condition }
        requires not_cancelled { IsFalse (kept_at self.old.events condition).event.cancelled }
        requires condition { IsSome (kept_at self.old.events condition).event.condition }
        requires counts { (kept_at self.old.events condition).event.outcome ≡ None
            → let x = kept_condition self.old.events condition in x.count < length x.members }
        requires member { IsKept self.old.events member }
        ensures follows { Follows (conditions.check condition member) self.old self.new }
        ensures spare { self.new.spare ≡ self.old.spare }
    {
        match self.outcome(condition) {
            None => self.check_pending(condition, member),
            Some(_) => {}
        }
    }

    /// A member of a condition was processed. A condition that is not pending counts nothing and defuses nothing.
    pub fn check(&mut self, condition: EventId, member: EventId)
        requires condition { IsKept self.old.events condition }
        requires not_cancelled { IsFalse (kept_at self.old.events condition).event.cancelled }
        requires kept { IsKept self.old.events member }
        requires member { IsTrue (list_any (events.is_same member)
            (kept_condition self.old.events condition).members) }
        requires counts { (kept_at self.old.events condition).event.outcome ≡ None
            → let x = kept_condition self.old.events condition in x.count < length x.members }
        ensures follows { Follows (conditions.check condition member) self.old self.new }
        ensures spare { self.new.spare ≡ self.old.spare }
    {
        self.check_condition(condition, member);
    }

    /// Whether an event stands in the value of a processed condition that is ok (SimPy's `event in value`).
    pub fn has(&self, condition: EventId, event: EventId) -> bool
        requires kept { IsKept self.now.events condition }
        ensures has { (c : Calendar) → Shows self.now c
            → result ≡ conditions.has condition event c }
    {
        self.is_processed(condition)
            && !self.is_failed(condition)
            && self.is_condition(condition)
            && self.has_in_value(condition, event)
    }

    // What an event weighs, down to this depth.
    fn weigh(&self, depth: u32, event: EventId) -> u64
        requires kept { IsKept self.now.events event }
        requires few { depth ≤ conditions.most_weight + 1 }
        ensures weight { result ≡ weight_in depth self.now.events event }
        ensures light { result ≤ conditions.most_weight }
    {
        let mut weight = 1;
        if depth > 0 {
            let members = self.members(event);
            for member in members.as_slice() {
                weight += self.weigh(depth - 1, *member);
            }
        }
        weight
    }

    // Whether a condition of these members would weigh too much.
    fn is_too_wide(&self, members: &Members) -> bool
        requires kept { All (IsKept self.now.events) members.now }
        ensures { result ≡ nat_lt conditions.most_weight (1 + sum_by
            (weight_in conditions.most_weight self.now.events) members.now) }
    {
        let mut weight = 1;
        for member in members.as_slice() {
            weight += self.weigh(MOST_WEIGHT as u32, *member);
        }
        weight > MOST_WEIGHT as u64
    }

    // Each of these events has a holder more.
    fn hold_each(&mut self, members: &Members)
        requires kept { All (IsKept self.old.events) members.now }
        requires few { AreHeldByFew self.old.events }
        ensures held { Turns (λ c. c) (one_more_each members.now) self.old self.new }
        ensures owed { AreOwed members.now self.new.events }
        ensures kept { All (IsKept self.new.events) members.now }
        ensures made { length self.new.events ≡ length self.old.events }
        ensures weights { (depth : ℕ) (e : EventId) → weight_in depth self.new.events e
            ≡ weight_in depth self.old.events e }
        ensures spare { self.new.spare ≡ self.old.spare }
    {
        self.tell();
        for member in members.as_slice() {
            self.add_holder(*member);
        }
    }

    // A member of a condition that is made joins it: a processed one is checked at once.
    fn join(&mut self, condition: EventId, member: EventId)
        requires kept { IsKept self.old.events condition }
        requires not_cancelled { IsFalse (kept_at self.old.events condition).event.cancelled }
        requires condition { IsSome (kept_at self.old.events condition).event.condition }
        requires few { let x = kept_condition self.old.events condition in
            x.count < length x.members }
        requires member { IsKept self.old.events member }
        requires spare { 0 < self.old.spare.callbacks }
        ensures follows { Follows (λ c. conditions.join_member condition c member)
            self.old self.new }
        ensures room { TakesCallbacks 1 self.old self.new }
    {
        if self.is_processed(member) {
            self.check_condition(condition, member);
        } else {
            self.register(member, Callback::Check(condition));
        }
    }

    // The members of a condition that is made join it.
    fn join_each(&mut self, condition: EventId, members: &Members)
        requires kept { IsKept self.old.events condition }
        requires joining { IsJoining 0 members.now (kept_at self.old.events condition).event }
        requires members { All (IsKept self.old.events) members.now }
        requires spare { length members.now ≤ self.old.spare.callbacks }
        ensures follows { Follows
            (λ c. fold (conditions.join_member condition) c members.now) self.old self.new }
        ensures unprocessed { IsFalse (kept_at self.new.events condition).event.processed }
        ensures room { TakesCallbacks (length members.now) self.old self.new }
    {
        for member in members.as_slice() {
            self.join(condition, *member);
        }
    }

    // All members of a condition that is made join it, and then it waits to be built; with none of them it succeeds at once.
    fn join_all(&mut self, condition: EventId, members: &Members)
        requires kept { IsKept self.old.events condition }
        requires pending { (kept_at self.old.events condition).event.outcome ≡ None }
        requires joining { IsJoining 0 members.now (kept_at self.old.events condition).event }
        requires members { All (IsKept self.old.events) members.now }
        requires spare { length members.now + 1 ≤ self.old.spare.callbacks }
        ensures follows { Follows (conditions.join_members condition members.now)
            self.old self.new }
        ensures room { TakesCallbacks (length members.now + 1) self.old self.new }
    {
        if members.as_slice().is_empty() {
            let _triggered = self.put_now(condition, Outcome::Ok(0), NORMAL);
        } else {
            self.join_each(condition, members);
            self.register(condition, Callback::Build(condition));
        }
    }

    // A condition is made, which holds its members.
    fn make_condition(&mut self, for_all: bool, members: &Members) -> EventId
        requires members { All (IsKept self.old.events) members.now }
        requires few { AreHeldByFew self.old.events }
        requires spare { HasRoomFor (length members.now) self.old.spare }
        requires number { length self.old.events < 2 ^ 62 }
        requires light { 1 + sum_by (weight_in conditions.most_weight self.old.events)
            members.now ≤ conditions.most_weight }
        ensures id { result.0 ≡ length self.old.events }
        ensures made { Turns
            (conditions.make_condition (if for_all then Every else Either) members.now)
            (holding members.now) self.old self.new }
        ensures room { TakesRoomFor (length members.now) self.old self.new }
    {
        self.hold_each(members);
        let condition = self.add_condition(for_all, members.copied());
        self.join_all(condition, members);
        condition
    }

    // A condition is made, unless it would weigh too much.
    fn make_unless_wide(&mut self, for_all: bool, members: Members) -> Result<EventId, TooWide>
        requires members { All (IsKept self.old.events) members }
        requires few { AreHeldByFew self.old.events }
        requires spare { HasRoomFor (length members) self.old.spare }
        requires number { length self.old.events < 2 ^ 62 }
        ensures wide { (c : Calendar) → Shows self.old c
            → IsErr result ↔ IsTrue (conditions.is_too_wide members c) }
        ensures id { IfOk result (λ e. e.0 ≡ length self.old.events) }
        ensures ok { OnOk result (Turns
            (conditions.make_condition (if for_all then Every else Either) members)
            (holding members) self.old self.new) }
        ensures room { OnOk result (TakesRoomFor (length members) self.old self.new) }
        ensures err { OnErr result (self.new ≡ self.old) }
    {
        self.tell();
        if self.is_too_wide(&members) {
            Err(TooWide)
        } else {
            Ok(self.make_condition(for_all, &members))
        }
    }

    /// A condition that waits for all of its members (SimPy's AllOf). It holds them for as long as it is kept.
    pub fn all_of(&mut self, members: Members) -> Result<EventId, TooWide>
        requires members { All (IsKept self.old.events) members }
        requires few { AreHeldByFew self.old.events }
        requires spare { HasRoomFor (length members) self.old.spare }
        requires number { length self.old.events < 2 ^ 62 }
        ensures wide { (c : Calendar) → Shows self.old c
            → IsErr result ↔ IsTrue (conditions.is_too_wide members c) }
        ensures id { IfOk result (λ e. e.0 ≡ length self.old.events) }
        ensures ok { OnOk result (Turns (conditions.make_condition Every members)
            (holding members) self.old self.new) }
        ensures room { OnOk result (TakesRoomFor (length members) self.old self.new) }
        ensures err { OnErr result (self.new ≡ self.old) }
    {
        self.make_unless_wide(true, members)
    }

    /// A condition that waits for one of its members (SimPy's AnyOf). It holds them for as long as it is kept.
    pub fn any_of(&mut self, members: Members) -> Result<EventId, TooWide>
        requires members { All (IsKept self.old.events) members }
        requires few { AreHeldByFew self.old.events }
        requires spare { HasRoomFor (length members) self.old.spare }
        requires number { length self.old.events < 2 ^ 62 }
        ensures wide { (c : Calendar) → Shows self.old c
            → IsErr result ↔ IsTrue (conditions.is_too_wide members c) }
        ensures id { IfOk result (λ e. e.0 ≡ length self.old.events) }
        ensures ok { OnOk result (Turns (conditions.make_condition Either members)
            (holding members) self.old self.new) }
        ensures room { OnOk result (TakesRoomFor (length members) self.old self.new) }
        ensures err { OnErr result (self.new ≡ self.old) }
    {
        self.make_unless_wide(false, members)
    }
}
