ghost use Rattle.std.specs.Prelude.{◌≡◌, ◌↔◌, ◌<◌, length, true, false};
ghost use Rattle.sim_machine.specs.Events.{event_at, is_fail};
ghost use Rattle.sim_machine.specs.Conditions.{condition_at, value_of, build, has};
ghost use Rattle.sim_machine_law.specs.Members.{HasInValue};

/// Once an ok condition is built its value stays what was processed by then, before anyone who waits for it goes on; an event
/// is in the value of a processed condition that is ok, and of no other (SimPy's "Events", ConditionValue).
pub fn fixed_values()
    ensures fixed { (cond : _) (c : _) → cond.0 < length c.events →
        is_fail (event_at c cond).outcome ≡ false →
        (condition_at (build cond c) cond).value ≡ value_of cond c }
    ensures failed { (cond : _) (c : _) → is_fail (event_at c cond).outcome ≡ true →
        (condition_at (build cond c) cond).value ≡ (condition_at c cond).value }
    ensures had { (cond : _) (e : _) (c : _) → (has cond e c ≡ true) ↔ HasInValue c cond e }
{}
