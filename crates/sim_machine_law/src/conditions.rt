ghost use Rattle.std.specs.Prelude.{◌≡◌, ◌≢◌, ◌↔◌, ◌+◌, ◌<◌, [], ◌∷◌, ◌++◌, length, filter, All, AllPairs, true, false, Some};
ghost use Rattle.std.specs.List.{Contains};
ghost use Rattle.sim_types.specs.declared.event.Outcome.TheVariants as outcome;
ghost use Rattle.sim_machine.specs.State.{Every, Either};
ghost use Rattle.sim_machine.specs.Events.{event_at, is_pending, is_processed, is_fail};
ghost use Rattle.sim_machine.specs.Conditions.{is_condition, condition_at, members_of, first_places, value_of, check, build, has, most_weight, weight_of, is_too_wide};
ghost use Rattle.sim_machine_law.specs.Members.{IsLeafOf, IsCounting, HasInValue};

/// The value of a condition has exactly the processed events that it is made of, through conditions among its members, and
/// each once (SimPy's "Events", ConditionValue).
pub fn condition_values()
    ensures leaves { (c : _) (cond : _) (e : _) →
        Contains (value_of cond c) e ↔ (IsLeafOf c cond e × (is_processed c e ≡ true)) }
    ensures once { (c : _) (cond : _) → AllPairs (λ e f. e ≢ f) (value_of cond c) }

    // Of events that stand more than once the first place counts.
    ensures again { (es : _) (e : _) →
        Contains es e → first_places (es ++ e ∷ []) ≡ first_places es }
    ensures new { (es : _) (e : _) →
        ¬ Contains es e → first_places (es ++ e ∷ []) ≡ first_places es ++ e ∷ [] }
    ensures in_order { (c : _) (cond : _) → is_condition c cond ≡ true →
        All (λ e. is_condition c e ≡ false) (members_of c cond) →
        value_of cond c ≡ first_places (filter (is_processed c) (members_of c cond)) }
{}

/// A processed member counts where the condition is pending. One that is ok makes an AllOf succeed where it is the last to be
/// counted, an AnyOf at once; one that failed is defused and fails the condition with what it threw. A condition that is not
/// pending counts and defuses nothing (SimPy's "Events", Condition).
pub fn counted_members()
    ensures counts { (cond : _) (member : _) (c : _) (sort : _) → IsCounting c sort cond →
        (condition_at (check cond member c) cond).count ≡ (condition_at c cond).count + 1 }
    ensures all_of { (cond : _) (member : _) (c : _) (v : _) →
        IsCounting c Every cond → (event_at c member).outcome ≡ Some (outcome.Ok v) →
        (is_pending (check cond member c) cond ≡ false)
        ↔ ((condition_at c cond).count + 1 ≡ length (members_of c cond)) }
    ensures any_of { (cond : _) (member : _) (c : _) (v : _) →
        IsCounting c Either cond → (event_at c member).outcome ≡ Some (outcome.Ok v) →
        is_pending (check cond member c) cond ≡ false }
    ensures fails { (cond : _) (member : _) (c : _) (sort : _) (t : _) →
        IsCounting c sort cond → (event_at c member).outcome ≡ Some (outcome.Fail t) →
        (event_at (check cond member c) cond).outcome ≡ Some (outcome.Fail t) }
    ensures defuses { (cond : _) (member : _) (c : _) (sort : _) (t : _) → IsCounting c sort cond →
        (event_at c member).outcome ≡ Some (outcome.Fail t) → member.0 < length c.events →
        (event_at (check cond member c) member).defused ≡ true }
    ensures nothing { (cond : _) (member : _) (c : _) →
        is_pending c cond ≡ false → check cond member c ≡ c }
{}

/// A condition weighs one more than its members together, and an event that is no condition weighs one; a condition that
/// would weigh more than the most is refused (this project's own: SimPy has no such bound).
pub fn weights()
    ensures plain { (members : _) (c : _) → All (λ e. is_condition c e ≡ false) members →
        weight_of members c ≡ 1 + length members }
    ensures wide { (members : _) (c : _) →
        (is_too_wide members c ≡ true) ↔ (most_weight < weight_of members c) }
{}
