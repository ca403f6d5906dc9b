ghost use Rattle.std.specs.Prelude.{◌≡◌, ℕ, ◌+◌, ◌++◌};
ghost use Rattle.sim_types.specs.Scenarios.{ScenarioOf};
ghost use Rattle.sim_replay.specs.Seeds.{with_seed};
ghost use Rattle.sim_script_model.specs.Scenarios.{replications};

/// A batch can be split by its seeds: the replications from a number on are the first ones of the scenario whose seed is as
/// much greater, and two parts one after the other are the whole.
pub fn parts_of_batches()
    ensures seeds { (s : ScenarioOf) (limit : ℕ) (from : ℕ) (count : ℕ) →
        replications s limit from count
        ≡ replications (with_seed (s.seed + from) s) limit 0 count }
    ensures whole { (s : ScenarioOf) (limit : ℕ) (first : ℕ) (further : ℕ) →
        replications s limit 0 (first + further)
        ≡ replications s limit 0 first ++ replications s limit first further }
{}
