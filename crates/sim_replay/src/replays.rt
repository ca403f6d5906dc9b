ghost use Rattle.std.specs.Prelude.{◌≡◌};
ghost use Rattle.sim_replay.specs.Sections.{with_journal};
ghost use Rattle.sim_script_model.specs.Scenarios.{summary, trace};

/// A run of a scenario on a journal has the lines, and comes to what, the same run has of the scenario with that journal.
pub fn replayed_runs()
    ensures lines { (s : _) (seed : _) (journal : _) (limit : _) →
        trace (with_journal journal s) seed journal limit ≡ trace s seed journal limit }
    ensures summary { (s : _) (seed : _) (journal : _) (limit : _) →
        summary (with_journal journal s) seed journal limit ≡ summary s seed journal limit }
{}
