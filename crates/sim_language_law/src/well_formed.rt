ghost use Rattle.std.specs.Prelude.{◌≡◌, IsTrue, Ok};
ghost use Rattle.sim_language.specs.Reads.{reads};
ghost use Rattle.sim_language.specs.WellFormed.{is_well_formed};

/// Each text that is read gives a well-formed scenario.
#[tactic(auto, using(crate::proofs::Scenarios::WellFormedTexts::read_well_formed))]
pub fn well_formed_scenarios()
    ensures { (text : _) (s : _) → reads text ≡ Ok s → IsTrue (is_well_formed s) }
{}
