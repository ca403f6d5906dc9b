ghost use Rattle.std.specs.Prelude.{◌≡◌, Ok};
ghost use Rattle.sim_language.specs.Reads.{reads};
ghost use Rattle.sim_replay.specs.Sections.{text_with_journal, with_journal, CanBeJournal, IsWithinLimits};

/// A text's lines in front of its journal or posters, with a journal printed behind them, say what the text says, with that
/// journal and without posters.
pub fn texts_with_journals()
    ensures { (text : _) (s : _) (entries : _) →
        reads text ≡ Ok s → CanBeJournal s entries →
        IsWithinLimits s.port_names entries text →
        reads (text_with_journal s.port_names entries text) ≡ Ok (with_journal entries s) }
{}
