//! Which command the words say.
ghost use Rattle.std.specs.Prelude.{◌≡◌};
ghost use Rattle.sim_command.specs.Commands.{command, hosted_runs, is_on_text, live_limit, model_named, most_units};
ghost use Rattle.sim_language.specs.Numbers.{decimal_within};

use crate::commands::{Command, HostedRuns};
use crate::word::Word;
use sim_models::Model;
use sim_words::decimal_within;

/// How many runs a batch may have, at most.
const MOST_RUNS: u32 = 10_000;

/// How many runs may be hosted on one thread, at most: all of them are in memory at once.
const MOST_HOSTED: u32 = 64;

/// How many machines a generated shop may have, at most.
const MOST_MACHINES: u32 = 2_000;

/// How many units a run may make, at most.
#[tactic(auto, unfolding(crate::specs::Commands::most_units))]
pub fn most_units() -> u32
    ensures { result ≡ most_units }
{
    10_000_000
}

/// The command that the words say, if they say one.
pub fn command(words: &[Word]) -> Option<Command>
    ensures { result ≡ command words.now }
{
    match words {
        [name] if name.bytes() == b"check".as_slice() => Some(Command::Check),
        [name, number] if name.bytes() == b"run".as_slice() => {
            let limit = number_within(most_units(), number)?;
            Some(Command::Run(limit))
        }
        [name, number] if name.bytes() == b"watch".as_slice() => {
            let limit = number_within(most_units(), number)?;
            Some(Command::Watch(limit))
        }
        [name, number] if name.bytes() == b"verify".as_slice() => {
            let limit = number_within(most_units(), number)?;
            Some(Command::Verify(limit))
        }
        [name, number] if name.bytes() == b"load".as_slice() => {
            let size = number_within(MOST_MACHINES, number)?;
            Some(Command::Load(size))
        }
        [name, runs, units] if name.bytes() == b"batch".as_slice() => {
            let count = number_within(MOST_RUNS, runs)?;
            let limit = number_within(most_units(), units)?;
            Some(Command::Batch { count, limit })
        }
        [name, model, units] if name.bytes() == b"native".as_slice() => {
            let model = model_named(model)?;
            let limit = number_within(most_units(), units)?;
            Some(Command::Native(model, limit))
        }
        _ => None,
    }
}

/// How many units a live run may make, if the words ask for one.
pub fn live_limit(words: &[Word]) -> Option<u32>
    ensures { result ≡ live_limit words.now }
{
    match words {
        [name, number] if name.bytes() == b"live".as_slice() => {
            number_within(most_units(), number)
        }
        _ => None,
    }
}

/// The runs to be hosted, if the words ask for them.
pub fn hosted_runs(words: &[Word]) -> Option<HostedRuns>
    ensures { result ≡ hosted_runs words.now }
{
    match words {
        [name, runs, units] if name.bytes() == b"host".as_slice() => {
            let count = number_within(MOST_HOSTED, runs)?;
            let limit = number_within(most_units(), units)?;
            Some(HostedRuns { count, limit })
        }
        _ => None,
    }
}

impl Command {
    /// Whether a text is read for it.
    pub fn is_on_text(&self) -> bool
        ensures { result ≡ is_on_text self.now }
    {
        match self {
            Command::Check
            | Command::Run(_)
            | Command::Batch { .. }
            | Command::Watch(_)
            | Command::Verify(_) => true,
            Command::Load(_) | Command::Native(..) => false,
        }
    }
}

/// The model that the word names, if it names one.
fn model_named(word: &Word) -> Option<Model>
    ensures { result ≡ model_named word.now }
{
    match word.bytes() {
        name if name == b"bank".as_slice() => Some(Model::Bank),
        name if name == b"shop".as_slice() => Some(Model::Shop),
        name if name == b"wash".as_slice() => Some(Model::Wash),
        _ => None,
    }
}

/// The number that the word gives, from 1 to this one.
fn number_within(most: u32, word: &Word) -> Option<u32>
    ensures { result ≡ decimal_within 1 most word.now }
{
    let number = decimal_within(1, u64::from(most), word.bytes())?;
    Some(number as u32)
}
