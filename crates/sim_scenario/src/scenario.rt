//! A scenario, as a text says it.
ghost use Rattle.std.specs.Prelude.{◌≡◌, IsTrue, Ok};
ghost use Rattle.sim_language.specs.Reads.{reads};
ghost use Rattle.sim_language.specs.WellFormed.{is_well_formed};
ghost use Rattle.sim_script_model.specs.Needs.{last_variable, most_frames, most_open_scopes};
ghost use Rattle.sim_scenario.specs.Parts.{of_parts};

use crate::needs::{Needs, most_params, needs_of};
use sim_types::{Arrival, Kind, List, Name, Post, Setup, Stmt};
use std::marker::Model;

/// What a text says that is a scenario. There is no other: each was read from a text. So it is well-formed: its numbers
/// are in their ranges, each variable has its class, its blocks are closed, and its statements go on where they should.
#[derive(Drop)]
pub struct Scenario {
    setup: Setup,
    seed: u64,
    port_names: List<Name>,
    kinds: List<Kind>,
    code: List<Stmt>,
    journal: List<Arrival>,
    posters: List<List<Post>>,
    /// The last variable that is given a value.
    last_variable: usize,
    /// The frames of a script where most of its blocks are open.
    most_frames: usize,
    /// The scopes of a script where most of them are open.
    most_open_scopes: usize,
}

impl Model for Scenario {
    ghost use Rattle.sim_types.specs.Scenarios.{ScenarioOf};
    ghost use Rattle.sim_scenario.specs.Parts.{IsRead, HasNeeds, of_parts};

    ghost Value = { ScenarioOf };

    ghost view = { λ a. of_parts a.setup a.seed a.port_names a.kinds a.code a.journal a.posters };

    ghost invariant = { λ a.
        let parts = of_parts a.setup a.seed a.port_names a.kinds a.code a.journal a.posters in
        IsRead parts × HasNeeds parts a.last_variable a.most_frames a.most_open_scopes };
}

impl Scenario {
    /// The scenario of these parts, which is what the text says.
    pub fn new(
        _text: &[u8],
        setup: Setup,
        seed: u64,
        port_names: List<Name>,
        kinds: List<Kind>,
        code: List<Stmt>,
        journal: List<Arrival>,
        posters: List<List<Post>>,
    ) -> Scenario
        requires { let parts = of_parts setup seed port_names kinds code journal posters in
            reads _text.now ≡ Ok parts }
        ensures { result ≡ of_parts setup seed port_names kinds code journal posters }
    {
        let Needs {
            variable,
            frames,
            scopes,
        } = needs_of(code.as_slice());
        let last_variable = most_params(kinds.as_slice()).max(variable).min(63);
        Scenario {
            setup,
            seed,
            port_names,
            kinds,
            code,
            journal,
            posters,
            last_variable,
            most_frames: frames,
            most_open_scopes: scopes,
        }
    }

    /// What a kernel is opened with.
    pub fn setup(&self) -> &Setup
        ensures setup { result.now ≡ self.now.setup }
        ensures well_formed { IsTrue (is_well_formed self.now) }
    {
        &self.setup
    }

    /// The seed of the random words.
    pub fn seed(&self) -> u64
        ensures { result ≡ self.now.seed }
    {
        self.seed
    }

    /// The names of the ports, by their numbers.
    pub fn port_names(&self) -> &[Name]
        ensures names { result.now ≡ self.now.port_names }
        ensures well_formed { IsTrue (is_well_formed self.now) }
    {
        self.port_names.as_slice()
    }

    /// The process kinds.
    pub fn kinds(&self) -> &[Kind]
        ensures { result.now ≡ self.now.kinds }
    {
        self.kinds.as_slice()
    }

    /// The statements of all process kinds.
    pub fn code(&self) -> &[Stmt]
        ensures code { result.now ≡ self.now.code }
        ensures well_formed { IsTrue (is_well_formed self.now) }
    {
        self.code.as_slice()
    }

    /// What arrives from outside, in its order.
    pub fn journal(&self) -> &[Arrival]
        ensures journal { result.now ≡ self.now.journal }
        ensures well_formed { IsTrue (is_well_formed self.now) }
    {
        self.journal.as_slice()
    }

    /// What each poster posts, by the numbers of the posters.
    pub fn posters(&self) -> &[List<Post>]
        ensures posters { result.now ≡ self.now.posters }
        ensures well_formed { IsTrue (is_well_formed self.now) }
    {
        self.posters.as_slice()
    }

    /// The last variable that is given a value.
    pub fn last_variable(&self) -> usize
        ensures { result ≡ last_variable self.now }
    {
        self.last_variable
    }

    /// The frames of a script where most of its blocks are open.
    pub fn most_frames(&self) -> usize
        ensures { result ≡ most_frames self.now.code }
    {
        self.most_frames
    }

    /// The scopes of a script where most of them are open.
    pub fn most_open_scopes(&self) -> usize
        ensures { result ≡ most_open_scopes self.now.code }
    {
        self.most_open_scopes
    }
}
