//! The commands of the program.

use sim_models::Model;

/// A command of the program, with its numbers.
#[derive(Clone, Copy)]
pub enum Command {
    /// Whether the text is a scenario.
    Check,
    /// The trace of the text's run, of so many units at most.
    Run(u32),
    /// What so many runs of the text come to, each of so many units at most.
    Batch { count: u32, limit: u32 },
    /// What is measured at each resource over the text's run, of so many units at most.
    Watch(u32),
    /// Whether the trace after the text's scenario is that of its run, of so many units at most.
    Verify(u32),
    /// What the run of a machine shop with so many machines comes to. No text is read.
    Load(u32),
    /// The trace of the run of a model that is written by hand, of so many units at most. No text is read.
    Native(Model, u32),
}

/// Runs of a text that are hosted as futures on one thread, each of so many units at most.
#[derive(Clone, Copy)]
pub struct HostedRuns {
    pub count: u32,
    pub limit: u32,
}
