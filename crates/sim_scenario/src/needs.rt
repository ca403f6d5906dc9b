//! What the scripts of a scenario need memory for.
ghost use Rattle.std.specs.Prelude.{◌≡◌, ◌+◌, ◌^◌, ◌<◌, ◌≤◌};
ghost use Rattle.sim_script_model.specs.Needs.{last_given, last_given_in, most_params, open_around, frame_change, most_frames, scope_change, most_open_scopes};

use sim_types::{Kind, Stmt};

/// What scripts that do these statements need.
pub(crate) struct Needs {
    /// The last variable that a statement gives a value.
    pub(crate) variable: usize,
    /// The frames of a script where most of its blocks are open.
    pub(crate) frames: usize,
    /// The scopes of a script where most of them are open.
    pub(crate) scopes: usize,
}

/// What scripts that do these statements need, from the last statement back to the first.
pub(crate) fn needs_of(code: &[Stmt]) -> Needs
    ensures variable { result.variable ≡ last_given_in code.now }
    ensures frames { result.frames ≡ most_frames code.now }
    ensures scopes { result.scopes ≡ most_open_scopes code.now }
{
    let mut variable = 0;
    let mut open_frames = 0;
    let mut frames = 0;
    let mut open_scopes = 0;
    let mut scopes = 0;
    for place in (0..code.len()).rev() {
        let statement = &code[place];
        variable = variable.max(last_given(statement));
        open_frames = frames_around(statement, open_frames);
        frames = frames.max(open_frames);
        open_scopes = scopes_around(statement, open_scopes);
        scopes = scopes.max(open_scopes);
    }
    Needs {
        variable,
        frames,
        scopes,
    }
}

/// The parameters of the kind that has most of them.
pub(crate) fn most_params(kinds: &[Kind]) -> usize
    ensures { result ≡ most_params kinds.now }
{
    let mut most = 0;
    for place in (0..kinds.len()).rev() {
        most = most.max(usize::from(kinds[place].params));
    }
    most
}

/// The last variable that a statement gives a value, or `val`.
fn last_given(statement: &Stmt) -> usize
    ensures { result ≡ last_given statement.now }
{
    match statement {
        Stmt::Let { to, .. }
        | Stmt::Count { to, .. }
        | Stmt::Timer { to, .. }
        | Stmt::Fresh { to }
        | Stmt::All { to, .. }
        | Stmt::Any { to, .. }
        | Stmt::Has { to, .. }
        | Stmt::With { to, .. }
        | Stmt::Draw { to, .. } => usize::from(*to),
        Stmt::Spawn { to, .. } | Stmt::Put { to, .. } | Stmt::Get { to, .. } => {
            usize::from(to.unwrap_or(0))
        }
        Stmt::Catch { kind, value, .. } => usize::from(*kind).max(usize::from(*value)),
        _ => 0,
    }
}

/// The frames of the blocks that are open before a statement, by those that are open behind it.
fn frames_around(statement: &Stmt, behind: usize) -> usize
    requires { behind < 2 ^ 63 }
    ensures is { result ≡ open_around (frame_change statement.now) behind }
    ensures few { result ≤ behind + 1 }
{
    match statement {
        Stmt::With { .. } | Stmt::Loop { .. } | Stmt::Repeat { .. } | Stmt::Try { .. } => {
            behind.saturating_sub(1)
        }
        Stmt::Catch { .. } | Stmt::EndLoop { .. } | Stmt::EndRepeat { .. } | Stmt::EndWith => {
            behind + 1
        }
        Stmt::EndProcess => 0,
        _ => behind,
    }
}

/// The scopes that are open before a statement, by those that are open behind it.
fn scopes_around(statement: &Stmt, behind: usize) -> usize
    requires { behind < 2 ^ 63 }
    ensures is { result ≡ open_around (scope_change statement.now) behind }
    ensures few { result ≤ behind + 1 }
{
    match statement {
        Stmt::With { .. } => behind.saturating_sub(1),
        Stmt::EndWith => behind + 1,
        Stmt::EndProcess => 0,
        _ => behind,
    }
}
