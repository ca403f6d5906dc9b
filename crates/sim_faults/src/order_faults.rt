//! Faults of order.
ghost use Rattle.std.specs.Prelude.{◌≡◌};
ghost use Rattle.sim_language.specs.OrderFaults.{bad_header, bad_order, misplaced};

use crate::above::Above;
use crate::blocks::{first_literal, first_word};
use sim_language::Form;
use sim_lines::{Operand, Saying, TextLine};

/// Whether the line should be one of the two header lines, and is not.
pub fn bad_header(above: &Above<'_>, line: &TextLine<'_>) -> bool
    ensures { result ≡ bad_header above.now line.now }
{
    match above.worded() {
        0 => !matches!(
            line.saying(),
            Saying::Says(Form::Scenario | Form::ScenarioTwo)
        ),
        1 => !line.begins_with(b"until"),
        _ => false,
    }
}

/// Whether the line is out of the order of a text, or of a process and its blocks.
pub fn misplaced(above: &Above<'_>, form: Form, slots: &[Operand<'_>]) -> bool
    ensures { result ≡ misplaced above.now form slots.now }
{
    let blocks = above.blocks();
    match form {
        Form::Scenario | Form::ScenarioTwo => above.worded() != 0,
        Form::UntilEmpty | Form::UntilTime | Form::UntilEvent => above.worded() != 1,
        Form::Seed => above.worded() != 2,
        Form::Resource
        | Form::Priority
        | Form::Preemptive
        | Form::Container
        | Form::Store
        | Form::PStore
        | Form::FStore
        | Form::Event
        | Form::Port => blocks.in_process() || above.process_or_start(),
        Form::Process => blocks.in_process() || above.start(),
        Form::Start | Form::Journal | Form::Poster => blocks.in_process(),
        Form::After => !above.journal(),
        Form::Post => false,
        Form::Else => !blocks.awaits_else(),
        Form::Catch => !blocks.awaits_catch(),
        Form::End => !blocks.in_process() || blocks.awaits_catch(),
        Form::Break => !blocks.has_loop(),
        Form::Release => !blocks.has_with(first_word(slots)),
        _ => !blocks.in_process(),
    }
}

/// Whether a journal entry falls behind the one above it.
pub fn bad_order(above: &Above<'_>, form: Form, slots: &[Operand<'_>]) -> bool
    ensures { result ≡ bad_order above.now form slots.now }
{
    if !matches!(form, Form::After) {
        return false;
    }
    match (above.after(), first_literal(slots)) {
        (Some(last), Some(next)) => next < last,
        _ => false,
    }
}
