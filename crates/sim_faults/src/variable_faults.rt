//! Faults of variables.
ghost use Rattle.std.specs.Prelude.{◌≡◌};
ghost use Rattle.sim_types.specs.Setups.{is_class};
ghost use Rattle.sim_language.specs.VariableFaults.{class_clash, clashes, is_unset, is_variable, role_takes, unset};

use crate::above::Above;
use crate::line_in_text::LineInText;
use sim_language::Role;
use sim_lines::Operand;
use sim_types::Class;
use sim_words::Names;

/// Whether the line gives or uses a variable with another class than its own.
pub fn class_clash(place: &LineInText<'_, '_>, slots: &[Operand<'_>]) -> bool
    ensures { result ≡ class_clash place.now slots.now }
{
    let above = place.above();
    let variables = place.variables();
    slots.iter().any(|slot| is_variable(above, slot) && clashes(variables, slot))
}

/// Whether the line uses a variable that no line gives.
pub fn unset(place: &LineInText<'_, '_>, slots: &[Operand<'_>]) -> bool
    ensures { result ≡ unset place.now slots.now }
{
    let above = place.above();
    let variables = place.variables();
    slots.iter().any(|slot| is_variable(above, slot) && is_unset(variables, slot))
}

/// Whether the operand is a variable, and no literal, fixed word, `now`, `val`, `me` or named event.
fn is_variable(above: &Above<'_>, slot: &Operand<'_>) -> bool
    ensures { result ≡ is_variable above.now slot.now }
{
    match slot.role() {
        Role::Gives(_) => true,
        Role::Value => !slot.is_now_or_val(),
        Role::Refers(reference) => {
            let is_me = reference.takes_me() && slot.is_me();
            !(is_me || reference.takes_named() && above.declared().is_event(slot.word()))
        }
        _ => false,
    }
}

/// Whether the word is a variable of a class that the operand does not take.
fn clashes(variables: &Names<'_, Class>, slot: &Operand<'_>) -> bool
    ensures { result ≡ clashes variables.now slot.now }
{
    match variables.get(slot.word()) {
        Some(class) => !role_takes(slot.role(), class),
        None => false,
    }
}

/// Whether no line gives the word.
fn is_unset(variables: &Names<'_, Class>, slot: &Operand<'_>) -> bool
    ensures { result ≡ is_unset variables.now slot.now }
{
    variables.get(slot.word()).is_none()
}

/// Whether a variable of the class may stand there.
fn role_takes(role: Role, class: Class) -> bool
    ensures { result ≡ role_takes role class }
{
    match role {
        Role::Gives(given) => is_class(given, class),
        Role::Value => is_class(Class::Number, class),
        Role::Refers(reference) => reference.takes_class(class),
        _ => true,
    }
}

fn is_class(one: Class, other: Class) -> bool
    ensures { result ≡ is_class one other }
{
    matches!(
        (one, other),
        (Class::Number, Class::Number)
            | (Class::Event, Class::Event)
            | (Class::Cond, Class::Cond)
            | (Class::Proc, Class::Proc)
            | (Class::Request, Class::Request)
            | (Class::Move, Class::Move)
    )
}
