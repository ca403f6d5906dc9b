//! The limits of a text.
ghost use Rattle.std.specs.Prelude.{◌≡◌, [], ◌∷◌};
ghost use Rattle.sim_language.specs.Forms.{declares_sort};
ghost use Rattle.sim_language.specs.LimitFaults.{form_is_full, gives_too_many, sort_is_full, too_many};

use crate::above::Above;
use crate::line_in_text::LineInText;
use crate::variables::variable_number;
use sim_language::{Form, Role};
use sim_lines::Operand;
use sim_types::Class;
use sim_words::{Names, parameter_name};

/// Whether the line passes a limit.
pub fn too_many(place: &LineInText<'_, '_>, form: Form, slots: &[Operand<'_>]) -> bool
    ensures { result ≡ too_many place.now form slots.now }
{
    let above = place.above();
    place.number() > 65_536
        || sort_is_full(above, form)
        || form_is_full(above, form, slots)
        || gives_too_many(place.variables(), slots)
}

/// Whether the form declares a name, and there are as many of its sort as may be.
fn sort_is_full(above: &Above<'_>, form: Form) -> bool
    ensures { result ≡ sort_is_full above.now (declares_sort form) }
{
    match form.sort() {
        Some(sort) => sort.most() <= above.declared().count(sort),
        None => false,
    }
}

/// Whether the line has too many operands, or there are as many of its form as may be.
fn form_is_full(above: &Above<'_>, form: Form, slots: &[Operand<'_>]) -> bool
    ensures { result ≡ form_is_full above.now form slots.now }
{
    match form {
        Form::Process => slots.len() > 9,
        Form::NewAll | Form::NewAny => slots.len() > 17,
        Form::Poster => above.posters() >= 16,
        Form::After | Form::Post => above.entries() >= 65_536,
        _ => form.opens_block() && above.blocks().len() >= 32,
    }
}

/// Whether the line gives a variable that is none of the first 64 of its process, or has such a parameter.
fn gives_too_many(variables: &Names<'_, Class>, slots: &[Operand<'_>]) -> bool
    ensures { result ≡ gives_too_many variables.now slots.now }
{
    slots.iter().any(|slot| is_one_too_many(variables, slot))
}

/// Whether the operand is such a variable or parameter.
fn is_one_too_many(variables: &Names<'_, Class>, slot: &Operand<'_>) -> bool
    ensures { result ≡ gives_too_many variables.now (slot.now ∷ []) }
{
    match slot.role() {
        Role::Gives(_) => variable_number(variables, slot.word()) >= 64,
        Role::Parameter => variable_number(variables, parameter_name(slot.word())) >= 64,
        _ => false,
    }
}
