//! What a line says by itself.
ghost use Rattle.std.specs.Prelude.{◌≡◌, [], IfOk, Some};
ghost use Rattle.std.specs.List.{list_any};
ghost use Rattle.sim_language.specs.Sayings.{begins_with, context_of, form_in, is_bad_name, is_bad_number, said_by_form, said_by_slots, saying};
ghost use Rattle.sim_lines.specs.LineOf.{saying_of};

use crate::cutting::is_text;
use crate::line::Saying;
use crate::operand::Operand;
use crate::operands::fit;
use crate::setting::Setting;
use sim_language::{Form, Section, Version};
use sim_types::FaultKind;
use sim_words::{Words, begins, operands};
use std::alloc::AllocError;

/// How many bytes a cut line has, at most.
const LONGEST_LINE: usize = 200;

/// What a cut line with these words says in this setting. Where it says a form, the slots are filled by its operands.
pub fn say<'t>(
    slots: &mut Vec<Operand<'t>>,
    setting: &Setting<'_, '_>,
    line: &[u8],
    words: &Words<'t>,
) -> Result<Saying, AllocError>
    requires { slots.old.items ≡ [] }
    ensures { IfOk result (λ what.
        saying_of what slots.new.items ≡ saying setting.now line.now words.now) }
{
    if words.is_empty() {
        return Ok(Saying::Blank);
    }
    if !is_text(line) {
        return Ok(Saying::Wrong(FaultKind::NotText));
    }
    if line.len() > LONGEST_LINE {
        return Ok(Saying::Wrong(FaultKind::LineTooLong));
    }
    match form_in(setting, words) {
        Some(form) => say_form(slots, setting, form, words),
        None => Ok(Saying::Wrong(FaultKind::UnknownWord)),
    }
}

/// What words say that begin this form.
fn say_form<'t>(
    slots: &mut Vec<Operand<'t>>,
    setting: &Setting<'_, '_>,
    form: Form,
    words: &Words<'t>,
) -> Result<Saying, AllocError>
    requires { slots.old.items ≡ [] }
    ensures { IfOk result (λ what.
        saying_of what slots.new.items
        ≡ said_by_form (context_of setting.now) (Some form) words.now) }
{
    if fit(slots, setting, form.shape(), &operands(form, words))? {
        Ok(say_operands(setting.whole().version(), form, slots))
    } else {
        Ok(Saying::Wrong(FaultKind::BadShape))
    }
}

/// What operands say that have the shape of this form.
fn say_operands(version: Version, form: Form, slots: &[Operand<'_>]) -> Saying
    ensures { saying_of result slots.now ≡ said_by_slots version form (Some slots.now) }
{
    if has_bad_number(slots) {
        Saying::Wrong(FaultKind::BadNumber)
    } else if has_bad_name(version, slots) {
        Saying::Wrong(FaultKind::BadName)
    } else {
        Saying::Says(form)
    }
}

fn has_bad_number(slots: &[Operand<'_>]) -> bool
    ensures { result ≡ list_any is_bad_number slots.now }
{
    slots.iter().any(|slot| slot.is_bad_number())
}

fn has_bad_name(version: Version, slots: &[Operand<'_>]) -> bool
    ensures { result ≡ list_any (is_bad_name version) slots.now }
{
    slots.iter().any(|slot| slot.is_bad_name(version))
}

/// The form that the words of a line begin in this setting, if they begin one.
fn form_in(setting: &Setting<'_, '_>, words: &Words<'_>) -> Option<Form>
    ensures { result ≡ form_in setting.now.whole.version setting.now.section words.now }
{
    match setting.section() {
        Section::Plain => begins(setting.whole().version(), words),
        Section::InJournal if begins_with(words, b"after") => Some(Form::After),
        Section::InJournal => None,
        Section::InPosters if begins_with(words, b"poster") => Some(Form::Poster),
        Section::InPosters => Some(Form::Post),
    }
}

/// Whether the first of the words is this one.
pub fn begins_with(words: &Words<'_>, word: &[u8]) -> bool
    ensures { result ≡ begins_with word.now words.now }
{
    match words.first() {
        Some(first) => first == word,
        None => false,
    }
}
