//! The fault of a line, and of the end of a text.
ghost use Rattle.std.specs.Prelude.{◌≡◌, find};
ghost use Rattle.sim_language.specs.Faults.{applies, fault_at, fault_past};
ghost use Rattle.sim_language.specs.Sayings.{Says};
ghost use Rattle.sim_faults.specs.FormKinds.{form_kinds};

use crate::above::Above;
use crate::limit_faults::too_many;
use crate::line_in_text::LineInText;
use crate::name_faults::{duplicate, unknown_name, wrong_kind};
use crate::order_faults::{bad_header, bad_order, misplaced};
use crate::variable_faults::{class_clash, unset};
use sim_language::Form;
use sim_lines::{Operand, ProcessLines, Saying};
use sim_types::FaultKind;

/// What is wrong with a line: the first kind that applies.
pub fn fault_at(heads: &ProcessLines<'_>, place: &LineInText<'_, '_>) -> Option<FaultKind>
    ensures { result ≡ fault_at heads.now place.now }
{
    let (above, line) = (place.above(), place.line());
    match line.saying() {
        Saying::Blank => None,
        Saying::Wrong(kind @ (FaultKind::NotText | FaultKind::LineTooLong)) => Some(kind),
        _ if bad_header(above, line) => Some(FaultKind::BadHeader),
        Saying::Wrong(
            kind @ (FaultKind::UnknownWord
            | FaultKind::BadShape
            | FaultKind::BadNumber
            | FaultKind::BadName),
        ) => Some(kind),
        Saying::Wrong(_) => None,
        Saying::Says(form) => form_fault(heads, place, form, line.operands()),
    }
}

/// What is wrong with the form of a line and its operands.
fn form_fault(
    heads: &ProcessLines<'_>,
    place: &LineInText<'_, '_>,
    form: Form,
    slots: &[Operand<'_>],
) -> Option<FaultKind>
    requires { place.now.line.saying ≡ Says form slots.now }
    ensures { result ≡ find (λ kind. applies kind heads.now place.now) form_kinds }
{
    let above = place.above();
    if duplicate(above, form, slots) {
        Some(FaultKind::Duplicate)
    } else if unknown_name(heads, above, slots) {
        Some(FaultKind::UnknownName)
    } else if wrong_kind(heads, above, form, slots) {
        Some(FaultKind::WrongKind)
    } else if misplaced(above, form, slots) {
        Some(FaultKind::Misplaced)
    } else if too_many(place, form, slots) {
        Some(FaultKind::TooMany)
    } else if class_clash(place, slots) {
        Some(FaultKind::ClassClash)
    } else if unset(place, slots) {
        Some(FaultKind::Unset)
    } else if bad_order(above, form, slots) {
        Some(FaultKind::BadOrder)
    } else {
        None
    }
}

/// What is wrong where the text ends.
pub fn fault_past(above: &Above<'_>) -> Option<FaultKind>
    ensures { result ≡ fault_past above.now }
{
    if above.worded() < 2 {
        Some(FaultKind::BadHeader)
    } else if above.blocks().in_process() {
        Some(FaultKind::Unclosed)
    } else {
        None
    }
}
