//! Faults of names.
ghost use Rattle.std.specs.Prelude.{◌≡◌, ℕ, Option, map};
ghost use Rattle.std.specs.List.{list_any};
ghost use Rattle.sim_language.specs.declared.form.Form.{Form};
ghost use Rattle.sim_language.specs.Forms.{same_sort};
ghost use Rattle.sim_language.specs.Lines.{is_among};
ghost use Rattle.sim_language.specs.NameFaults.{arguments_wrong, behind_first, declares_again, duplicate, gives_again, hides_event, is_other, is_process_class, miscounts, names_other, names_unknown, not_taken, port_wrong, repeats, repeats_parameter, starts_wrong, takes_get, takes_not, takes_put, takes_request, unknown_name, wrong_kind};
ghost use Rattle.sim_language.specs.Variables.{given_by};

use crate::above::Above;
use crate::blocks::first_word;
use crate::given::Given;
use sim_language::{Ahead, Form, Role, Sort};
use sim_lines::{Operand, ProcessLines};
use sim_types::Class;

/// Whether the line declares or gives a name that it must not.
pub fn duplicate(above: &Above<'_>, form: Form, slots: &[Operand<'_>]) -> bool
    ensures { result ≡ duplicate above.now form slots.now }
{
    declares_known(above, slots)
        || repeats_parameter(form, slots)
        || hides_event(above, slots)
        || gives_again(above, form, slots)
}

/// Whether a declared name is declared again.
fn declares_known(above: &Above<'_>, slots: &[Operand<'_>]) -> bool
    ensures { result ≡ list_any (declares_again above.now) slots.now }
{
    slots.iter().any(|slot| declares_again(above, slot))
}

/// Whether the operand declares a name that is declared.
fn declares_again(above: &Above<'_>, slot: &Operand<'_>) -> bool
    ensures { result ≡ declares_again above.now slot.now }
{
    matches!(slot.role(), Role::Declares) && above.declared().contains(slot.word())
}

/// Whether a parameter stands twice.
fn repeats_parameter(form: Form, slots: &[Operand<'_>]) -> bool
    ensures { result ≡ repeats_parameter form slots.now }
{
    form.is_process() && repeats(slots)
}

/// Whether two of the operands give the same variable.
fn repeats(slots: &[Operand<'_>]) -> bool
    ensures { result ≡ repeats (map (λ given. given.name) (given_by slots.now)) }
{
    let mut left = slots;
    while let [slot, rest @ ..] = left {
        if let Some(given) = Given::by(slot)
            && gives(rest, given.name())
        {
            return true;
        }
        left = rest;
    }
    false
}

/// Whether an operand gives the variable.
fn gives(slots: &[Operand<'_>], name: &[u8]) -> bool
    ensures { result ≡ is_among name.now (map (λ given. given.name) (given_by slots.now)) }
{
    for slot in slots {
        if let Some(given) = Given::by(slot)
            && given.name() == name
        {
            return true;
        }
    }
    false
}

/// Whether a parameter or a variable given has the name of a declared event.
fn hides_event(above: &Above<'_>, slots: &[Operand<'_>]) -> bool
    ensures { result ≡ hides_event above.now slots.now }
{
    let declared = above.declared();
    slots
        .iter()
        .filter_map(|slot| Given::by(slot))
        .any(|given| declared.is_event(given.name()))
}

/// Whether a `with` gives the variable of a `with` in which it stands.
fn gives_again(above: &Above<'_>, form: Form, slots: &[Operand<'_>]) -> bool
    ensures { result ≡ gives_again above.now form slots.now }
{
    matches!(form, Form::With) && above.blocks().has_with(first_word(slots))
}

/// Whether the line names something that is not declared.
pub fn unknown_name(heads: &ProcessLines<'_>, above: &Above<'_>, slots: &[Operand<'_>]) -> bool
    ensures { result ≡ unknown_name heads.now above.now slots.now }
{
    slots.iter().any(|slot| names_unknown(heads, above, slot))
}

fn names_unknown(heads: &ProcessLines<'_>, above: &Above<'_>, slot: &Operand<'_>) -> bool
    ensures { result ≡ names_unknown heads.now above.now slot.now }
{
    match slot.role() {
        Role::Names(_) => above.declared().sort(heads, slot.word()).is_none(),
        Role::EventAhead(Ahead::Undeclared) => true,
        _ => false,
    }
}

/// Whether the line names something of another sort, or uses it as it cannot be used.
pub fn wrong_kind(
    heads: &ProcessLines<'_>,
    above: &Above<'_>,
    form: Form,
    slots: &[Operand<'_>],
) -> bool
    ensures { result ≡ wrong_kind heads.now above.now form slots.now }
{
    names_another(heads, above, slots)
        || not_taken(above, form, slots)
        || arguments_wrong(heads, form, slots)
}

/// Whether the line names something of another sort.
fn names_another(heads: &ProcessLines<'_>, above: &Above<'_>, slots: &[Operand<'_>]) -> bool
    ensures { result ≡ list_any (names_other heads.now above.now) slots.now }
{
    slots.iter().any(|slot| names_other(heads, above, slot))
}

/// Whether the operand is a declared name of another sort.
fn names_other(heads: &ProcessLines<'_>, above: &Above<'_>, slot: &Operand<'_>) -> bool
    ensures { result ≡ names_other heads.now above.now slot.now }
{
    match slot.role() {
        Role::Names(wanted) => is_other(wanted, above.declared().sort(heads, slot.word())),
        Role::EventAhead(Ahead::NoEvent) => true,
        _ => false,
    }
}

/// Whether there is a sort, and it is not the one that is wanted.
fn is_other(wanted: Sort, sort: Option<Sort>) -> bool
    ensures { result ≡ is_other wanted sort }
{
    match sort {
        Some(sort) => !same_sort(wanted, sort),
        None => false,
    }
}

fn same_sort(one: Sort, other: Sort) -> bool
    ensures { result ≡ same_sort one other }
{
    matches!(
        (one, other),
        (Sort::Resource, Sort::Resource)
            | (Sort::Event, Sort::Event)
            | (Sort::Port, Sort::Port)
            | (Sort::Process, Sort::Process)
    )
}

/// Whether the resource's kind does not take the form.
fn not_taken(above: &Above<'_>, form: Form, slots: &[Operand<'_>]) -> bool
    ensures { result ≡ not_taken above.now form slots.now }
{
    match form {
        Form::With => takes_not(takes_request, above, behind_first(slots)),
        Form::Put => takes_not(takes_put, above, slots),
        Form::NewPut => takes_not(takes_put, above, behind_first(slots)),
        Form::Get => takes_not(takes_get, above, slots),
        Form::NewGet => takes_not(takes_get, above, behind_first(slots)),
        _ => false,
    }
}

/// Whether the kind of the first operand does not take the others, where `takes` says how many a kind takes.
fn takes_not<F: Fn(Form) -> Option<usize>>(
    takes: F,
    above: &Above<'_>,
    slots: &[Operand<'_>],
) -> bool
    requires { F.IsAlwaysCallable takes }
    ensures { (t : Form → Option ℕ)
        → ((kind : Form) (words : Option ℕ) → F.post takes kind words → words ≡ t kind)
        → result ≡ takes_not t above.now slots.now }
{
    let [resource, rest @ ..] = slots else {
        return false;
    };
    match above.declared().get(resource.word()) {
        Some(meaning) => takes(meaning.form) != Some(rest.len()),
        None => true,
    }
}

/// How many words a request of this kind of resource has behind its name, if it can be requested.
fn takes_request(kind: Form) -> Option<usize>
    ensures { result ≡ takes_request kind }
{
    match kind {
        Form::Resource => Some(0),
        Form::Priority => Some(1),
        Form::Preemptive => Some(2),
        _ => None,
    }
}

/// How many words a put into this kind of resource has behind its name, if it takes puts.
fn takes_put(kind: Form) -> Option<usize>
    ensures { result ≡ takes_put kind }
{
    match kind {
        Form::Container | Form::Store | Form::FStore => Some(1),
        Form::PStore => Some(2),
        _ => None,
    }
}

/// How many words a get from this kind of resource has behind its name, if it takes gets.
fn takes_get(kind: Form) -> Option<usize>
    ensures { result ≡ takes_get kind }
{
    match kind {
        Form::Container => Some(1),
        Form::Store | Form::PStore => Some(0),
        Form::FStore => Some(2),
        _ => None,
    }
}

/// The operands behind the variable that a line gives.
fn behind_first<'s, 't>(slots: &'s [Operand<'t>]) -> &'s [Operand<'t>]
    ensures { result.now ≡ behind_first slots.now }
{
    match slots {
        [] => slots,
        [_, rest @ ..] => rest,
    }
}

/// Whether the line gives a process other arguments than it takes.
fn arguments_wrong(heads: &ProcessLines<'_>, form: Form, slots: &[Operand<'_>]) -> bool
    ensures { result ≡ arguments_wrong heads.now form slots.now }
{
    match form {
        Form::Spawn => miscounts(heads, slots),
        Form::NewSpawn => miscounts(heads, behind_first(slots)),
        Form::Start => miscounts(heads, slots) || starts_wrong(heads, slots),
        Form::Port => port_wrong(heads, slots),
        _ => false,
    }
}

/// Whether there is another number of arguments than of parameters.
fn miscounts(heads: &ProcessLines<'_>, slots: &[Operand<'_>]) -> bool
    ensures { result ≡ miscounts heads.now slots.now }
{
    match slots {
        [] => false,
        [process, args @ ..] => args.len() != heads.parameters(process.word()).len(),
    }
}

/// Whether the process has a parameter that a `start` can give nothing to.
fn starts_wrong(heads: &ProcessLines<'_>, slots: &[Operand<'_>]) -> bool
    ensures { result ≡ starts_wrong heads.now slots.now }
{
    match slots {
        [] => false,
        [process, ..] => has_process(heads.parameters(process.word())),
    }
}

/// Whether one of the parameters is a process.
fn has_process(parameters: &[Class]) -> bool
    ensures { result ≡ list_any is_process_class parameters.now }
{
    parameters.iter().any(|class| is_process_class(*class))
}

fn is_process_class(class: Class) -> bool
    ensures { result ≡ is_process_class class }
{
    matches!(class, Class::Proc)
}

/// Whether a port's process has not exactly one parameter, a number.
fn port_wrong(heads: &ProcessLines<'_>, slots: &[Operand<'_>]) -> bool
    ensures { result ≡ port_wrong heads.now slots.now }
{
    match slots {
        [_, process, ..] => !matches!(heads.parameters(process.word()), [Class::Number]),
        _ => false,
    }
}
