//! The form that a line begins.
ghost use Rattle.std.specs.Prelude.{◌≡◌, ◌<◌, Some, map};
ghost use Rattle.sim_language.specs.declared.form.Form.TheVariants.{Scenario, UntilTime};
ghost use Rattle.sim_language.specs.declared.form.Version.{Version};
ghost use Rattle.sim_language.specs.AnywhereInText.{sort_begun};
ghost use Rattle.sim_language.specs.Forms.{begins, common_first_words, first_words, form_at, made_form, made_words, operands, told_by};
ghost use Rattle.sim_words.specs.Letters.{rows_at};

use crate::letter::{letter, row_of};
use crate::words::Words;
use sim_language::{Form, Sort, Version};

/// The words of all lines that begin with a word of their own, in both versions of the language, by the letters that they
/// begin with, from `a` to `z`.
static COMMON_FIRST_WORDS: [&[(&[u8], Form)]; 26] = [
    &[(b"after", Form::After)],
    &[(b"break", Form::Break)],
    &[
        (b"container", Form::Container),
        (b"count", Form::Count),
        (b"cancel", Form::Cancel),
        (b"catch", Form::Catch),
    ],
    &[(b"drop", Form::Drop), (b"draw", Form::Draw)],
    &[
        (b"event", Form::Event),
        (b"else", Form::Else),
        (b"end", Form::End),
    ],
    &[
        (b"fstore", Form::FStore),
        (b"fail", Form::Fail),
        (b"finish", Form::Finish),
    ],
    &[(b"get", Form::Get)],
    &[(b"has", Form::Has)],
    &[(b"interrupt", Form::Interrupt), (b"if", Form::If)],
    &[(b"journal", Form::Journal)],
    &[],
    &[
        (b"let", Form::Let),
        (b"loop", Form::Loop),
        (b"log", Form::Log),
    ],
    &[],
    &[],
    &[],
    &[
        (b"priority", Form::Priority),
        (b"preemptive", Form::Preemptive),
        (b"pstore", Form::PStore),
        (b"port", Form::Port),
        (b"process", Form::Process),
        (b"poster", Form::Poster),
        (b"put", Form::Put),
    ],
    &[],
    &[
        (b"resource", Form::Resource),
        (b"raise", Form::Raise),
        (b"release", Form::Release),
        (b"repeat", Form::Repeat),
    ],
    &[
        (b"scenario", Form::Scenario),
        (b"seed", Form::Seed),
        (b"store", Form::Store),
        (b"start", Form::Start),
        (b"succeed", Form::Succeed),
        (b"spawn", Form::Spawn),
    ],
    &[(b"timeout", Form::Timeout), (b"try", Form::Try)],
    &[(b"until", Form::UntilTime)],
    &[],
    &[(b"wait", Form::Wait), (b"with", Form::With)],
    &[],
    &[],
    &[],
];

/// The words that may stand behind `x =`.
static MADE_WORDS: [(&[u8], Form); 7] = [
    (b"timeout", Form::NewTimeout),
    (b"event", Form::NewEvent),
    (b"all", Form::NewAll),
    (b"any", Form::NewAny),
    (b"spawn", Form::NewSpawn),
    (b"put", Form::NewPut),
    (b"get", Form::NewGet),
];

/// The form that the words of a line begin in this version of the language, if they begin one.
pub fn begins(version: Version, words: &Words<'_>) -> Option<Form>
    ensures { result ≡ begins version words.now }
{
    match first_form(version, words.first()?) {
        Some(Form::Scenario) => Some(header_form(&words.behind_first())),
        Some(Form::UntilTime) => Some(until_form(version, &words.behind_first())),
        Some(form) => Some(form),
        None => made_form(&words.behind_first()),
    }
}

/// What a line with this first word declares, if it declares something.
pub fn sort_begun(first: &[u8]) -> Option<Sort>
    ensures { result ≡ sort_begun first.now }
{
    common_first_form(first)?.sort()
}

/// The words of a line without those that tell its form.
pub fn operands<'t>(form: Form, words: &Words<'t>) -> Words<'t>
    ensures { result ≡ operands form words.now }
{
    if matches!(form, Form::Post) {
        words.again()
    } else if form.is_made() {
        words.after_made()
    } else {
        words.behind_first()
    }
}

/// The form of a `scenario` with these words behind it: with `2` alone it is the header of the second version.
fn header_form(behind: &Words<'_>) -> Form
    ensures { (version : Version) → told_by version (Some Scenario) behind.now ≡ Some result }
{
    let mut rest = behind.again();
    match rest.next() {
        Some(number) if rest.is_empty() && number == b"2".as_slice() => Form::ScenarioTwo,
        _ => Form::Scenario,
    }
}

/// The form of an `until` with these words behind it: with one that is not `empty` it gives a time, and in the second
/// version with two, of which the first is `event`, it names an event.
fn until_form(version: Version, behind: &Words<'_>) -> Form
    ensures { told_by version (Some UntilTime) behind.now ≡ Some result }
{
    let mut rest = behind.again();
    match (version, rest.next(), rest.next()) {
        (_, Some(time), None) if time != b"empty".as_slice() => Form::UntilTime,
        (Version::Two, Some(event), Some(_)) if rest.is_empty() && event == b"event".as_slice() => {
            Form::UntilEvent
        }
        _ => Form::UntilEmpty,
    }
}

/// The form of a line with `=` and a word of `MADE_WORDS` behind its first word.
fn made_form(behind: &Words<'_>) -> Option<Form>
    ensures { result ≡ made_form behind.now }
{
    let mut rest = behind.again();
    let equals = rest.next()?;
    let made = rest.next()?;
    if equals == b"=".as_slice() {
        form_of_made(made)
    } else {
        None
    }
}

fn first_form(version: Version, word: &[u8]) -> Option<Form>
    ensures { result ≡ form_at word.now (first_words version) }
{
    match version {
        Version::Two if word == b"chain".as_slice() => Some(Form::Chain),
        _ => common_first_form(word),
    }
}

fn common_first_form(word: &[u8]) -> Option<Form>
    ensures { result ≡ form_at word.now common_first_words }
{
    form_at(word, rows_at(letter(word)?))
}

/// The rows of the words that begin with the letter at this place in the alphabet.
fn rows_at(place: usize) -> &'static [(&'static [u8], Form)]
    requires { place < 26 }
    ensures { map (λ row. (row.0.now, row.1)) result.now ≡ rows_at place common_first_words }
{
    row_of(&COMMON_FIRST_WORDS, place)
}

fn form_of_made(word: &[u8]) -> Option<Form>
    ensures { result ≡ form_at word.now made_words }
{
    form_at(word, &MADE_WORDS)
}

fn form_at(word: &[u8], rows: &[(&[u8], Form)]) -> Option<Form>
    ensures { result ≡ form_at word.now (map (λ row. (row.0.now, row.1)) rows.now) }
{
    for (first, form) in rows {
        if word == *first {
            return Some(*form);
        }
    }
    None
}
