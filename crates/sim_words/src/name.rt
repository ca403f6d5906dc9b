//! Names.
ghost use Rattle.std.specs.Prelude.{◌≡◌, ◌<◌, map};
ghost use Rattle.std.specs.List.{list_all};
ghost use Rattle.sim_language.specs.Lines.{is_among};
ghost use Rattle.sim_language.specs.Names.{common_words, is_name, is_reserved, is_small_letter, is_spelled, may_stand_in_name};
ghost use Rattle.sim_words.specs.Letters.{words_at};

use crate::letter::{letter, row_of};
use sim_language::Version;

/// The words of both versions of the language, which are no names, by the letters that they begin with, from `a` to `z`.
static COMMON_WORDS: [&[&[u8]]; 26] = [
    &[b"all", b"any", b"after"],
    &[b"break"],
    &[b"container", b"count", b"cancel", b"catch"],
    &[b"drop", b"draw"],
    &[b"event", b"end", b"else", b"empty"],
    &[b"fstore", b"fail", b"finish"],
    &[b"get"],
    &[b"has"],
    &[b"interrupt", b"if", b"inf"],
    &[b"journal"],
    &[],
    &[b"let", b"loop", b"log"],
    &[b"me", b"min", b"max"],
    &[b"now"],
    &[],
    &[
        b"priority",
        b"preemptive",
        b"pstore",
        b"port",
        b"process",
        b"preempt",
        b"put",
        b"poster",
        b"proc",
    ],
    &[],
    &[b"resource", b"raise", b"request", b"release", b"repeat"],
    &[
        b"scenario",
        b"seed",
        b"store",
        b"start",
        b"succeed",
        b"spawn",
    ],
    &[b"timeout", b"try"],
    &[b"until"],
    &[b"val"],
    &[b"wait", b"with"],
    &[],
    &[],
    &[],
];

/// Whether the word is a name in a text of this version.
pub fn is_name(version: Version, word: &[u8]) -> bool
    ensures { result ≡ is_name version word.now }
{
    is_spelled(word) && !is_reserved(version, word)
}

fn is_spelled(word: &[u8]) -> bool
    ensures { result ≡ is_spelled word.now }
{
    match word {
        [first, rest @ ..] => is_small_letter(*first) && rest.len() <= 31 && may_end_name(rest),
        [] => false,
    }
}

fn may_end_name(rest: &[u8]) -> bool
    ensures { result ≡ list_all may_stand_in_name rest.now }
{
    rest.iter().all(|byte| may_stand_in_name(*byte))
}

/// Whether it is one of the 26 small letters.
pub fn is_small_letter(byte: u8) -> bool
    ensures { result ≡ is_small_letter byte }
{
    byte >= b'a' && byte <= b'z'
}

fn may_stand_in_name(byte: u8) -> bool
    ensures { result ≡ may_stand_in_name byte }
{
    is_small_letter(byte) || byte.is_ascii_digit() || byte == b'_'
}

/// Whether the word is one of the language in this version.
fn is_reserved(version: Version, word: &[u8]) -> bool
    ensures { result ≡ is_reserved version word.now }
{
    match version {
        Version::One => is_common(word),
        Version::Two => word == b"chain".as_slice() || is_common(word),
    }
}

fn is_common(word: &[u8]) -> bool
    ensures { result ≡ is_among word.now common_words }
{
    match letter(word) {
        Some(place) => words_at(place).contains(&word),
        None => false,
    }
}

/// Those that begin with the letter at this place in the alphabet.
fn words_at(place: usize) -> &'static [&'static [u8]]
    requires { place < 26 }
    ensures { map (λ word. word.now) result.now ≡ words_at place common_words }
{
    row_of(&COMMON_WORDS, place)
}
