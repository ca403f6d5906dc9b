//! Parameters of processes.
ghost use Rattle.std.specs.Prelude.{◌≡◌, ◌||◌, codes};
ghost use Rattle.sim_language.specs.Lines.{is_empty, same};
ghost use Rattle.sim_language.specs.Parameters.{class_part, is_parameter, parameter_class, parameter_name};

use crate::mark::up_to;
use crate::name::is_name;
use sim_language::Version;
use sim_types::Class;

/// What stands in front of the first colon.
pub fn parameter_name(word: &[u8]) -> &[u8]
    ensures { result.now ≡ parameter_name word.now }
{
    up_to(b':', word)
}

/// The class by what stands from the first colon on.
pub fn parameter_class(word: &[u8]) -> Class
    ensures { result ≡ parameter_class word.now }
{
    let class = class_part(word);
    if class == b":event".as_slice() {
        Class::Event
    } else if class == b":proc".as_slice() {
        Class::Proc
    } else {
        Class::Number
    }
}

/// Whether the word is a name in a text of this version, alone or with `:event` or `:proc`.
pub fn is_parameter(version: Version, word: &[u8]) -> bool
    ensures { result ≡ is_parameter version word.now }
{
    is_name(version, parameter_name(word)) && may_end_parameter(class_part(word))
}

fn may_end_parameter(class: &[u8]) -> bool
    ensures { result
        ≡ (is_empty class.now
        || same class.now (codes ":event")
        || same class.now (codes ":proc")) }
{
    class.is_empty() || class == b":event".as_slice() || class == b":proc".as_slice()
}

/// The word from its first colon on.
#[tactic(auto, using(crate::proofs::Fronts::length_up_to))]
fn class_part(word: &[u8]) -> &[u8]
    ensures { result.now ≡ class_part word.now }
{
    &word[parameter_name(word).len()..]
}
