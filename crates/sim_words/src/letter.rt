//! The letter that a word begins with.
ghost use Rattle.std.specs.Prelude.{◌≡◌, ◌<◌, IfSome, length};
ghost use Rattle.sim_words.specs.Letters.{letter, row_of};

use crate::name::is_small_letter;

/// The place in the alphabet, counted from 0, of the small letter that the word begins with, if it begins with one.
pub fn letter(word: &[u8]) -> Option<usize>
    ensures letter { result ≡ letter word.now }
    ensures below { IfSome result (λ place. place < 26) }
{
    let first = *word.first()?;
    if is_small_letter(first) {
        Some(usize::from(first - b'a'))
    } else {
        None
    }
}

/// The row of a table at this place.
pub fn row_of<T>(table: &'static [&'static [T]], place: usize) -> &'static [T]
    requires { place < length table.now }
    ensures { result.now ≡ row_of table.now place }
{
    table[place]
}
