//! The words that the program is called with.
ghost use Rattle.std.specs.Prelude.{◌≡◌, All, IfOk, IfSome};
ghost use Rattle.std.specs.Str.{IsUtf8};
ghost use Rattle.sim_program.specs.Shown.{IsShown};

use sim_command::Word;
use std::alloc::{AllocError, Global};
use std::env::{Env, FillError};
use std::str;

/// The words after the program's name. Each is UTF-8.
pub fn words_of<E: Env>(env: &E, alloc: Global) -> Result<Vec<Word>, AllocError>
    ensures { IfOk result (λ words. All IsUtf8 words.items) }
{
    let mut words = Vec::new(alloc);
    let mut buffer = vec![in alloc; 0; 256]?;
    for place in 1..usize::MAX {
        let Some(word) = word_at(env, alloc, place, &mut buffer)? else {
            break;
        };
        words.push(word)?;
    }
    Ok(words)
}

/// The word at this place, if there is one; the program's name is at 0. The buffer grows until it holds the word.
fn word_at<E: Env>(
    env: &E,
    alloc: Global,
    place: usize,
    buffer: &mut Vec<u8>,
) -> Result<Option<Word>, AllocError>
    ensures { IfOk result (λ found. IfSome found IsUtf8) }
{
    for _size in 0..usize::BITS {
        match env.arg(place, buffer.as_mut_slice()) {
            Ok(count) => return Ok(Some(word_of(alloc, &buffer.as_slice()[..count])?)),
            Err(FillError::NotPresent) => return Ok(None),
            Err(FillError::TooLong) => buffer.resize(buffer.len().saturating_mul(2), 0)?,
        }
    }
    Err(AllocError)
}

/// The word, or `?` where the bytes are not UTF-8.
pub fn word_of(alloc: Global, bytes: &[u8]) -> Result<Word, AllocError>
    ensures shown { IfOk result (IsShown bytes.now) }
    ensures text { IfOk result IsUtf8 }
{
    let shown = if str::from_utf8(bytes).is_ok() {
        bytes
    } else {
        b"?".as_slice()
    };
    Word::new(alloc, shown)
}
