//! What a word is by itself.
ghost use Rattle.std.specs.Prelude.{◌≡◌};
ghost use Rattle.sim_lines.specs.WordKinds.{fixed_kind, kind_of};

use sim_words::literal;

/// What a word is by itself, whatever it is there for.
#[derive(Clone, Copy)]
pub enum WordKind {
    /// A literal of 64 bits.
    Number(i64),
    /// `now`
    Now,
    /// `val`
    Val,
    /// `me`
    Me,
    /// `inf`
    Infinite,
    /// Any other word, such as a name or a number that needs more than 64 bits.
    Other,
}

impl WordKind {
    /// Finds the kind of a word. Only a word that begins with `-` or a digit is read as a number, and only one that begins
    /// with a small letter is compared with the fixed words.
    #[inline(always)]
    pub fn of(word: &[u8]) -> WordKind
        ensures kind { result ≡ kind_of word.now }
    {
        match word {
            [b'a'..=b'z', ..] => fixed_kind(word),
            [b'-' | b'0'..=b'9', ..] => match literal(word) {
                Some(number) => WordKind::Number(number),
                None => WordKind::Other,
            },
            _ => WordKind::Other,
        }
    }
}

/// Finds the kind of a word that is no literal. Each fixed word has two or three letters.
#[inline(always)]
fn fixed_kind(word: &[u8]) -> WordKind
    ensures kind { result ≡ fixed_kind word.now }
{
    match word {
        [_, _, _, _, ..] => WordKind::Other,
        [b'n', b'o', b'w'] => WordKind::Now,
        [b'v', b'a', b'l'] => WordKind::Val,
        [b'm', b'e'] => WordKind::Me,
        [b'i', b'n', b'f'] => WordKind::Infinite,
        _ => WordKind::Other,
    }
}
