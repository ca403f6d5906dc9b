//! Numbers as words.
ghost use Rattle.std.specs.Prelude.{◌≡◌, ◌≤◌};
ghost use Rattle.sim_language.specs.Numbers.{decimal_within, literal, literal_within, looks_numeric, number, signed};

/// The number that the word writes, an optional `-` and 1 to 19 digits, where it lies from `low` to `high`.
pub fn literal_within(low: i64, high: i64, word: &[u8]) -> Option<i64>
    ensures { result ≡ literal_within low high word.now }
{
    let value = signed(word)?;
    if i128::from(low) <= value && value <= i128::from(high) {
        Some(value as i64)
    } else {
        None
    }
}

/// The same, where it lies within 64 bits.
pub fn literal(word: &[u8]) -> Option<i64>
    ensures { result ≡ literal word.now }
{
    literal_within(i64::MIN, i64::MAX, word)
}

/// Whether the word begins as a number does: with a digit or `-`.
pub fn looks_numeric(word: &[u8]) -> bool
    ensures { result ≡ looks_numeric word.now }
{
    match word {
        [first, ..] => *first == b'-' || first.is_ascii_digit(),
        [] => false,
    }
}

/// The number that the word writes, 1 to 8 digits, where it lies from `low` to `high`.
pub fn decimal_within(low: u64, high: u64, word: &[u8]) -> Option<u64>
    ensures { result ≡ decimal_within low high word.now }
{
    number(8, word).filter(|n| low <= *n && *n <= high)
}

/// The number with its sign, if the word is one.
fn signed(word: &[u8]) -> Option<i128>
    ensures { result ≡ signed word.now }
{
    match word {
        [b'-', digits @ ..] => number(19, digits).map(|n| -i128::from(n)),
        _ => number(19, word).map(|n| i128::from(n)),
    }
}

/// The number that at most so many digits write, if the word is one.
fn number(most: usize, word: &[u8]) -> Option<u64>
    requires { most ≤ 19 }
    ensures { result ≡ number most word.now }
{
    if word.is_empty() || word.len() > most {
        return None;
    }
    let mut value: u64 = 0;
    for byte in word {
        if !byte.is_ascii_digit() {
            return None;
        }
        value = value * 10 + u64::from(byte - b'0');
    }
    Some(value)
}
