//! Numbers as words.
ghost use Rattle.std.specs.Prelude.{◌≡◌};
ghost use Rattle.sim_trace_reader.specs.Readings.{byte, number, signed, whole, with_digit};

/// The number of 8 bits that the word writes, if it is one.
pub(crate) fn byte(word: &[u8]) -> Option<u8>
    ensures { result ≡ byte word.now }
{
    u8::try_from(number(word)?).ok()
}

/// The number of 64 bits with a sign that the word writes, if it is one.
pub(crate) fn signed(word: &[u8]) -> Option<i64>
    ensures { result ≡ signed word.now }
{
    i64::try_from(whole(word)?).ok()
}

/// The number of 64 bits with a sign in front of it.
fn whole(word: &[u8]) -> Option<i128>
    ensures { result ≡ whole word.now }
{
    match word {
        [b'-', digits @ ..] => number(digits).map(|n| -i128::from(n)),
        _ => number(word).map(|n| i128::from(n)),
    }
}

/// The number of 64 bits that the digits write. No digits write 0.
pub(crate) fn number(digits: &[u8]) -> Option<u64>
    ensures { result ≡ number digits.now }
{
    let mut value = 0;
    for digit in digits {
        value = with_digit(value, *digit)?;
    }
    Some(value)
}

/// The number with one digit more behind it, if that is one and the number has 64 bits.
fn with_digit(value: u64, digit: u8) -> Option<u64>
    ensures { result ≡ with_digit value digit }
{
    if digit.is_ascii_digit() {
        value.checked_mul(10)?.checked_add(u64::from(digit - b'0'))
    } else {
        None
    }
}
