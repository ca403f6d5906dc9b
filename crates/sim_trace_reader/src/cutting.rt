//! Cuts bytes at spaces.
ghost use Rattle.std.specs.Prelude.{◌≡◌, position};
ghost use Rattle.std.specs.List.{after_first, after_last, before_first, before_last};
ghost use Rattle.sim_trace_reader.specs.Readings.{is_space};

/// The bytes in front of the first space, or all where there is none, and those behind it.
pub(crate) fn cut(bytes: &[u8]) -> (&[u8], &[u8])
    ensures word { result.0.now ≡ before_first is_space bytes.now }
    ensures rest { result.1.now ≡ after_first is_space bytes.now }
{
    match first_space(bytes) {
        Some(at) => (&bytes[..at], &bytes[at + 1..]),
        None => (bytes, &[]),
    }
}

/// The bytes in front of the last space, and those behind it, or all where there is none.
pub(crate) fn cut_last(bytes: &[u8]) -> (&[u8], &[u8])
    ensures front { result.0.now ≡ before_last is_space bytes.now }
    ensures word { result.1.now ≡ after_last is_space bytes.now }
{
    match bytes.iter().rposition(|byte| *byte == b' ') {
        Some(at) => (&bytes[..at], &bytes[at + 1..]),
        None => (&[], bytes),
    }
}

fn first_space(bytes: &[u8]) -> Option<usize>
    ensures { result ≡ position is_space bytes.now }
{
    bytes.iter().position(|byte| *byte == b' ')
}
