//! Cuts bytes at a mark.
ghost use Rattle.std.specs.Prelude.{◌==◌, ◌≡◌, position};
ghost use Rattle.sim_language.specs.Lines.{up_to};

/// What stands in front of the first such byte, or all where there is none.
pub fn up_to(mark: u8, bytes: &[u8]) -> &[u8]
    ensures { result.now ≡ up_to (λ c. c == mark) bytes.now }
{
    match first_mark(mark, bytes) {
        Some(at) => &bytes[..at],
        None => bytes,
    }
}

fn first_mark(mark: u8, bytes: &[u8]) -> Option<usize>
    ensures { result ≡ position (λ c. c == mark) bytes.now }
{
    bytes.iter().position(|byte| *byte == mark)
}
