//! Cuts a text into lines, and a line off its comment.
ghost use Rattle.std.specs.Prelude.{◌≡◌, ◌<◌, [], ◌∷◌, length, position, MatchOption};
ghost use Rattle.std.specs.List.{list_all};
ghost use Rattle.sim_language.specs.Lines.{cut, is_line_feed, is_text, lines, without_return};

use sim_words::up_to;

/// The first line and what stands behind its line feed, or nothing where the text is empty.
pub fn first_line(text: &[u8]) -> Option<(&[u8], &[u8])>
    ensures lines { MatchOption result
        (lines text.now ≡ [])
        (λ parts. lines text.now ≡ parts.0.now ∷ lines parts.1.now) }
    ensures shorter { MatchOption result
        (text.now ≡ [])
        (λ parts. length parts.1.now < length text.now) }
{
    if text.is_empty() {
        return None;
    }
    match first_line_feed(text) {
        Some(at) => Some((&text[..at], &text[at + 1..])),
        None => Some((text, &text[text.len()..])),
    }
}

fn first_line_feed(text: &[u8]) -> Option<usize>
    ensures { result ≡ position is_line_feed text.now }
{
    text.iter().position(|byte| *byte == b'\n')
}

/// The line without one carriage return at its end, up to its first `#`.
pub fn cut(line: &[u8]) -> &[u8]
    ensures { result.now ≡ cut line.now }
{
    up_to(b'#', without_return(line))
}

fn without_return(line: &[u8]) -> &[u8]
    ensures { result.now ≡ without_return line.now }
{
    match line.strip_suffix(b"\r".as_slice()) {
        Some(front) => front,
        None => line,
    }
}

/// Whether the line has only bytes that a text may have.
pub fn is_text(line: &[u8]) -> bool
    ensures { result ≡ list_all is_text line.now }
{
    line.iter()
        .all(|byte| *byte == b'\t' || (*byte >= b' ' && *byte <= b'~'))
}
