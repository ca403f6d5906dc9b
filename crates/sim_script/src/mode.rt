//! How a script goes on.

/// Whether a script goes on as written, or leaves its blocks from the innermost outwards, and why.
#[derive(Clone, Copy)]
pub(crate) enum Mode {
    Running,
    /// The kind and the value of what is thrown: side by side they take less room than a `Throw` would behind the tag.
    Throwing { kind: u8, value: i64 },
    Breaking,
    Finishing(i64),
}
