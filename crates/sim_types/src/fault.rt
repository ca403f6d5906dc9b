//! Why a scenario text is refused.

/// Why a line of a scenario text is refused, in the order in which causes are tried.
#[derive(Clone, Copy)]
pub enum FaultKind {
    TooLong,
    NotText,
    LineTooLong,
    BadHeader,
    UnknownWord,
    BadShape,
    BadNumber,
    BadName,
    Duplicate,
    UnknownName,
    WrongKind,
    Misplaced,
    Unclosed,
    TooMany,
    ClassClash,
    Unset,
    BadOrder,
}

/// The first line of a text that is refused, counted from 1, or 0 for the text as a whole.
#[derive(Clone, Copy)]
pub struct Fault {
    pub line: u32,
    pub kind: FaultKind,
}
