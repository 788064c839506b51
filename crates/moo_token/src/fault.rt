//! What is no token.

/// Why a text has no token at a place.
#[derive(Clone, Copy, Debug, PartialEq, Eq)]
pub enum FaultKind {
    /// A character that no token has there.
    Character,
    /// A string that is not closed on its line.
    Unclosed,
    /// A number out of range.
    Number,
}

/// The first place of a text where no token stands.
#[derive(Clone, Copy, Debug, PartialEq, Eq)]
pub struct TokenFault {
    pub kind: FaultKind,
    /// The first line is 1.
    pub line: u64,
}
