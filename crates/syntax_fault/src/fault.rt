//! Why a text is no program.

use thiserror::Error;

/// What is wrong. Its text is its name.
#[derive(Clone, Copy, Debug, Drop, Error, PartialEq, Eq)]
pub enum FaultKind {
    /// A character that no token has there.
    #[error("Character")]
    Character,
    /// A string that is not closed on its line.
    #[error("Unclosed")]
    Unclosed,
    /// A token, or an end, with which no program goes on.
    #[error("Token")]
    Token,
    /// A statement or an expression that nests too deep.
    #[error("Nesting")]
    Nesting,
    /// A number out of range.
    #[error("Number")]
    Number,
    /// A `break` or `continue` of no loop around it.
    #[error("Loop name")]
    LoopName,
    /// No memory is left.
    #[error("Memory")]
    Memory,
}

/// The first fault of a text. The first line is 1; a lack of memory has line 0.
#[derive(Clone, Copy, Debug, Drop, Error, PartialEq, Eq)]
#[error("Line {line}: {kind}")]
pub struct SyntaxFault {
    pub kind: FaultKind,
    pub line: u64,
}
