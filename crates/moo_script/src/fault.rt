//! What can be wrong with a script.
use std::alloc::AllocError;
use thiserror::Error;

/// A fault of a script.
#[derive(Debug, Drop, Error)]
pub enum ScriptFault {
    /// The line, counted from 1, and what is wrong with it.
    #[error("line {line}: {kind}")]
    Line { line: usize, kind: LineFault },
    /// Memory ran out while the script was read.
    #[error("out of memory")]
    Memory(#[from(alloc)] AllocError),
}

/// What is wrong with a line. Of several, the first in this order.
#[derive(Clone, Copy, PartialEq, Eq, Debug, Error)]
pub enum LineFault {
    /// The first line is not `key` with 64 hexadecimal digits in lower case.
    #[error("Key")]
    Key,
    /// Another word, a missing or further field, or no line end.
    #[error("Word")]
    Word,
    /// A number that is not digits without needless zeros, or a task's number that is too great.
    #[error("Number")]
    Number,
    /// A text with another character than 32 to 126 and tab, or of more than 4,096 characters.
    #[error("Text")]
    Text,
}
