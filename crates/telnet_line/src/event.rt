//! What a stream brings.

/// A line that has ended, or bytes that the protocol asks for.
#[derive(Debug, PartialEq, Eq, Drop)]
pub enum Event {
    /// A line without its end: at most 4,096 characters, each a tab or from space to `~`.
    Line(String),
    /// Bytes that are to be sent back.
    Reply(Vec<u8>),
}
