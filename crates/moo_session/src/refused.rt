//! Why a session was not held to its end.

/// Why a session was not held to its end. Readers and writers are numbered from 1 on.
#[derive(Clone, Copy, PartialEq, Eq, Debug)]
pub enum Refused {
    /// Memory ran out.
    Memory,
    /// The number of workers is not from 1 to 64.
    Workers,
    /// The steps' numbers are used up, or the moment is out of its range.
    Numbers,
    /// A read of this connection's reader failed.
    Read(usize),
    /// A write of this connection's writer failed.
    Write(usize),
    /// There are not 1 to 64 readers and as many writers.
    Count,
}
