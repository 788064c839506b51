//! Where bytes come from.
ghost use Rattle.std.specs.Prelude.{◌≡◌, ◌≤◌, ◌<◌, ◌+◌, ◌++◌, [], length, take, IfOk, OnErr};

use std::io;

/// A reader that tells which bytes it has left, and how many of its reads have failed.
pub trait Source {
    ghost use Rattle.std.specs.Prelude.{ℕ, List};

    /// The bytes that are not read yet.
    ghost left: { Self → List ℕ };

    /// How many reads have failed.
    ghost failures: { Self → ℕ };

    /// Reads to the front of the buffer, and gives how many bytes. It gives 0 for a buffer that is not empty only where nothing is left.
    fn read(&mut self, buffer: &mut [u8]) -> io::Result<usize>
        ensures count { IfOk result (λ n. n ≤ length buffer.new) }
        ensures bytes { IfOk result (λ n. Self.left self.old ≡ take n buffer.new ++ Self.left self.new) }
        ensures end { IfOk result (λ n. n ≡ 0 → 0 < length buffer.new → Self.left self.new ≡ []) }
        ensures well { IfOk result (λ n. Self.failures self.new ≡ Self.failures self.old) }
        ensures err { OnErr result (Self.failures self.new ≡ Self.failures self.old + 1) };
}
