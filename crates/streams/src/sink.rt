//! Where bytes go.
ghost use Rattle.std.specs.Prelude.{◌≡◌, ◌≤◌, ◌<◌, ◌+◌, ◌++◌, length, take, IfOk, OnErr};

use std::io;

/// A writer that tells which bytes it has taken, and how many of its writes have failed.
pub trait Sink {
    ghost use Rattle.std.specs.Prelude.{ℕ, List};

    /// The bytes that were written.
    ghost written: { Self → List ℕ };

    /// How many writes have failed. To take 0 of some bytes is to fail.
    ghost failures: { Self → ℕ };

    /// Writes the first of these bytes, and gives how many.
    fn write(&mut self, bytes: &[u8]) -> io::Result<usize>
        ensures count { IfOk result (λ n. n ≤ length bytes.now) }
        ensures bytes { IfOk result (λ n. Self.written self.new ≡ Self.written self.old ++ take n bytes.now) }
        ensures well { IfOk result (λ n. 0 < n → Self.failures self.new ≡ Self.failures self.old) }
        ensures none { IfOk result (λ n. n ≡ 0 → 0 < length bytes.now → Self.failures self.new ≡ Self.failures self.old + 1) }
        ensures err { OnErr result ((Self.written self.new ≡ Self.written self.old) × (Self.failures self.new ≡ Self.failures self.old + 1)) };
}
