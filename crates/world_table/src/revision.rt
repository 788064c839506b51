//! Changes of a record where it lies.
ghost use Rattle.std.specs.Prelude.{◌≡◌, true, false, IfOk, OnErr};

use std::alloc::AllocError;

/// A change of a record where it lies.
pub trait Revision<R> {
    /// That it makes the second of the first.
    ghost makes: { Self → R → R → Type 0 };

    /// Changes a record and answers true, or leaves it and answers false. After an `Err` it is as it was.
    fn revise(&self, found: &mut R) -> Result<bool, AllocError>
        ensures done { IfOk result (λ b. b ≡ true → makes self.now found.old found.new) }
        ensures left { IfOk result (λ b. b ≡ false → found.new ≡ found.old) }
        ensures err { OnErr result (found.new ≡ found.old) };
}
