// The refusals of the crate.
ghost use Rattle.std.specs.Prelude.{◌≡◌};
ghost use Rattle.round_claims.specs.declared.refusal.Refusal.TheVariants.{Memory};

use std::alloc::AllocError;
use thiserror::Error;

/// Why no claims were made.
#[derive(Clone, Copy, Debug, PartialEq, Eq, Error)]
pub enum Refusal {
    /// There was no memory for the claim word or for the seats.
    #[error("out of memory")]
    Memory,
    /// The number of seats is not 1 to 64.
    #[error("the number of workers is not 1 to 64")]
    Workers,
}

impl From<AllocError> for Refusal {
    ghost from_gives = { λ _ e. e ≡ Memory };

    fn from(_error: AllocError) -> Refusal {
        Refusal::Memory
    }
}
