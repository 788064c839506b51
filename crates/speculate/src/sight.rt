//! What a worker sees of a board.
ghost use Rattle.std.specs.Prelude.{◌≡◌, IfOk};

use std::alloc::{AllocError, Global};
use world::shared::SharedSnapshot;
use world::worlds::World;

/// The world after the steps that are committed, how many these are, and from which position on guesses are not worth their while yet.
#[derive(Drop)]
pub struct Sight {
    pub snapshot: SharedSnapshot,
    pub count: usize,
    pub limit: usize,
}

/// A world as it is, to be kept by several owners.
pub(crate) fn shared(alloc: Global, world: &World) -> Result<SharedSnapshot, AllocError>
    ensures { IfOk result (λ s. s ≡ world.now.plain) }
{
    let snapshot = world.snapshot()?;
    SharedSnapshot::new(alloc, snapshot)
}
