//! Why a list was not run to its end, and what of it was.
ghost use Rattle.std.specs.Prelude.{◌≡◌, []};

use crate::outcome::Outcome;
use std::alloc::Global;
use world::worlds::World;

/// Why a list was not run to its end.
#[derive(Clone, Copy, PartialEq, Eq, Debug)]
pub enum Refusal {
    /// Memory ran out.
    Memory,
    /// The number of workers is not from 1 to 64.
    Workers,
    /// The steps' numbers do not run on from the world's next one, or a field is out of its range.
    Numbers,
}

/// The first part of a list that was run: the world after it and its outcomes.
#[derive(Drop)]
pub struct Partial {
    /// Why the rest was not run.
    pub refusal: Refusal,
    /// The world after the first `count` steps.
    pub world: World,
    /// The outcomes of the first `count` steps.
    pub outcomes: Vec<Outcome>,
    /// How many steps were run.
    pub count: usize,
}

/// Nothing was run.
pub fn refused(alloc: Global, refusal: Refusal, world: World) -> Partial
    ensures { (result.refusal ≡ refusal) × (result.world ≡ world) × (result.outcomes.items ≡ []) × (result.count ≡ 0) }
{
    Partial {
        refusal,
        world,
        outcomes: Vec::new(alloc),
        count: 0,
    }
}
