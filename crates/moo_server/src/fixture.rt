//! The small world that `moo-play` calls `fixture`.
ghost use Rattle.std.specs.Prelude.{◌≡◌, IfOk};
ghost use Rattle.spec_fixture.specs.Fixture.{fixture as fixture_meant};

use std::alloc::{AllocError, Global};
use world::worlds::World;
use world_fixture::fixture::fixture as make_fixture;

/// The small world of the definitions: a room with a counter, a box, a wizard and two players whose links are open.
pub fn fixture(alloc: Global) -> Result<World, AllocError>
    ensures { IfOk result (λ w. w.plain ≡ fixture_meant) }
{
    make_fixture(alloc)
}
