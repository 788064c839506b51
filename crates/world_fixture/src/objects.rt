//! The fixture with more objects.
ghost use Rattle.std.specs.Prelude.{◌≡◌, ◌<◌, ◌≤◌, ◌+◌, ℕ, pos, IfOk, OnOk};
ghost use Rattle.spec_fixture.specs.Fixture.{fixture};
ghost use Rattle.world_fixture.specs.Objects as meant;

use crate::fixture::{NOWHERE, header, plain, records};
use std::alloc::{AllocError, Global};
use view::object::Object;
use world::draft::Draft;
use world::worlds::World;

/// The number of the first object behind those of the fixture.
const FIRST: u32 = 8;

/// The fixture with so many more objects, from #8 on. Each is nowhere, and has no parent, properties and verbs.
pub fn fixture_with_objects(alloc: Global, count: u32) -> Result<World, AllocError>
    requires { count ≤ 900000 }
    ensures plain { IfOk result (λ w. w.plain ≡ meant.with_objects count fixture) }
    ensures opened { IfOk result (λ w. w.opened ≡ 0) }
{
    let draft = objects(alloc, count)?;
    Ok(World::of_draft(draft))
}

#[tactic(auto, unfolding(crate::specs::Objects::with_objects))]
fn objects(alloc: Global, count: u32) -> Result<Draft, AllocError>
    requires { count ≤ 900000 }
    ensures { IfOk result (λ d. d ≡ meant.with_objects count fixture) }
{
    let mut draft = records(alloc)?;
    for place in 0..count {
        put_thing(alloc, &mut draft, place)?;
    }
    Ok(draft)
}

fn put_thing(alloc: Global, draft: &mut Draft, place: u32) -> Result<(), AllocError>
    requires { place < 900000 }
    ensures { OnOk result (draft.new ≡ meant.with_thing place draft.old) }
{
    let number = FIRST + place;
    draft.put_object(number, lone_thing(alloc)?)?;
    draft.set_greatest(number as i32);
    Ok(())
}

fn lone_thing(alloc: Global) -> Result<Object, AllocError>
    ensures { IfOk result (λ x. x ≡ meant.lone_thing) }
{
    let mut header = header(alloc, "Thing")?;
    header.parent = NOWHERE;
    plain(alloc, header, &[], &[])
}
