//! The fixture with more rooms.
ghost use Rattle.std.specs.Prelude.{◌≡◌, ◌<◌, ◌+◌, ◌*◌, ℕ, pos, IfOk, OnOk};
ghost use Rattle.spec_fixture.specs.Fixture.{fixture};
ghost use Rattle.world_fixture.specs.Rooms as meant;

use crate::fixture::{NOWHERE, header, plain, records, room_of};
use crate::room_verbs::{counting_verbs, endless_verbs};
use std::alloc::{AllocError, Global};
use view::link::Link;
use view::object::Object;
use view::verb::Verbs;
use world::draft::Draft;
use world::worlds::World;

/// The fixture with 64 more rooms. In each a player with a link is alone, and may count as in the fixture's own room or run the verb `total`, which
/// takes 1,000 ticks and changes nothing.
pub fn fixture_with_rooms(alloc: Global) -> Result<World, AllocError>
    ensures plain { IfOk result (λ w. w.plain ≡ meant.with_rooms 64 fixture) }
    ensures opened { IfOk result (λ w. w.opened ≡ 0) }
{
    let draft = rooms(alloc)?;
    Ok(World::of_draft(draft))
}

#[tactic(auto, unfolding(crate::specs::Rooms::with_rooms))]
fn rooms(alloc: Global) -> Result<Draft, AllocError>
    ensures { IfOk result (λ d. d ≡ meant.with_rooms 64 fixture) }
{
    let mut draft = records(alloc)?;
    for place in 0..64 {
        let verbs = counting_verbs(alloc)?;
        put_room(alloc, &mut draft, place, verbs)?;
    }
    Ok(draft)
}

/// The fixture with one room more, in which a player with link 3 is alone. The verb `endless` there does not end within a command's ticks.
pub fn fixture_with_endless_verb(alloc: Global) -> Result<World, AllocError>
    ensures plain { IfOk result (λ w. w.plain ≡ meant.with_endless_verb fixture) }
    ensures opened { IfOk result (λ w. w.opened ≡ 0) }
{
    let mut draft = records(alloc)?;
    let verbs = endless_verbs(alloc)?;
    put_room(alloc, &mut draft, 0, verbs)?;
    Ok(World::of_draft(draft))
}

fn put_room(alloc: Global, draft: &mut Draft, place: u32, verbs: Verbs) -> Result<(), AllocError>
    requires { place < 64 }
    ensures { OnOk result (draft.new ≡ meant.with_room verbs place draft.old) }
{
    let room = 8 + 2 * place;
    let player = 9 + 2 * place;
    draft.put_object(room, lone_room(alloc, player, verbs)?)?;
    draft.put_object(player, guest(alloc, room)?)?;
    let person = player as i32;
    draft.put_link(3 + place, Link::new(person))?;
    draft.set_greatest(person);
    Ok(())
}

fn lone_room(alloc: Global, player: u32, verbs: Verbs) -> Result<Object, AllocError>
    requires { player < 1048576 }
    ensures { IfOk result (λ x. x ≡ meant.lone_room (pos player) verbs) }
{
    let mut header = header(alloc, "Room")?;
    header.parent = NOWHERE;
    room_of(alloc, header, &[player as i32], verbs)
}

fn guest(alloc: Global, place: u32) -> Result<Object, AllocError>
    requires { place < 1048576 }
    ensures { IfOk result (λ x. x ≡ meant.guest (pos place)) }
{
    let mut header = header(alloc, "Guest")?;
    header.parent = NOWHERE;
    header.is_player = true;
    header.location = place as i32;
    plain(alloc, header, &[], &[])
}
