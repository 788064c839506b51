//! Links that a world has from before a server serves it.
use crate::draft::{Draft, LONGEST_LIST};
use crate::playing::{End, Plan, Played, Reached, asks_checkpoint, moment, next_number, play};
use speculate::gate::Gate;
use std::alloc::{AllocError, Global};
use std::rt::Clock;
use std::sync::Wait;
use std::thread::Threads;
use world::worlds::World;

/// Closes every link of a world: none of them has a socket. Ends where a task asks for it meanwhile.
pub fn close_left<G: Gate, R: Threads + Wait + Clock + Sync, C: Clock>(
    rt: &R,
    alloc: Global,
    gate: &G,
    clock: &C,
    plan: Plan,
    mut world: World,
) -> Reached {
    let mut asks = false;
    let Ok(left) = left_links(alloc, &world) else {
        return Reached::end(world, asks, End::Memory(0));
    };
    'list: for part in left.chunks(LONGEST_LIST) {
        let next = match next_number(&world) {
            Ok(next) => next,
            Err(end) => return Reached::end(world, asks, end),
        };
        let Ok(draft) = closing(alloc, next, moment(clock), plan.key, part) else {
            return Reached::end(world, asks, End::Memory(0));
        };
        let Played {
            world: after,
            outcomes,
            end,
        } = play(rt, alloc, gate, world, draft.steps.as_slice(), 1);
        asks = asks || asks_checkpoint(outcomes.as_slice());
        match end {
            None => world = after,
            Some(end) => return Reached::end(after, asks, end),
        }
    }
    Reached::unless_ending(world, asks)
}

// The list that closes these links.
fn closing(
    alloc: Global,
    next: u32,
    moment: u32,
    key: [u8; 32],
    links: &[u32],
) -> Result<Draft, AllocError> {
    let mut draft = Draft::new(alloc, next, moment, key)?;
    'link: for number in links {
        draft.close(*number)?;
    }
    Ok(draft)
}

// Their numbers, in order.
fn left_links(alloc: Global, world: &World) -> Result<Vec<u32>, AllocError> {
    let records = world.snapshot()?.share()?;
    let numbers = records.link_numbers()?;
    let mut left = Vec::new(alloc);
    'number: for number in numbers.as_slice() {
        if let Ok(number) = u32::try_from(*number) {
            left.push(number)?;
        }
    }
    Ok(left)
}
