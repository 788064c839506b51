//! One turn of the loop.
use crate::agenda::{add_due, next_moment};
use crate::draft::Draft;
use crate::gather::gather;
use crate::pace::Pace;
use crate::playing::{
    End, Plan, Played, Reached, asks_checkpoint, moment, next_number, play, second,
};
use crate::saving::Saver;
use connections::door::Door;
use connections::links::Links;
use speculate::gate::Gate;
use std::alloc::{AllocError, Global};
use std::hint;
use std::rt::Clock;
use std::sync::{Arc, Wait};
use std::thread::{Parker, Threads};
use std::time::Duration;
use task_step::outcome::Outcome;
use world::worlds::World;

/// The longest wait for the next task, in seconds.
const LONGEST_WAIT: u32 = 60;

/// The longest wait while a link is watched, in seconds.
const WATCH: u32 = 1;

/// Where a server's bytes come from and go to.
#[derive(Drop)]
pub struct Edge {
    pub door: Door,
    pub links: Links,
    /// What wakes the loop.
    pub bell: Arc<Parker, Global>,
    /// The checkpoints, if they have a file.
    pub saver: Option<Saver>,
}

/// Runs what has come and what is due, and tells what that tells. Where there is nothing, and was nothing for a while,
/// waits until something comes or is due.
pub fn run_turn<G: Gate, R: Threads + Wait + Clock + Copy + Send + Sync + 'static, C: Clock>(
    rt: R,
    alloc: Global,
    gate: &G,
    clock: &C,
    plan: Plan,
    world: World,
    pace: &mut Pace,
    edge: &mut Edge,
) -> Reached {
    let next = match next_number(&world) {
        Ok(next) => next,
        Err(end) => return Reached::end(world, false, end),
    };
    let Ok(mut draft) = Draft::new(alloc, next, moment(clock), plan.key) else {
        return Reached::end(world, false, End::Memory(0));
    };
    let Edge {
        door,
        links,
        bell,
        ..
    } = edge;
    let is_watching = links.watch(second(clock));
    if add_due(&mut draft, &world).is_err() {
        return Reached::end(world, false, End::Memory(0));
    }
    if gather(rt, alloc, &mut draft, door, links, bell).is_err() {
        return Reached::end(world, false, End::Memory(0));
    }
    links.sweep(&rt);
    if draft.steps.is_empty() {
        if pace.looks_again() {
            hint::spin_loop();
        } else {
            let next_due = next_moment(&world);
            wait(&rt, bell, patience(next_due, draft.moment(), is_watching));
        }
        return Reached {
            world,
            asks: false,
            end: None,
        };
    }
    let workers = if pace.is_long(draft.steps.len()) {
        plan.workers
    } else {
        1
    };
    let Played {
        world,
        outcomes,
        end,
    } = play(&rt, alloc, gate, world, draft.steps.as_slice(), workers);
    if end.is_none() {
        pace.learn(outcomes.as_slice());
    }
    let asks = asks_checkpoint(outcomes.as_slice());
    if tell_all(&rt, links, outcomes).is_err() {
        return Reached::end(world, asks, End::Memory(0));
    }
    'closed: for number in &draft.closed {
        if links.release(&rt, *number).is_err() {
            return Reached::end(world, asks, End::Memory(0));
        }
    }
    match end {
        None => Reached::unless_ending(world, asks),
        Some(end) => Reached::end(world, asks, end),
    }
}

// How many seconds there may be nothing to do, if it is not for good: until a task may be due, or a link is to be looked at.
fn patience(next_due: Option<u32>, now: u32, is_watching: bool) -> Option<u32> {
    let seconds = match next_due {
        None if is_watching => WATCH,
        None => return None,
        Some(due) => due.saturating_sub(now).min(LONGEST_WAIT),
    };
    if is_watching {
        Some(seconds.min(WATCH))
    } else {
        Some(seconds)
    }
}

// Until something comes, or these seconds are over.
fn wait<R: Wait>(rt: &R, bell: &Parker, seconds: Option<u32>) {
    match seconds {
        None => bell.park(rt),
        Some(seconds) => bell.park_timeout(rt, Duration::from_secs(u64::from(seconds))),
    }
}

// Tells each line to its link, in order, and takes out the links that the steps closed.
fn tell_all<R: Threads + Wait>(
    rt: &R,
    links: &mut Links,
    outcomes: Vec<Outcome>,
) -> Result<(), AllocError> {
    'outcome: for outcome in outcomes {
        let Outcome { output, closed, .. } = outcome;
        'line: for line in output {
            links.tell(line.connection, line.text);
        }
        'closed: for number in closed {
            links.release(rt, number)?;
        }
    }
    links.flush(rt);
    Ok(())
}
