//! How a server runs its lists.
use speculate::gate::Gate;
use speculate::list::run_list;
use std::alloc::Global;
use std::rt::Clock;
use std::sync::Wait;
use std::thread::Threads;
use task_step::outcome::Outcome;
use task_step::partial::Refusal;
use task_step::step::{GREATEST_MOMENT, GREATEST_NUMBER, Step};
use view::question::{Answer, Question};
use world::worlds::World;

/// How a server runs its lists.
#[derive(Clone, Copy, Debug)]
pub struct Plan {
    /// The key of every step.
    pub key: [u8; 32],
    /// How many workers run a long list.
    pub workers: usize,
}

/// Why a server does not go on.
#[derive(Clone, Copy, PartialEq, Eq, Debug)]
pub enum End {
    /// A task asked for it.
    Asked,
    /// The numbers of steps are used up.
    Numbers,
    /// Memory ran out after so many steps of a list.
    Memory(usize),
}

/// How far a server has come.
#[derive(Drop)]
pub struct Reached {
    pub world: World,
    /// Whether a task has asked for a checkpoint of this world.
    pub asks: bool,
    /// Why it does not go on.
    pub end: Option<End>,
}

impl Reached {
    /// It does not go on.
    pub fn end(world: World, asks: bool, end: End) -> Reached {
        Reached {
            world,
            asks,
            end: Some(end),
        }
    }

    /// It goes on, unless a task asked for the end of the server.
    pub fn unless_ending(world: World, asks: bool) -> Reached {
        let end = match world.ask(&Question::Ending) {
            Ok(Answer::Ending(true)) => Some(End::Asked),
            Ok(_) => None,
            Err(_) => Some(End::Memory(0)),
        };
        Reached { world, asks, end }
    }
}

/// Whether one of these asked for a checkpoint.
pub fn asks_checkpoint(outcomes: &[Outcome]) -> bool {
    outcomes.iter().any(|outcome| outcome.checkpoint)
}

/// What a list left and gave, as far as it was run.
#[derive(Drop)]
pub struct Played {
    pub world: World,
    pub outcomes: Vec<Outcome>,
    /// Why not all of it was run.
    pub end: Option<End>,
}

/// Runs a list of steps by so many workers.
pub fn play<G: Gate, R: Threads + Wait + Clock + Sync>(
    rt: &R,
    alloc: Global,
    gate: &G,
    world: World,
    steps: &[Step],
    workers: usize,
) -> Played {
    match run_list(rt, alloc, gate, world, steps, workers) {
        Ok(report) => Played {
            world: report.world,
            outcomes: report.outcomes,
            end: None,
        },
        Err(partial) => {
            let end = match partial.refusal {
                Refusal::Memory => End::Memory(partial.count),
                Refusal::Numbers | Refusal::Workers => End::Numbers,
            };
            Played {
                world: partial.world,
                outcomes: partial.outcomes,
                end: Some(end),
            }
        }
    }
}

/// The number of the next step, if there is one.
pub fn next_number(world: &World) -> Result<u32, End> {
    let next = world.next();
    if next > u64::from(GREATEST_NUMBER) {
        return Err(End::Numbers);
    }
    Ok(next as u32)
}

/// The seconds since an arbitrary start, which never go back, or 0 where the clock cannot be read.
pub fn second<C: Clock>(clock: &C) -> u64 {
    match clock.monotonic() {
        Ok(since) => since.as_secs(),
        Err(_) => 0,
    }
}

/// The seconds since 1970, or 0 where the clock cannot be read.
pub fn moment<C: Clock>(clock: &C) -> u32 {
    match clock.since_1970() {
        Ok(since) => since.as_secs().min(u64::from(GREATEST_MOMENT)) as u32,
        Err(_) => 0,
    }
}
