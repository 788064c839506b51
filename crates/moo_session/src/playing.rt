//! The list of a session, played.
ghost use Rattle.std.specs.Prelude.{◌≡◌, ◌<◌, ◌≤◌, length, IfOk, IfErr};
ghost use Rattle.spec_world.specs.Step.{RunsOn, AllInRange};
ghost use Rattle.spec_moo.specs.Steps.{play};
ghost use Rattle.streams.specs.Reads.{all_given};
ghost use Rattle.moo_session.specs.Sessions.{session_steps};

use crate::draft::Draft;
use speculate::gate::Gate;
use speculate::list::run_list;
use std::alloc::Global;
use std::rt::Clock;
use std::sync::Wait;
use std::thread::Threads;
use task_step::outcome::Outcome;
use task_step::partial::Refusal;
use telnet_line::Event;
use world::worlds::World;

/// Why nothing was played.
#[derive(Clone, Copy, PartialEq, Eq, Debug)]
pub enum Unplayed {
    Memory,
    /// A step is out of its range.
    Numbers,
}

/// Plays what the connections say. After a refusal the world is as it was.
pub fn play_all<G: Gate, R: Threads + Wait + Clock + Sync>(
    rt: &R,
    alloc: Global,
    gate: &G,
    world: World,
    all: &[Vec<Event>],
    key: [u8; 32],
    moment: u32,
    workers: usize,
) -> Result<(World, Vec<Outcome>), (Unplayed, World)>
    requires count { length all.now < 1000 }
    requires workers { (0 < workers) × (workers ≤ 64) }
    ensures ok { IfOk result (λ r. play world.plain (session_steps world.plain.next moment key (all_given all.now)) ≡ (r.0.plain, r.1.items)) }
    ensures err { IfErr result (λ e. e.1.plain ≡ world.plain) }
    ensures numbers { IfErr result (λ e. e.0 ≡ Unplayed.Numbers → RunsOn world.plain (session_steps world.plain.next moment key (all_given all.now))
        → AllInRange (session_steps world.plain.next moment key (all_given all.now)) → ⊥) }
{
    let mut draft = Draft::new(alloc, first_number(&world), moment, key);
    if draft.fill(all).is_err() {
        return Err((Unplayed::Memory, world));
    }
    if !draft.fits {
        return Err((Unplayed::Numbers, world));
    }
    let Ok(before) = world.snapshot() else {
        return Err((Unplayed::Memory, world));
    };
    match run_list(rt, alloc, gate, world, draft.steps.as_slice(), workers) {
        Ok(report) => Ok((report.world, report.outcomes)),
        Err(partial) if partial.refusal == Refusal::Numbers => {
            Err((Unplayed::Numbers, before.into_world()))
        }
        Err(_) => Err((Unplayed::Memory, before.into_world())),
    }
}

// The number of the first step. A world whose numbers are used up has one that is out of range; its list is then refused.
fn first_number(world: &World) -> u32
    ensures { result ≡ world.now.plain.next }
{
    world.know();
    world.next() as u32
}
