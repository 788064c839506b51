//! Lists of steps on one thread.
ghost use Rattle.std.specs.Prelude.{◌≡◌, ◌≢◌, ◌≤◌, ◌+◌, ◌↔◌, length, take, IsTrue, IsOk, IfOk, IfErr, OnErr};
ghost use Rattle.spec_world.specs.Step.{RunsOn, AllInRange, in_range};
ghost use Rattle.spec_moo.specs.Steps.{play1, play};

use crate::rooms::Rooms;
use crate::step::run_step;
use std::alloc::{AllocError, Global};
use task_step::list::may_play;
use task_step::outcome::Outcome;
use task_step::partial::{Partial, Refusal, refused};
use task_step::step::Step;
use world::live::Live;
use world::worlds::World;

/// Runs the steps one after another. After want of memory, the first part was run.
pub fn play_list(
    alloc: Global,
    mut world: World,
    steps: &[Step],
) -> Result<(World, Vec<Outcome>), Partial>
    ensures ok { IfOk result (λ r. play world.plain steps.now ≡ ((r.0).plain, (r.1).items)) }
    ensures err { IfErr result (λ p. (play world.plain (take p.count steps.now) ≡ (p.world.plain, p.outcomes.items)) × (p.count ≤ length steps.now)) }
    ensures numbers { IfErr result (λ p. (p.refusal ≡ Refusal.Numbers) ↔ ¬ (RunsOn world.plain steps.now × AllInRange steps.now)) }
    ensures numbers_fit { IsOk result → RunsOn world.plain steps.now × AllInRange steps.now }
    ensures untouched { IfErr result (λ p. (p.refusal ≡ Refusal.Numbers) → (p.world ≡ world) × (p.count ≡ 0)) }
    ensures workers { IfErr result (λ p. p.refusal ≢ Refusal.Workers) }
{
    if !may_play(world.next(), steps) {
        return Err(refused(alloc, Refusal::Numbers, world));
    }
    let mut outcomes = match Vec::with_capacity(alloc, steps.len()) {
        Ok(outcomes) => outcomes,
        Err(_) => return Err(refused(alloc, Refusal::Memory, world)),
    };
    for step in steps {
        match play_step(alloc, &mut world, step) {
            Ok(outcome) => outcomes.push_reserved(outcome),
            Err(_) => {
                let count = outcomes.len();
                return Err(Partial {
                    refusal: Refusal::Memory,
                    world,
                    outcomes,
                    count,
                });
            }
        }
    }
    Ok((world, outcomes))
}

/// Runs a step on the world itself, in one view of it. After an error the world is as it was.
pub fn play_step(alloc: Global, world: &mut World, step: &Step) -> Result<Outcome, AllocError>
    requires { IsTrue (in_range step.now) }
    ensures ok { IfOk result (λ o. play1 world.old.plain step.now ≡ (world.new.plain, o)) }
    ensures err { OnErr result (world.new.plain ≡ world.old.plain) }
    ensures opened { world.new.opened ≡ world.old.opened + 1 }
{
    world.know();
    let mut live = Live::open(world);
    let mut rooms = Rooms::new();
    let outcome = run_step(alloc, &mut live, &mut rooms, step)?;
    live.keep();
    Ok(outcome)
}
