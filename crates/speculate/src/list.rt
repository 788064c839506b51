//! A list of steps.
ghost use Rattle.std.specs.Prelude.{◌≡◌, ◌≢◌, ◌≤◌, ◌<◌, ◌↔◌, ◌⊎◌, ◌+◌, length, take, IfOk, IfErr, IsOk};
ghost use Rattle.spec_world.specs.Step.{RunsOn, AllInRange};
ghost use Rattle.spec_moo.specs.Steps.{play};
ghost use Rattle.speculate.specs.BoardState.{runs};

use crate::gate::Gate;
use crate::here::play_here;
use crate::report::Report;
use crate::several::play_by_several;
use crate::stretches::play_in_stretches;
use std::alloc::Global;
use std::rt::Clock;
use std::sync::Wait;
use std::thread::Threads;
use task_step::list::may_play;
use task_step::partial::{Partial, Refusal, refused};
use task_step::step::Step;
use world::worlds::World;

/// The most workers of a list.
pub const MOST_WORKERS: usize = 64;

/// Runs the steps by as many workers at most, of which the caller is one: what comes is what the steps do one after another. Where the gate is free,
/// the caller alone plays what several workers would not play in less time, as far as the pace so far tells. Refused are, in this order,
/// a number of workers that is not from 1 to 64, and steps whose numbers do not run on from the world's next one or that are out of range;
/// then the world is as it was. After want of memory the first steps were run.
pub fn run_list<G: Gate, R: Threads + Wait + Clock + Sync>(
    rt: &R,
    alloc: Global,
    gate: &G,
    world: World,
    steps: &[Step],
    workers: usize,
) -> Result<Report, Partial>
    ensures ok { IfOk result (λ r. play world.plain steps.now ≡ (r.world.plain, r.outcomes.items)) }
    ensures part { IfErr result (λ p. play world.plain (take p.count steps.now) ≡ (p.world.plain, p.outcomes.items)) }
    ensures count { IfOk result (λ r. (length r.outcomes.items ≡ length steps.now) × (length r.marks.items ≡ length steps.now)) }
    ensures err { IfErr result (λ p. (p.count ≡ length p.outcomes.items) × (p.count ≤ length steps.now)) }
    ensures views { IfOk result (λ r. world.opened + runs r.marks.items ≤ r.world.opened) }
    ensures workers { IfErr result (λ p. (p.refusal ≡ Refusal.Workers) ↔ ((workers ≡ 0) ⊎ (64 < workers))) }
    ensures numbers { IfErr result (λ p. (p.refusal ≡ Refusal.Numbers) ↔ ((0 < workers) × (workers ≤ 64) × ¬ (RunsOn world.plain steps.now × AllInRange steps.now))) }
    ensures untouched { IfErr result (λ p. (p.refusal ≢ Refusal.Memory) → (p.world ≡ world) × (p.count ≡ 0)) }
    ensures right { IsOk result → (0 < workers) × (workers ≤ 64) × RunsOn world.plain steps.now × AllInRange steps.now }
{
    if workers == 0 || workers > MOST_WORKERS {
        return Err(refused(alloc, Refusal::Workers, world));
    }
    if !may_play(world.next(), steps) {
        return Err(refused(alloc, Refusal::Numbers, world));
    }
    if workers == 1 || steps.len() <= 1 {
        return play_here(alloc, gate, world, steps);
    }
    if gate.is_free() {
        return play_in_stretches(rt, alloc, gate, world, steps, workers);
    }
    play_by_several(rt, alloc, gate, world, steps, workers)
}
