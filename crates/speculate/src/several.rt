//! A list by several workers, from the world and the steps to the report.
ghost use Rattle.std.specs.Prelude.{◌≡◌, ◌≤◌, ◌<◌, ◌+◌, length, take, IfOk, IfErr};
ghost use Rattle.spec_world.specs.Step.{RunsOn, AllInRange};
ghost use Rattle.spec_moo.specs.Steps.{play};
ghost use Rattle.speculate.specs.BoardState.{runs};

use crate::board::Board;
use crate::crew::play_by_claims;
use crate::gate::Gate;
use crate::here::play_here;
use crate::report::Report;
use round_claims::Claims;
use std::alloc::Global;
use std::marker::Brand;
use std::sync::Wait;
use std::thread::Threads;
use task_step::copies::copied;
use task_step::partial::{Partial, Refusal, refused};
use task_step::step::Step;
use world::worlds::World;

// How many batches there are for each worker at least, where the list has as many positions, and how large a batch is at most.
const BATCHES_OF_WORKER: usize = 8;

const LARGEST_BATCH: usize = 8;

/// Plays the steps by so many workers, of which the caller is one. After want of memory, the first part was run.
pub(crate) fn play_by_several<G: Gate, R: Threads + Wait + Sync>(
    rt: &R,
    alloc: Global,
    gate: &G,
    world: World,
    steps: &[Step],
    workers: usize,
) -> Result<Report, Partial>
    requires workers { (0 < workers) × (workers ≤ 64) }
    requires runs { RunsOn world.plain steps.now × AllInRange steps.now }
    ensures ok { IfOk result (λ r. play world.plain steps.now ≡ (r.world.plain, r.outcomes.items)) }
    ensures count { IfOk result (λ r. (length r.outcomes.items ≡ length steps.now) × (length r.marks.items ≡ length steps.now)) }
    ensures part { IfErr result (λ p. play world.plain (take p.count steps.now) ≡ (p.world.plain, p.outcomes.items)) }
    ensures err { IfErr result (λ p. (p.count ≡ length p.outcomes.items) × (p.count ≤ length steps.now) × (p.refusal ≡ Refusal.Memory)) }
    ensures views { IfOk result (λ r. world.opened + runs r.marks.items ≤ r.world.opened) }
{
    let Ok(list) = copied(alloc, steps) else {
        return Err(refused(alloc, Refusal::Memory, world));
    };
    let size = batch_size(steps.len(), workers);
    let batches = batch_count(steps.len(), size);
    let Ok((claims, seats)) = Claims::new(alloc, batches, workers.min(steps.len())) else {
        return play_here(alloc, gate, world, steps);
    };
    let board = match Board::new(alloc, world, list) {
        Ok(board) => board,
        Err((_, world)) => return Err(refused(alloc, Refusal::Memory, world)),
    };
    let ahead = reach(size, workers);
    play_by_claims::<Brand, G, R>(rt, alloc, gate, board, &claims, seats, steps, size, ahead)
}

// How many positions a worker claims at once: few where the list is short, so that each worker gets some.
fn batch_size(count: usize, workers: usize) -> usize
    ensures { 0 < result }
{
    let each = workers.saturating_mul(BATCHES_OF_WORKER).max(1);
    (count / each).min(LARGEST_BATCH).max(1)
}

// How far ahead of what is committed a worker goes where guesses do not hold: as far as all workers' batches reach, and two more.
fn reach(size: usize, workers: usize) -> usize {
    size.saturating_mul(workers.saturating_add(2))
}

// How many batches of this size there are, of which the last may be empty.
fn batch_count(count: usize, size: usize) -> usize
    requires { 0 < size }
    ensures { result ≤ count + 1 }
{
    (count / size).saturating_add(1)
}
