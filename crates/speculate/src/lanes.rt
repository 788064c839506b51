//! A list whose steps are run side by side, where those of one lane have nothing to do with those of the others.
ghost use Rattle.std.specs.Prelude.{◌≡◌, ◌≤◌, ◌<◌, ◌+◌, [], length, map, IfOk, IfErr, IfSome, OnErr};
ghost use Rattle.spec_world.specs.World.{World as Plain};
ghost use Rattle.spec_world.specs.Step.{AllInRange};
ghost use Rattle.spec_world.specs.Questions.{apply_all};
ghost use Rattle.spec_moo.specs.Steps.{play};
ghost use Rattle.view.specs.Sound.{IsSound};
ghost use Rattle.speculate.specs.BoardState.{runs};
ghost use Rattle.speculate.specs.Lanes.{Each, HasRun};

use crate::bench::run_lanes;
use crate::held::Mark;
use crate::lane::Lane;
use crate::plan::colors;
use crate::report::Report;
use crate::weaving::{all_changes, are_apart, weave};
use std::alloc::Global;
use std::marker::Brand;
use std::sync::Wait;
use std::thread::Threads;
use task_step::outcome::Outcome;
use task_step::step::Step;
use view::changes::Changes;
use world::worlds::World;

// So many lanes are there for each worker, so that one which is held up does not keep the others waiting.
const LANES: usize = 2;

/// Plays the steps in lanes by so many workers. Else the world is as it was: after want of memory, and where steps of one lane have
/// to do with those of another, or do more than to give slots other values.
pub(crate) fn play_in_lanes<R: Threads + Wait + Sync>(
    rt: &R,
    alloc: Global,
    mut world: World,
    steps: &[Step],
    workers: usize,
) -> Result<Report, World>
    requires { AllInRange steps.now }
    ensures ok { IfOk result (λ r. play world.plain steps.now ≡ (r.world.plain, r.outcomes.items)) }
    ensures count { IfOk result (λ r. (length r.outcomes.items ≡ length steps.now) × (length r.marks.items ≡ length steps.now)) }
    ensures views { IfOk result (λ r. world.opened + runs r.marks.items ≤ r.world.opened) }
    ensures err { IfErr result (λ w. w ≡ world) }
{
    let Some((outcomes, changes)) = woven(rt, alloc, &world, steps, workers) else {
        return Err(world);
    };
    let Some(marks) = all_kept(alloc, steps.len()) else {
        return Err(world);
    };
    if world.change(&changes).is_err() {
        return Err(world);
    }
    Ok(Report {
        world,
        outcomes,
        marks,
    })
}

// The outcomes, and all changes together.
fn woven<R: Threads + Wait + Sync>(
    rt: &R,
    alloc: Global,
    world: &World,
    steps: &[Step],
    workers: usize,
) -> Option<(Vec<Outcome>, Changes)>
    requires { AllInRange steps.now }
    ensures played { IfSome result (λ r. play world.now.plain steps.now ≡ (apply_all r.1 world.now.plain, r.0.items)) }
    ensures sound { IfSome result (λ r. IsSound (apply_all r.1 world.now.plain)) }
    ensures count { IfSome result (λ r. length r.0.items ≡ length steps.now) }
{
    world.know();
    let lanes = workers.saturating_mul(LANES);
    let colors = colors(alloc, steps, lanes)?;
    let Ok(home) = world.snapshot() else {
        return None;
    };
    let mut ran = run_lanes::<Brand, R>(
        rt,
        alloc,
        &home,
        steps,
        colors.as_slice(),
        lanes,
        workers,
    )?;
    if !are_apart(ran.as_slice()) {
        return None;
    }
    let changes = all_changes(alloc, ran.as_slice())?;
    let outcomes = weave(alloc, steps, colors.as_slice(), &mut ran)?;
    Some((outcomes, changes))
}

// So many steps were kept.
fn all_kept(alloc: Global, count: usize) -> Option<Vec<Mark>>
    ensures kept { IfSome result (λ ms. runs ms.items ≡ 0) }
    ensures count { IfSome result (λ ms. length ms.items ≡ count) }
{
    match vec![in alloc; Mark::Kept; count] {
        Ok(marks) => Some(marks),
        Err(_) => None,
    }
}
