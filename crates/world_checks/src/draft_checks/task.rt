//! A task of a world.
ghost use Rattle.std.specs.Prelude.{◌≡◌, ℕ, ◌*◌, ◌-◌, pos, int_le, ◌&&◌, IfOk, IsTrue};
ghost use Rattle.spec_value.specs.Table.{at};
ghost use Rattle.spec_world.specs.World.{Task as Meant};
ghost use Rattle.moo_task.specs.Waits.{read_on};
ghost use Rattle.world_checks.specs.DraftChecksTasks.{TaskFits, TaskFitsAt, link_there};

use crate::task_checks::task::{entries_fit, know_places, moment_fits};
use moo_task::task::Task;
use std::alloc::{AllocError, Global};
use world::draft::Draft;

// How many ids of tasks a step has.
const IDS_OF_STEP: u64 = 64;

/// Whether the task of an id, if it waits, is that of a well-formed world.
pub fn task_fits_at(alloc: Global, draft: &Draft, id: i32) -> Result<bool, AllocError>
    ensures tells { IfOk result (λ fits. IsTrue fits → TaskFitsAt draft.now id) }
    ensures finds { IfOk result (λ fits. TaskFitsAt draft.now id → IsTrue fits) }
{
    match draft.task(id) {
        Some(task) => task_fits(alloc, draft, id, task),
        None => Ok(true),
    }
}

#[tactic(auto, using(crate::proofs::Fitting::task_fits, crate::proofs::Fitting::id_of, crate::proofs::Fitting::entries_of, crate::proofs::Fitting::moment_of, crate::proofs::Fitting::link_of))]
fn task_fits(alloc: Global, draft: &Draft, id: i32, task: &Task) -> Result<bool, AllocError>
    ensures tells { IfOk result (λ fits. IsTrue fits → TaskFits draft.now id task.now) }
    ensures finds { IfOk result (λ fits. TaskFits draft.now id task.now → IsTrue fits) }
{
    know_places(task);
    if !id_fits(id, draft.next()) {
        return Ok(false);
    }
    if !moment_fits(task) {
        return Ok(false);
    }
    if !is_linked(draft, task) {
        return Ok(false);
    }
    let fit = entries_fit(alloc, task)?;
    Ok(fit)
}

// Whether a step before this one may have given the id.
fn id_fits(id: i32, next: u64) -> bool
    ensures tells { IsTrue result → IsTrue (int_le (pos 1) id && int_le id (pos ((next - 1) * 64))) }
    ensures finds { IsTrue (int_le (pos 1) id && int_le id (pos ((next - 1) * 64))) → IsTrue result }
{
    if id < 1 {
        return false;
    }
    (id as u64 - 1) / IDS_OF_STEP + 1 < next
}

// Whether the connection is linked on which the task reads, if it reads on one.
fn is_linked(draft: &Draft, task: &Task) -> bool
    ensures { result ≡ link_there draft.now (read_on task.now.waiting) }
{
    match task.reads_on() {
        Some(connection) => draft.link(connection).is_some(),
        None => true,
    }
}
