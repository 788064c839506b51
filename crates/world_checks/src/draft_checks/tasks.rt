//! The tasks of a world.
ghost use Rattle.std.specs.Prelude.{◌≡◌, ℤ, ◌++◌, [], IfOk, OnOk, IsTrue};
ghost use Rattle.std.specs.List.{All};
ghost use Rattle.spec_world.specs.Agreeing.{LinksAgree};
ghost use Rattle.world_checks.specs.DraftChecksTasks.{TaskFitsAt, TasksAreSound, all_read, before, read_at as read_at_of};

use crate::draft_checks::task::task_fits_at;
use crate::table_checks::once::is_once;
use crate::table_checks::rise::rise;
use std::alloc::{AllocError, Global};
use world::draft::Draft;

/// Whether the tasks that wait are those of a well-formed world: their ids rise, and were given by steps before the next one, each
/// task is one that can wait so, and no two tasks read on one connection.
#[tactic(auto, using(crate::proofs::Reading::tasks_sound, crate::proofs::Reading::ids_rise, crate::proofs::Reading::each_fits))]
pub fn tasks_are_sound(alloc: Global, draft: &Draft) -> Result<bool, AllocError>
    ensures tells { IfOk result (λ sound. IsTrue sound → TasksAreSound draft.now) }
    ensures finds { IfOk result (λ sound. LinksAgree draft.now → TasksAreSound draft.now → IsTrue sound) }
{
    let waiting = draft.waiting()?;
    let ids = waiting.as_slice();
    if !rise(ids) {
        return Ok(false);
    }
    let fit = all_fit(alloc, draft, ids)?;
    if !fit {
        return Ok(false);
    }
    let connections = connections_read(alloc, draft, ids)?;
    let once = is_once(alloc, &connections)?;
    Ok(once)
}

fn all_fit(alloc: Global, draft: &Draft, ids: &[i32]) -> Result<bool, AllocError>
    ensures tells { IfOk result (λ fit. IsTrue fit → All (TaskFitsAt draft.now) ids.now) }
    ensures finds { IfOk result (λ fit. ((id : ℤ) → TaskFitsAt draft.now id) → IsTrue fit) }
{
    for id in ids {
        let fits = task_fits_at(alloc, draft, *id)?;
        if !fits {
            return Ok(false);
        }
    }
    Ok(true)
}

// The connections on which the tasks of these ids read, in the order of the ids.
fn connections_read(alloc: Global, draft: &Draft, ids: &[i32]) -> Result<Vec<i32>, AllocError>
    ensures { IfOk result (λ connections. connections.items ≡ all_read draft.now ids.now) }
{
    let mut connections = Vec::new(alloc);
    for id in ids {
        push_read(&mut connections, read_at(draft, *id))?;
    }
    Ok(connections)
}

fn push_read(connections: &mut Vec<i32>, read: Option<i32>) -> Result<(), AllocError>
    ensures { OnOk result (connections.new.items ≡ connections.old.items ++ before read []) }
{
    match read {
        Some(connection) => {
            connections.push(connection)?;
            Ok(())
        }
        None => Ok(()),
    }
}

// The connection on which the task of an id reads.
fn read_at(draft: &Draft, id: i32) -> Option<i32>
    ensures { result ≡ read_at_of draft.now id }
{
    match draft.task(id) {
        Some(task) => task.reads_on(),
        None => None,
    }
}
