//! Tasks that a step queues: their ids, and when they are due.
ghost use Rattle.std.specs.Prelude.{◌≡◌, ◌<◌, ℕ, IfOk, IfSome, OnOk};
ghost use Rattle.spec_world.specs.World.{World, Task, forked};
ghost use Rattle.spec_moo.specs.Scene.{moment_after as moment_after_of, enqueued, id_taken};
ghost use Rattle.moo_task.specs.Deeds.{scene_of};
ghost use Rattle.moo_task.specs.Queueing.{IsNextId, with_task};

use crate::deeds::{Deeds, Due, Queued};
use std::alloc::AllocError;

/// How many tasks a step may queue.
pub const MOST_QUEUED: u32 = 64;

// The last moment that there is, in seconds.
const LAST_MOMENT: u32 = 2_147_483_647;

/// The id of the next task that the step queues; none where it has queued as many as it may. No server runs so many steps
/// that their ids were no integers: that would be want of memory.
pub fn next_id(deeds: &Deeds) -> Result<Option<i32>, AllocError>
    ensures next { IfOk result (λ id. (w : World) (t : ℕ) → IsNextId id (scene_of deeds.now w t)) }
    ensures left { IfOk result (λ id. IfSome id (λ i. deeds.now.ids_used < 64)) }
{
    if deeds.ids_used >= MOST_QUEUED {
        return Ok(None);
    }
    let steps = u64::from(deeds.number.saturating_sub(1));
    let number = steps * u64::from(MOST_QUEUED) + u64::from(deeds.ids_used) + 1;
    match i32::try_from(number) {
        Ok(id) => Ok(Some(id)),
        Err(_) => Err(AllocError),
    }
}

/// The moment so many seconds after the step, or the last one that there is.
pub fn moment_after(deeds: &Deeds, seconds: u32) -> u32
    ensures { (w : World) (t : ℕ) → result ≡ moment_after_of (scene_of deeds.now w t) seconds }
{
    deeds.moment.saturating_add(seconds).min(LAST_MOMENT)
}

/// The step queues a task under an id that it takes, until a moment in seconds. The task itself goes into the world.
pub fn enqueue(deeds: &mut Deeds, id: i32, due: u32) -> Result<(), AllocError>
    requires { deeds.old.ids_used < 64 }
    ensures { OnOk result ((w : World) (t : ℕ) (task : Task) → task.waiting ≡ forked due
        → enqueued (id_taken (scene_of deeds.old w t)) id task ≡ scene_of deeds.new (with_task w id task) t) }
{
    deeds.queued.push(Queued {
        id,
        due: Due::AtMoment(due),
    })?;
    deeds.ids_used += 1;
    Ok(())
}
