//! Tasks, from their lines.
ghost use Rattle.std.specs.Prelude.{◌≡◌, [], ◌∷◌, ◌++◌, ℤ, List, Some, IsTrue};
ghost use Rattle.spec_value.specs.Datum as datum;
ghost use Rattle.spec_value.specs.Datum.{in_number_range};
ghost use Rattle.spec_world.specs.World as world;
ghost use Rattle.spec_world.specs.Checkpoint.{task_lines};
ghost use Rattle.moo_task.specs.Effects.{waiting_of};
ghost use Rattle.spec_faults.specs.Awaited as awaited;
ghost use Rattle.checkpoint_lines.specs.Rows.{Left, Reads};
ghost use Rattle.checkpoint_lines.specs.Told.{Tells};
ghost use Rattle.task_lines.specs.Tasks.{TaskReads, is_forked};

use crate::entries::next_entries;
use crate::waiting::next_waiting;
use checkpoint_lines::fault::DecodeError;
use checkpoint_lines::lines::Lines;
use moo_task::effect::Waiting;
use moo_task::task::Task;
use std::alloc::Global;
use tree_parts::frame_tasks::task::task_from;

/// A task with its id, from the next lines. There is none where its lines have no fault and yet no task is so.
pub fn next_task(alloc: Global, lines: &mut Lines<'_>) -> Result<(i32, Option<Task>), DecodeError>
    ensures reads { (i : ℤ) (t : world.Task) (rest : List datum.Text) → IsTrue (in_number_range i) → TaskReads i t → Left lines.old (task_lines i t ++ rest) → Reads result lines.new rest (λ r. (r.0 ≡ i) × (r.1 ≡ Some t)) }
    ensures tells { Tells result lines.old lines.new (awaited.task ∷ []) (λ _. []) }
{
    let (id, waiting) = next_waiting(alloc, lines)?;
    let player = lines.next_object(alloc, b"player")?;
    let verbs = next_entries(alloc, lines, is_fork(&waiting))?;
    let task = task_from(alloc, player, waiting, verbs)?;
    Ok((id, task))
}

fn is_fork(waiting: &Waiting) -> bool
    ensures { result ≡ is_forked (waiting_of waiting.now) }
{
    match waiting {
        Waiting::Forked(_) => true,
        Waiting::Timed(_, _) | Waiting::Idle | Waiting::ReadingOn(_) => false,
    }
}
