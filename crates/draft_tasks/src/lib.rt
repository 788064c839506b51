//! The tasks of a draft, from the lines of a text.
#![tactic(auto)]

ghost use Rattle.std.specs.Prelude.{◌≡◌, ℤ, [], ◌∷◌, ◌++◌, List, Option, length, IsTrue, OnOk, codes};
ghost use Rattle.std.specs.List.{list_all};
ghost use Rattle.spec_value.specs.Datum as datum;
ghost use Rattle.spec_world.specs.World.{World};
ghost use Rattle.spec_world.specs.Questions.{put_task};
ghost use Rattle.spec_world.specs.WellFormed.{IsWellFormed};
ghost use Rattle.spec_world.specs.Checkpoint.{each_task};
ghost use Rattle.spec_faults.specs.Awaited.{again, counted, each_task as one_task};
ghost use Rattle.checkpoint_lines.specs.Rows.{Left, Reads};
ghost use Rattle.checkpoint_lines.specs.Told.{Tells};
ghost use Rattle.task_lines.specs.Readable.{is_task_read, tasks_before};

use checkpoint_lines::fault::DecodeError;
use checkpoint_lines::lines::Lines;
use moo_task::task::Task;
use std::alloc::{AllocError, Global};
use task_lines::task::next_task;
use view::change::Change;
use world::draft::Draft;

/// The tasks, with their count before them: whether all of them could be made of their lines.
pub fn read_tasks(
    alloc: Global,
    lines: &mut Lines<'_>,
    draft: &mut Draft,
) -> Result<bool, DecodeError>
    ensures reads { (w : World) (rest : List datum.Text) → IsWellFormed w → IsTrue (list_all is_task_read w.tasks) → draft.old.tasks ≡ [] → Left lines.old (tasks_before w rest)
        → Reads result lines.new rest (λ done. IsTrue done × (draft.new ≡ record (draft.old) { tasks = w.tasks })) }
    ensures tells { Tells result lines.old lines.new (counted (codes "tasks") one_task ∷ []) (λ _. []) }
{
    let count = lines.next_count(alloc, b"tasks")?;
    so_many_tasks(alloc, lines, draft, count)
}

fn so_many_tasks(
    alloc: Global,
    lines: &mut Lines<'_>,
    draft: &mut Draft,
    count: u64,
) -> Result<bool, DecodeError>
    ensures reads { (w : World) (rest : List datum.Text) → IsWellFormed w → IsTrue (list_all is_task_read w.tasks) → draft.old.tasks ≡ [] → count ≡ length w.tasks → Left lines.old (each_task w.tasks ++ rest)
        → Reads result lines.new rest (λ done. IsTrue done × (draft.new ≡ record (draft.old) { tasks = w.tasks })) }
    ensures tells { Tells result lines.old lines.new (again count one_task ∷ []) (λ _. []) }
{
    let mut all = true;
    'reading: for _task in 0..count {
        let entry = next_task(alloc, lines)?;
        all = all && entry.1.is_some();
        put_one(entry, draft)?;
    }
    Ok(all)
}

// A task with its id, if there is one.
fn put_one(entry: (i32, Option<Task>), draft: &mut Draft) -> Result<(), AllocError>
    ensures { OnOk result (draft.new ≡ record (draft.old) { tasks = put_task draft.old.tasks entry.0 entry.1 }) }
{
    let (id, task) = entry;
    draft.put(Change::Task(id, task))
}
