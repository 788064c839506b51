//! The tasks of a world.
ghost use Rattle.std.specs.Prelude.{◌≡◌, ◌++◌, OnOk};
ghost use Rattle.spec_value.specs.Table.{at};
ghost use Rattle.spec_world.specs.Checkpoint.{task_lines, with_line_ends};
ghost use Rattle.checkpoint_text.specs.Each.{of_each, of_found};

use crate::checkpoint_fields::page::Page;
use crate::checkpoint_tasks::task::put_task;
use std::alloc::{AllocError, Global};
use world::draft::Draft;

/// Writes the tasks of these ids.
pub fn put_tasks(
    page: &mut Page,
    alloc: Global,
    draft: &Draft,
    ids: &[i32],
) -> Result<(), AllocError>
    ensures { OnOk result (page.new ≡ page.old ++ with_line_ends (of_each task_lines draft.now.tasks ids.now)) }
{
    for id in ids {
        put_found(page, alloc, draft, *id)?;
    }
    Ok(())
}

/// Writes the task of an id, if there is one.
pub fn put_found(page: &mut Page, alloc: Global, draft: &Draft, id: i32) -> Result<(), AllocError>
    ensures { OnOk result (page.new ≡ page.old ++ with_line_ends (of_found task_lines id (at draft.now.tasks id))) }
{
    match draft.task(id) {
        Some(task) => put_task(page, alloc, id, task),
        None => Ok(()),
    }
}
