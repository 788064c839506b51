//! The lines of tasks.
ghost use Rattle.std.specs.Prelude.{◌≡◌, ◌++◌, [], ◌∷◌, OnOk};
ghost use Rattle.spec_world.specs.Checkpoint.{task_lines, with_line_ends};
ghost use Rattle.checkpoint_text.specs.CheckpointTasksLines.{player_line, reason_text, waiting_line};
ghost use Rattle.moo_task.specs.Effects.{waiting_of};

use crate::checkpoint_fields::page::Page;
use crate::checkpoint_tasks::outer::put_outers;
use moo_task::effect::Waiting;
use moo_task::task::Task;
use std::alloc::{AllocError, Global};
use tree_parts::frame_places::told::told;

/// Writes a task of this id.
pub fn put_task(page: &mut Page, alloc: Global, id: i32, task: &Task) -> Result<(), AllocError>
    ensures { OnOk result (page.new ≡ page.old ++ with_line_ends (task_lines id task.now)) }
{
    let waiting = task.waiting();
    let outers = told(task);
    put_waiting(page, id, waiting)?;
    put_player(page, task)?;
    page.put_count("entries", outers.len())?;
    put_outers(page, alloc, waiting, outers)?;
    Ok(())
}

// How a task of this id waits.
fn put_waiting(page: &mut Page, id: i32, waiting: &Waiting) -> Result<(), AllocError>
    ensures { OnOk result (page.new ≡ page.old ++ with_line_ends (waiting_line id (waiting_of waiting.now) ∷ [])) }
{
    page.put("task ")?;
    page.put_signed(id)?;
    put_reason(page, waiting)?;
    page.end_line()?;
    Ok(())
}

fn put_reason(page: &mut Page, waiting: &Waiting) -> Result<(), AllocError>
    ensures { OnOk result (page.new ≡ page.old ++ reason_text (waiting_of waiting.now)) }
{
    match waiting {
        Waiting::Forked(due) => {
            page.put(" fork ")?;
            page.put_number(u64::from(*due))
        }
        Waiting::Timed(due, value) => {
            page.put(" wait ")?;
            page.put_number(u64::from(*due))?;
            page.put(" ")?;
            page.put_value(value)
        }
        Waiting::Idle => page.put(" idle"),
        Waiting::ReadingOn(connection) => {
            page.put(" read ")?;
            page.put_signed(*connection)
        }
    }
}

fn put_player(page: &mut Page, task: &Task) -> Result<(), AllocError>
    ensures { OnOk result (page.new ≡ page.old ++ with_line_ends (player_line task.now.player ∷ [])) }
{
    page.put("player ")?;
    page.put_object(task.player())?;
    page.end_line()
}
