//! The lines of verbs that wait.
ghost use Rattle.std.specs.Prelude.{◌≡◌, ◌++◌, OnOk};
ghost use Rattle.spec_world.specs.Checkpoint.{with_line_ends};
ghost use Rattle.tree_parts.specs.Telling.{verb_lines};
ghost use Rattle.moo_task.specs.Effects.{waiting_of};
ghost use Rattle.moo_task.specs.Frames.{kept_of};

use crate::checkpoint_fields::page::Page;
use crate::checkpoint_frames::call::put_start;
use crate::checkpoint_frames::each_variable::put_variables;
use crate::checkpoint_frames::place::{put_held, put_place};
use crate::checkpoint_frames::program::put_program;
use moo_task::effect::Waiting;
use moo_task::frame::Frame;
use std::alloc::{AllocError, Global};
use tree_parts::frame_places::told::{frame_held, frame_path};

/// Writes the lines of a verb of a task that waits so.
pub fn put_frame(
    page: &mut Page,
    alloc: Global,
    waiting: &Waiting,
    frame: &Frame,
) -> Result<(), AllocError>
    ensures { OnOk result (page.new ≡ page.old ++ with_line_ends (verb_lines (waiting_of waiting.now) (kept_of frame.now))) }
{
    put_program(page, alloc, &frame.call, &frame.program)?;
    put_start(page, &frame.start)?;
    let path = frame_path(alloc, waiting, frame)?;
    put_place(page, &path)?;
    put_variables(page, alloc, frame)?;
    put_held(page, frame_held(waiting, frame))?;
    Ok(())
}
