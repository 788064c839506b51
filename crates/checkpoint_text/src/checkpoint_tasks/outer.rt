//! The lines of what waits in a task.
ghost use Rattle.std.specs.Prelude.{◌≡◌, ◌++◌, OnOk};
ghost use Rattle.std.specs.List.{flat_map};
ghost use Rattle.spec_world.specs.Checkpoint.{with_line_ends};
ghost use Rattle.tree_parts.specs.Telling.{outer_lines};
ghost use Rattle.moo_task.specs.Effects.{waiting_of};
ghost use Rattle.moo_task.specs.Frames.{outer_of};

use crate::checkpoint_fields::page::Page;
use crate::checkpoint_frames::native::put_native;
use crate::checkpoint_tasks::frame::put_frame;
use moo_task::effect::Waiting;
use moo_task::frame::Outer;
use std::alloc::{AllocError, Global};

/// Writes the lines of what waits in a task, the outermost first.
pub fn put_outers(
    page: &mut Page,
    alloc: Global,
    waiting: &Waiting,
    outers: &[Outer],
) -> Result<(), AllocError>
    ensures { OnOk result (page.new ≡ page.old ++ with_line_ends (flat_map (λ o. outer_lines (waiting_of waiting.now) (outer_of o)) outers.now)) }
{
    for outer in outers {
        put_outer(page, alloc, waiting, outer)?;
    }
    Ok(())
}

fn put_outer(
    page: &mut Page,
    alloc: Global,
    waiting: &Waiting,
    outer: &Outer,
) -> Result<(), AllocError>
    ensures { OnOk result (page.new ≡ page.old ++ with_line_ends (outer_lines (waiting_of waiting.now) (outer_of outer.now))) }
{
    match outer {
        Outer::Verb(frame) => put_frame(page, alloc, waiting, frame),
        Outer::Native(native) => put_native(page, native),
    }
}
