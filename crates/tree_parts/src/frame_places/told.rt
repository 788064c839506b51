//! What the text of a world has of a task: the verbs and built-in functions under way, and where each verb stands.
ghost use Rattle.std.specs.Prelude.{◌≡◌, length, IfOk};
ghost use Rattle.std.specs.List.{flat_map};
ghost use Rattle.spec_world.specs.Checkpoint.{each_entry};
ghost use Rattle.moo_code.specs.Rebuilding.{call_path as call_path_of};
ghost use Rattle.moo_task.specs.Effects.{waiting_of};
ghost use Rattle.moo_task.specs.Frames.{kept_of, outer_of};
ghost use Rattle.tree_parts.specs.Telling.{or_none, outer_lines, told_held, told_path};

use crate::frame_paths::paths::call_path;
use moo_task::effect::Waiting;
use moo_task::frame::{Frame, Outer};
use moo_task::task::Task;
use moo_value::value::Value;
use std::alloc::{AllocError, Global};

/// What is under way, in the order of the text, which has the innermost last.
pub fn told(task: &Task) -> &[Outer]
    ensures count { length task.now.entries ≡ length result.now }
    ensures lines { each_entry task.now.entries ≡ flat_map (λ o. outer_lines task.now.waiting (outer_of o)) result.now }
{
    task.verbs().as_slice()
}

/// The path of part numbers to the call at which a verb of a task stands that waits so; none at its beginning, where what was
/// forked stands.
pub fn frame_path(alloc: Global, waiting: &Waiting, frame: &Frame) -> Result<Vec<usize>, AllocError>
    ensures { IfOk result (λ path. path.items ≡ told_path (waiting_of waiting.now) (kept_of frame.now)) }
{
    match waiting {
        Waiting::Forked(_) => Ok(Vec::new(alloc)),
        Waiting::Timed(_, _) => path_to_call(alloc, frame),
        Waiting::Idle => path_to_call(alloc, frame),
        Waiting::ReadingOn(_) => path_to_call(alloc, frame),
    }
}

fn path_to_call(alloc: Global, frame: &Frame) -> Result<Vec<usize>, AllocError>
    ensures { IfOk result (λ path. path.items ≡ or_none (call_path_of (kept_of frame.now))) }
{
    let found = call_path(alloc, &frame.program, frame.state.place)?;
    match found {
        Some(path) => Ok(path),
        None => Ok(Vec::new(alloc)),
    }
}

/// The values that a verb of a task holds that waits so, the outermost first.
pub fn frame_held<'a>(waiting: &Waiting, frame: &'a Frame) -> &'a [Value]
    ensures { result.now ≡ told_held (waiting_of waiting.now) (kept_of frame.now) }
{
    match waiting {
        Waiting::Forked(_) => &[],
        Waiting::Timed(_, _) => frame.state.operands.above(0),
        Waiting::Idle => frame.state.operands.above(0),
        Waiting::ReadingOn(_) => frame.state.operands.above(0),
    }
}
