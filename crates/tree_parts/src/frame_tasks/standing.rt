//! Verbs that stand at calls of their programs.
ghost use Rattle.std.specs.Prelude.{◌≡◌, IfOk, IsTrue};
ghost use Rattle.tree_parts.specs.Arriving.{StandsThere};
ghost use Rattle.moo_code.specs.Paths.{path_of};
ghost use Rattle.tree_parts.specs.Places.{place_at};
ghost use Rattle.moo_task.specs.Frames.{kept_of};

use crate::frame_paths::paths::{call_path, call_place};
use crate::frame_tasks::arrive::leads_to_call;
use moo_task::frame::Frame;
use std::alloc::{AllocError, Global};

/// Whether a verb stands at a call of its program, with as many operands as the constructs around the call hold values.
pub fn stands_at_call(alloc: Global, frame: &Frame) -> Result<bool, AllocError>
    ensures tells { IfOk result (λ so. IsTrue so → StandsThere (kept_of frame.now)) }
    ensures finds { IfOk result (λ so. StandsThere (kept_of frame.now) → IsTrue so) }
{
    let found = call_path(alloc, &frame.program, frame.state.place)?;
    match found {
        Some(path) => stands_at(frame, path.as_slice()),
        None => Ok(false),
    }
}

// Whether it stands at the call that this path leads to.
fn stands_at(frame: &Frame, path: &[usize]) -> Result<bool, AllocError>
    ensures tells { IfOk result (λ so. IsTrue so → StandsThere (kept_of frame.now)) }
    ensures finds { IfOk result (λ so. (h : StandsThere (kept_of frame.now)) → path.now ≡ path_of (h.frame).pieces → IsTrue so) }
{
    let found = call_place(&frame.program, path)?;
    match found {
        Some(place) => stands_at_place(frame, path, place),
        None => Ok(false),
    }
}

// Whether it stands there, which is this place.
fn stands_at_place(frame: &Frame, path: &[usize], place: usize) -> Result<bool, AllocError>
    requires { place_at frame.now.program path.now ≡ Some place }
    ensures tells { IfOk result (λ so. IsTrue so → StandsThere (kept_of frame.now)) }
    ensures finds { IfOk result (λ so. (h : StandsThere (kept_of frame.now)) → path.now ≡ path_of (h.frame).pieces → IsTrue so) }
{
    if place != frame.state.place {
        return Ok(false);
    }
    let count = frame.state.operands.len();
    let so = leads_to_call(frame.program.tree(), path, count)?;
    Ok(so)
}
