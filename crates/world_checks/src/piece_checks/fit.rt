//! Verbs that wait, at a call or at their beginning.
ghost use Rattle.std.specs.Prelude.{◌≡◌, [], IfOk, IsTrue};
ghost use Rattle.spec_world.specs.World.{Frame as Waiting};
ghost use Rattle.spec_world.specs.WellFormed as spec;
ghost use Rattle.spec_program.specs.Construct.{of_program};
ghost use Rattle.moo_code.specs.Rebuilding.{from_deepest};
ghost use Rattle.moo_code.specs.Stands.{Waits};
ghost use Rattle.moo_task.specs.Frames.{kept_of};
ghost use Rattle.held_values.specs.Descent.{fits_down};
ghost use Rattle.world_checks.specs.Held.{OfCall};

use crate::piece_checks::variables::variables_fit;
use held_values::down::path_fits;
use moo_task::frame::Frame;
use std::alloc::{AllocError, Global};
use tree_parts::frame_paths::paths::call_path;
use tree_parts::node::Node;

/// Whether a verb fits that waits at a call of its program: its variables have names that a program can write, and each construct around the
/// call holds what it must in the part that is under way.
#[tactic(auto, using(crate::proofs::Calls::waiting_holds, crate::proofs::Calls::kept_names, crate::proofs::Calls::frame_pieces))]
pub fn frame_fits(alloc: Global, frame: &Frame) -> Result<bool, AllocError>
    ensures tells { IfOk result (λ fits. IsTrue fits → (f : Waiting) → Waits f (kept_of frame.now) → spec.StandsAtCall f → IsTrue (spec.frame_fits f)) }
    ensures finds { IfOk result (λ fits. (f : Waiting) → Waits f (kept_of frame.now) → spec.StandsAtCall f → IsTrue (spec.frame_fits f) → IsTrue fits) }
{
    if !variables_fit(frame) {
        return Ok(false);
    }
    let fits = pieces_fit(alloc, frame)?;
    Ok(fits)
}

fn pieces_fit(alloc: Global, frame: &Frame) -> Result<bool, AllocError>
    ensures tells { IfOk result (λ fits. IsTrue fits → OfCall (kept_of frame.now)) }
    ensures finds { IfOk result (λ fits. (f : Waiting) → Waits f (kept_of frame.now) → spec.StandsAtCall f → IsTrue (spec.pieces_fit f.pieces) → IsTrue fits) }
{
    let found = call_path(alloc, &frame.program, frame.state.place)?;
    let Some(path) = found else {
        return Ok(false);
    };
    let fits = fits_along(frame, path.as_slice())?;
    Ok(fits)
}

fn fits_along(frame: &Frame, path: &[usize]) -> Result<bool, AllocError>
    ensures tells { IfOk result (λ fits. IsTrue fits → IsTrue (fits_down 0 (of_program frame.now.program) path.now (from_deepest frame.now.state.operands))) }
    ensures finds { IfOk result (λ fits. IsTrue (fits_down 0 (of_program frame.now.program) path.now (from_deepest frame.now.state.operands)) → IsTrue fits) }
{
    let whole = Node::Program(frame.program.tree().statements());
    let held = frame.state.operands.above(0);
    let fits = path_fits(whole, path, held)?;
    Ok(fits)
}

/// Whether a verb fits that stands at the beginning of its program: its variables have names that a program can write.
#[tactic(auto, using(crate::proofs::Calls::beginning_holds, crate::proofs::Calls::beginning_names))]
pub fn beginning_fits(frame: &Frame) -> bool
    ensures tells { IsTrue result → (f : Waiting) → f.variables ≡ (kept_of frame.now).variables → f.pieces ≡ [] → IsTrue (spec.frame_fits f) }
    ensures finds { (f : Waiting) → f.variables ≡ (kept_of frame.now).variables → IsTrue (spec.frame_fits f) → IsTrue result }
{
    variables_fit(frame)
}
