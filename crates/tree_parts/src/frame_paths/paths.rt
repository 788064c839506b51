//! The path at which a verb stands, and back.
ghost use Rattle.std.specs.Prelude.{◌≡◌, ℕ, option_map, IfOk};
ghost use Rattle.std.specs.declared.vec.Vec.{Vec as VecOf};
ghost use Rattle.spec_program.specs.Construct.{of_program};
ghost use Rattle.moo_code.specs.Layout.{layout, outermost};
ghost use Rattle.moo_code.specs.Paths.{find};
ghost use Rattle.tree_parts.specs.Places.{place_at};

use crate::frame_paths::reach::reach;
use crate::frame_paths::seek::seek;
use moo_program::program::Program;
use std::alloc::{AllocError, Global};

/// The path of what the instruction at a place belongs to: the part numbers, counted from 1, the outermost first. At the place of a
/// call it is the path of the call. None where there is no such instruction.
#[tactic(auto, using(crate::proofs::FramePathsPlaced::found_along))]
pub fn call_path(
    alloc: Global,
    program: &Program,
    place: usize,
) -> Result<Option<Vec<usize>>, AllocError>
    ensures { IfOk result (λ found. option_map (λ path. path.items) found ≡ find 1 (layout outermost (of_program program.now)) place) }
{
    seek(alloc, program.outline(), place)
}

/// The place of the last instruction of what stands at a path, which is that of the call at the path of a call. None where
/// nothing stands there, or it has no code.
#[tactic(auto, using(crate::proofs::FramePathsPlaced::placed_along))]
pub fn call_place(program: &Program, path: &[usize]) -> Result<Option<usize>, AllocError>
    ensures { IfOk result (λ found. found ≡ place_at program.now path.now) }
{
    if path.is_empty() {
        return Ok(None);
    }
    reach(program.outline(), path)
}
