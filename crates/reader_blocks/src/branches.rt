//! Behind branches, and behind handlers.

ghost use Rattle.std.specs.Prelude.{◌≡◌, IfOk};
ghost use Rattle.spec_reader.specs.Behind.{found_by};
ghost use Rattle.moo_reader.specs.BlockViews.{branches_found, arms_found};
ghost use Rattle.reader_frames.specs.LeftView.{left_of};
ghost use Rattle.reader_frames.specs.FrameViews.{all_begun, branches_begun, arms_begun};
ghost use Rattle.reader_frames.specs.StateView.{state_of};

use moo_reader::block::{Arms, Branches};
use moo_reader::statement::{branch_of, guarded_of, with_arm, with_branch};
use reader_frames::begun::Begun;
use reader_frames::frame::{ArmsFrame, BranchesFrame};
use reader_frames::left::Left;
use reader_frames::state::{Next, Part, State};
use std::alloc::{AllocError, Global};

/// Behind branches.
pub fn behind_branches(
    alloc: Global,
    frame: BranchesFrame,
    branches: Branches,
    begun: Box<Begun>,
    left: Left,
) -> Result<State, AllocError>
    ensures { IfOk result (λ s. state_of s ≡ found_by (branches_begun frame (all_begun begun.value)) (branches_found branches) (left_of left)) }
{
    match frame {
        BranchesFrame::If { line } => {
            let statement = branch_of(line, branches)?;
            let next = Next::Found(Part::Statement(Box::new(alloc, statement)?));
            Ok(State { next, begun, left })
        }
        BranchesFrame::Behind { condition, block } => {
            let branches = with_branch(condition, Box::into_inner(block), branches)?;
            let next = Next::Found(Part::Branches(Box::new(alloc, branches)?));
            Ok(State { next, begun, left })
        }
    }
}

/// Behind handlers.
pub fn behind_arms(
    alloc: Global,
    frame: ArmsFrame,
    arms: Arms,
    begun: Box<Begun>,
    left: Left,
) -> Result<State, AllocError>
    ensures { IfOk result (λ s. state_of s ≡ found_by (arms_begun frame (all_begun begun.value)) (arms_found arms) (left_of left)) }
{
    match frame {
        ArmsFrame::Try { line, tried } => {
            let statement = guarded_of(line, Box::into_inner(tried), arms)?;
            let next = Next::Found(Part::Statement(Box::new(alloc, statement)?));
            Ok(State { next, begun, left })
        }
        ArmsFrame::Behind {
            variable,
            codes,
            block,
        } => {
            let codes = Box::into_inner(codes);
            let variable = Box::into_inner(variable);
            let arms = with_arm(variable, codes, Box::into_inner(block), arms)?;
            let next = Next::Found(Part::Arms(Box::new(alloc, arms)?));
            Ok(State { next, begun, left })
        }
    }
}
