//! Behind a block.

ghost use Rattle.std.specs.Prelude.{◌≡◌, IfOk};
ghost use Rattle.spec_program.specs.Frames.{a_statement, some_arms_read, some_branches_read};
ghost use Rattle.spec_program.specs.ReadPrograms as by;
ghost use Rattle.spec_program.specs.Tokens as t;
ghost use Rattle.spec_reader.specs.Behind.{arm_read, branch_read, found_by, tried};
ghost use Rattle.spec_reader.specs.Ends.{past_keyword};
ghost use Rattle.spec_reader.specs.Next.{found};
ghost use Rattle.moo_reader.specs.Views.{found_of, codes_found};
ghost use Rattle.moo_reader.specs.BlockViews.{block_found};
ghost use Rattle.reader_frames.specs.LeftView.{left_of};
ghost use Rattle.reader_frames.specs.FrameViews.{all_begun, block_begun};
ghost use Rattle.reader_frames.specs.StateView.{state_of};

use crate::body::with_body;
use moo_reader::block::Block;
use moo_reader::found::{Found, FoundCodes};
use moo_reader::statement::{
    and_block, else_block, finished_of, no_more_arms, no_more_branches, with_arm, with_branch,
};
use moo_token::token::Keyword;
use moo_value::text::Text;
use reader_frames::begun::Begun;
use reader_frames::frame::{ArmsFrame, BlockFrame, BranchesFrame, Frame};
use reader_frames::left::Left;
use reader_frames::state::{Next, Part, State, begin, past_keyword};
use std::alloc::{AllocError, Global};

// Behind the block of a branch, up to the end of the branches.
fn last_branch(
    alloc: Global,
    condition: Found,
    block: Block,
    begun: Box<Begun>,
    left: Left,
) -> Result<State, AllocError>
    ensures { IfOk result (λ s. state_of s ≡ past_keyword t.endif_word (found (all_begun begun.value some_branches_read)
        (by.with_branch (found_of condition) (block_found block) by.no_more_branches)) (left_of left)) }
{
    let branches = with_branch(condition, block, no_more_branches(alloc))?;
    let next = Next::Found(Part::Branches(Box::new(alloc, branches)?));
    Ok(past_keyword(Keyword::EndIf, next, begun, left))
}

// Behind the block of a branch.
fn branch_read(
    alloc: Global,
    condition: Found,
    block: Block,
    begun: Box<Begun>,
    mut left: Left,
) -> Result<State, AllocError>
    ensures { IfOk result (λ s. state_of s ≡ branch_read (found_of condition) (all_begun begun.value some_branches_read) (block_found block)
        (left_of left)) }
{
    if left.take_keyword(Keyword::ElseIf) {
        let block = Box::new(alloc, block)?;
        let frame = BranchesFrame::Behind { condition, block };
        let begun = begin(begun, Frame::Branches(frame))?;
        let next = Next::Branches;
        return Ok(State { next, begun, left });
    }
    if left.take_keyword(Keyword::Else) {
        let block = Box::new(alloc, block)?;
        let frame = BranchesFrame::Behind { condition, block };
        let begun = begin(begun, Frame::Branches(frame))?;
        let begun = begin(begun, Frame::Block(BlockFrame::Else))?;
        let begun = begin(begun, Frame::Block(BlockFrame::To(Keyword::EndIf)))?;
        let next = Next::Block;
        return Ok(State { next, begun, left });
    }
    last_branch(alloc, condition, block, begun, left)
}

// Behind the block of a handler.
fn arm_read(
    alloc: Global,
    variable: Option<Text>,
    codes: Box<FoundCodes>,
    block: Block,
    begun: Box<Begun>,
    mut left: Left,
) -> Result<State, AllocError>
    ensures { IfOk result (λ s. state_of s ≡ arm_read variable (codes_found codes.value) (all_begun begun.value some_arms_read) (block_found block)
        (left_of left)) }
{
    if left.take_keyword(Keyword::Except) {
        let block = Box::new(alloc, block)?;
        let variable = Box::new(alloc, variable)?;
        let frame = ArmsFrame::Behind {
            variable,
            codes,
            block,
        };
        let begun = begin(begun, Frame::Arms(frame))?;
        let next = Next::Arms;
        return Ok(State { next, begun, left });
    }
    let codes = Box::into_inner(codes);
    let arms = with_arm(variable, codes, block, no_more_arms(alloc))?;
    let next = Next::Found(Part::Arms(Box::new(alloc, arms)?));
    Ok(past_keyword(Keyword::EndTry, next, begun, left))
}

// Behind what is tried: what is done finally, or handlers.
fn tried_read(
    alloc: Global,
    line: u64,
    block: Block,
    begun: Box<Begun>,
    mut left: Left,
) -> Result<State, AllocError>
    ensures { IfOk result (λ s. state_of s ≡ tried line (all_begun begun.value a_statement) (block_found block) (left_of left)) }
{
    let tried = Box::new(alloc, block)?;
    if left.take_keyword(Keyword::Finally) {
        let begun = begin(begun, Frame::Block(BlockFrame::Finally { line, tried }))?;
        let begun = begin(begun, Frame::Block(BlockFrame::To(Keyword::EndTry)))?;
        let next = Next::Block;
        return Ok(State { next, begun, left });
    }
    let begun = begin(begun, Frame::Arms(ArmsFrame::Try { line, tried }))?;
    Ok(past_keyword(Keyword::Except, Next::Arms, begun, left))
}

/// Behind a block.
pub fn behind_block(
    alloc: Global,
    frame: BlockFrame,
    block: Block,
    begun: Box<Begun>,
    left: Left,
) -> Result<State, AllocError>
    ensures { IfOk result (λ s. state_of s ≡ found_by (block_begun frame (all_begun begun.value)) (block_found block) (left_of left)) }
{
    match frame {
        BlockFrame::Behind(statement) => {
            let block = and_block(Box::into_inner(statement), block)?;
            let next = Next::Found(Part::Block(Box::new(alloc, block)?));
            Ok(State { next, begun, left })
        }
        BlockFrame::To(keyword) => {
            let next = Next::Found(Part::Block(Box::new(alloc, block)?));
            Ok(past_keyword(keyword, next, begun, left))
        }
        BlockFrame::Branch { condition } => branch_read(alloc, condition, block, begun, left),
        BlockFrame::Else => {
            let branches = Box::new(alloc, else_block(alloc, block))?;
            let next = Next::Found(Part::Branches(branches));
            Ok(State { next, begun, left })
        }
        BlockFrame::Body { line, body } => {
            let statement = with_body(alloc, line, Box::into_inner(body), block)?;
            let next = Next::Found(Part::Statement(Box::new(alloc, statement)?));
            Ok(State { next, begun, left })
        }
        BlockFrame::Tried { line } => tried_read(alloc, line, block, begun, left),
        BlockFrame::Finally { line, tried } => {
            let statement = finished_of(line, Box::into_inner(tried), block)?;
            let next = Next::Found(Part::Statement(Box::new(alloc, statement)?));
            Ok(State { next, begun, left })
        }
        BlockFrame::Arm { variable, codes } => {
            arm_read(alloc, variable, codes, block, begun, left)
        }
    }
}
