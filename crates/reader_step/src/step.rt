//! The step.

ghost use Rattle.std.specs.Prelude.{◌≡◌, IfOk};
ghost use Rattle.spec_program.specs.Frames as f;
ghost use Rattle.spec_program.specs.Frames.{an_expression, push};
ghost use Rattle.spec_reader.specs.Begins.{operand_begins};
ghost use Rattle.spec_reader.specs.Step.{step};
ghost use Rattle.reader_frames.specs.FrameViews.{all_begun};
ghost use Rattle.reader_frames.specs.LeftView.{left_of};
ghost use Rattle.reader_frames.specs.StateView.{state_of};

use crate::found::behind_found;
use reader_begins::items::{arguments_begin, items_begin};
use reader_begins::operand::operand_begins;
use reader_begins::operators::operators_begin;
use reader_begins::steps::steps_begin;
use reader_blocks::begin::{arms_begin, block_begins, branches_begin};
use reader_frames::begun::Begun;
use reader_frames::frame::{Frame, OperandFrame};
use reader_frames::left::Left;
use reader_frames::state::{BeforeOperators, BeforeSteps, Next, State, begin, stuck};
use std::alloc::{AllocError, Global};

// An expression begins with an operand.
fn expression_begins(
    alloc: Global,
    brackets: bool,
    level: u8,
    begun: Box<Begun>,
    left: Left,
) -> Result<State, AllocError>
    ensures { IfOk result (λ s. state_of s ≡ operand_begins brackets level (push (f.value_behind brackets level) (all_begun begun.value an_expression))
        (left_of left)) }
{
    let begun = begin(
        begun,
        Frame::Operand(OperandFrame::Value { brackets, level }),
    )?;
    operand_begins(alloc, brackets, level, begun, left)
}

/// What is read next, or was found, one step on. The step of a state that no text leads to is answered as a lack of memory.
#[inline(always)]
pub fn step(alloc: Global, state: State) -> Result<State, AllocError>
    ensures { IfOk result (λ s. state_of s ≡ step (state_of state)) }
{
    let State { next, begun, left } = state;
    match next {
        Next::Found(part) => behind_found(alloc, part, begun, left),
        Next::Expression { brackets, level } => {
            expression_begins(alloc, brackets, level, begun, left)
        }
        Next::Steps(BeforeSteps { brackets, operand }) => {
            steps_begin(alloc, brackets, operand, begun, left)
        }
        Next::Operators(
            BeforeOperators {
                brackets,
                level,
                left: found,
            },
        ) => operators_begin(brackets, level, found, begun, left),
        Next::Arguments { brackets } => arguments_begin(brackets, begun, left),
        Next::Items { brackets, allowed } => items_begin(alloc, brackets, allowed, begun, left),
        Next::Block => block_begins(alloc, begun, left),
        Next::Branches => branches_begin(begun, left),
        Next::Arms => arms_begin(alloc, begun, left),
        Next::Sticks => Ok(stuck(begun, left)),
    }
}
