//! What goes on behind what was found.

ghost use Rattle.std.specs.Prelude.{◌≡◌, IfOk};
ghost use Rattle.spec_program.specs.Frames.{an_expression, an_operand, some_arguments_read, some_items_read, some_codes_read, a_statement, a_block, some_branches_read, some_arms_read};
ghost use Rattle.spec_reader.specs.Behind.{found_by};
ghost use Rattle.spec_reader.specs.Step.{step_of};
ghost use Rattle.moo_reader.specs.BlockViews.{arms_found, block_found, branches_found, statement_found};
ghost use Rattle.moo_reader.specs.Views.{arguments_found, codes_found, found_of, items_found, operand_of};
ghost use Rattle.reader_frames.specs.FrameViews.{all_begun, expression_begun};
ghost use Rattle.reader_frames.specs.LeftView.{left_of};
ghost use Rattle.reader_frames.specs.StateView.{part_found, state_of};

use moo_reader::block::{Arms, Block, Branches, FoundStatement};
use moo_reader::found::{Arguments, Found, FoundCodes, Items, Operand};
use reader_behind::arguments::{behind_argument, behind_arguments};
use reader_behind::codes::behind_codes;
use reader_behind::expression::behind_within_expression;
use reader_behind::items::{behind_items, behind_within_items};
use reader_behind::operand::behind_within_operand;
use reader_behind::value::behind_operand;
use reader_blocks::block::behind_block;
use reader_blocks::branches::{behind_arms, behind_branches};
use reader_blocks::statement::{behind_condition, behind_statement, behind_within_statement};
use reader_frames::begun::Begun;
use reader_frames::frame::{ExpressionFrame, Frame};
use reader_frames::left::Left;
use reader_frames::state::{Next, Part, State};
use std::alloc::{AllocError, Global};

// Behind an expression, by what was begun last.
#[inline(always)]
fn behind_expression(
    alloc: Global,
    frame: ExpressionFrame,
    found: Found,
    begun: Box<Begun>,
    left: Left,
) -> Result<State, AllocError>
    ensures { IfOk result (λ s. state_of s ≡ found_by (expression_begun frame (all_begun begun.value)) (found_of found) (left_of left)) }
{
    match frame {
        ExpressionFrame::Expression(within) => {
            behind_within_expression(alloc, within, found, begun, left)
        }
        ExpressionFrame::Operand(within) => behind_within_operand(
            alloc, within, found, begun, left,
        ),
        ExpressionFrame::Argument { brackets, spliced } => {
            behind_argument(alloc, brackets, spliced, found, begun, left)
        }
        ExpressionFrame::Items(within) => behind_within_items(alloc, within, found, begun, left),
        ExpressionFrame::Statement(within) => {
            behind_within_statement(alloc, within, found, begun, left)
        }
        ExpressionFrame::Condition => behind_condition(found, begun, left),
    }
}

#[inline(always)]
fn found_expression(
    alloc: Global,
    found: Found,
    mut begun: Box<Begun>,
    left: Left,
) -> Result<State, AllocError>
    ensures { IfOk result (λ s. state_of s ≡ found_by (all_begun begun.value an_expression) (found_of found) (left_of left)) }
{
    let Some(Frame::Expression(frame)) = begun.pop() else {
        return Err(AllocError);
    };
    behind_expression(alloc, frame, found, begun, left)
}

#[inline(always)]
fn found_operand(
    alloc: Global,
    operand: Operand,
    mut begun: Box<Begun>,
    left: Left,
) -> Result<State, AllocError>
    ensures { IfOk result (λ s. state_of s ≡ found_by (all_begun begun.value an_operand) (operand_of operand) (left_of left)) }
{
    let Some(Frame::Operand(frame)) = begun.pop() else {
        return Err(AllocError);
    };
    behind_operand(alloc, frame, operand, begun, left)
}

fn found_arguments(
    alloc: Global,
    arguments: Arguments,
    mut begun: Box<Begun>,
    left: Left,
) -> Result<State, AllocError>
    ensures { IfOk result (λ s. state_of s ≡ found_by (all_begun begun.value some_arguments_read) (arguments_found arguments) (left_of left)) }
{
    let Some(Frame::Arguments(frame)) = begun.pop() else {
        return Err(AllocError);
    };
    behind_arguments(alloc, frame, arguments, begun, left)
}

fn found_items(
    alloc: Global,
    items: Items,
    mut begun: Box<Begun>,
    left: Left,
) -> Result<State, AllocError>
    ensures { IfOk result (λ s. state_of s ≡ found_by (all_begun begun.value some_items_read) (items_found items) (left_of left)) }
{
    let Some(Frame::Items(frame)) = begun.pop() else {
        return Err(AllocError);
    };
    behind_items(alloc, frame, items, begun, left)
}

fn found_codes(
    alloc: Global,
    codes: FoundCodes,
    mut begun: Box<Begun>,
    left: Left,
) -> Result<State, AllocError>
    ensures { IfOk result (λ s. state_of s ≡ found_by (all_begun begun.value some_codes_read) (codes_found codes) (left_of left)) }
{
    let Some(Frame::Codes(frame)) = begun.pop() else {
        return Err(AllocError);
    };
    behind_codes(alloc, frame, codes, begun, left)
}

fn found_branches(
    alloc: Global,
    branches: Branches,
    mut begun: Box<Begun>,
    left: Left,
) -> Result<State, AllocError>
    ensures { IfOk result (λ s. state_of s ≡ found_by (all_begun begun.value some_branches_read) (branches_found branches) (left_of left)) }
{
    let Some(Frame::Branches(frame)) = begun.pop() else {
        return Err(AllocError);
    };
    behind_branches(alloc, frame, branches, begun, left)
}

fn found_arms(
    alloc: Global,
    arms: Arms,
    mut begun: Box<Begun>,
    left: Left,
) -> Result<State, AllocError>
    ensures { IfOk result (λ s. state_of s ≡ found_by (all_begun begun.value some_arms_read) (arms_found arms) (left_of left)) }
{
    let Some(Frame::Arms(frame)) = begun.pop() else {
        return Err(AllocError);
    };
    behind_arms(alloc, frame, arms, begun, left)
}

fn found_statement(
    statement: Box<FoundStatement>,
    mut begun: Box<Begun>,
    left: Left,
) -> Result<State, AllocError>
    ensures { IfOk result (λ s. state_of s ≡ found_by (all_begun begun.value a_statement) (statement_found statement.value) (left_of left)) }
{
    let Some(Frame::Statement) = begun.pop() else {
        return Err(AllocError);
    };
    behind_statement(statement, begun, left)
}

// A block under nothing is the whole text.
fn found_block(
    alloc: Global,
    block: Box<Block>,
    mut begun: Box<Begun>,
    left: Left,
) -> Result<State, AllocError>
    ensures { IfOk result (λ s. state_of s ≡ found_by (all_begun begun.value a_block) (block_found block.value) (left_of left)) }
{
    match begun.pop() {
        None => {
            let next = Next::Found(Part::Block(block));
            Ok(State { next, begun, left })
        }
        Some(Frame::Block(frame)) => behind_block(
            alloc,
            frame,
            Box::into_inner(block),
            begun,
            left,
        ),
        Some(_) => Err(AllocError),
    }
}

/// Behind what was found, by what was begun last.
#[inline(always)]
pub fn behind_found(
    alloc: Global,
    part: Part,
    begun: Box<Begun>,
    left: Left,
) -> Result<State, AllocError>
    ensures { IfOk result (λ s. state_of s ≡ step_of (part_found part begun.value) (left_of left)) }
{
    match part {
        Part::Expression(found) => found_expression(alloc, found, begun, left),
        Part::Operand(operand) => found_operand(alloc, operand, begun, left),
        Part::Arguments(arguments) => found_arguments(
            alloc,
            Box::into_inner(arguments),
            begun,
            left,
        ),
        Part::Items(items) => found_items(alloc, Box::into_inner(items), begun, left),
        Part::Codes(codes) => found_codes(alloc, Box::into_inner(codes), begun, left),
        Part::Statement(statement) => found_statement(statement, begun, left),
        Part::Block(block) => found_block(alloc, block, begun, left),
        Part::Branches(branches) => found_branches(alloc, Box::into_inner(branches), begun, left),
        Part::Arms(arms) => found_arms(alloc, Box::into_inner(arms), begun, left),
    }
}
