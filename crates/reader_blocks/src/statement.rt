//! Behind an expression that is a part of a statement, and behind a statement.

ghost use Rattle.std.specs.Prelude.{◌≡◌, IfOk};
ghost use Rattle.spec_program.specs.Frames as f;
ghost use Rattle.spec_program.specs.Frames.{a_block, a_statement, some_branches_read};
ghost use Rattle.spec_reader.specs.Behind.{behind};
ghost use Rattle.moo_reader.specs.Views.{found_of};
ghost use Rattle.moo_reader.specs.BlockViews.{statement_found};
ghost use Rattle.reader_frames.specs.LeftView.{left_of};
ghost use Rattle.reader_frames.specs.FrameViews.{all_begun, head_of, body_of, within_statement};
ghost use Rattle.reader_frames.specs.StateView.{state_of};

use moo_reader::block::FoundStatement;
use moo_reader::found::Found;
use moo_reader::statement::{evaluated, returned};
use moo_token::token::Sign;
use moo_value::text::Text;
use reader_frames::begun::Begun;
use reader_frames::ends::{body_begins, statement_ended};
use reader_frames::frame::{BlockFrame, Body, ExpressionFrame, Frame, Head, WithinStatement};
use reader_frames::left::Left;
use reader_frames::state::{Next, State, begin, past_sign, stuck};
use std::alloc::{AllocError, Global};

// The loop or fork behind its head.
fn body_of(head: Head, found: Found) -> Body
    ensures { body_of result ≡ f.body_of (head_of head) (found_of found) }
{
    match head {
        Head::For(name) => Body::List(name, found),
        Head::While(name) => Body::While(name, found),
        Head::Fork(name) => Body::Fork(name, found),
    }
}

// Behind the first value of a range.
fn range_first(
    alloc: Global,
    line: u64,
    variable: Text,
    first: Found,
    begun: Box<Begun>,
    left: Left,
) -> Result<State, AllocError>
    ensures { IfOk result (λ s. state_of s ≡ behind (f.range_first line variable) (all_begun begun.value a_statement) (found_of first) (left_of left)) }
{
    let variable = Box::new(alloc, variable)?;
    let within = WithinStatement::RangeLast {
        line,
        variable,
        first,
    };
    let begun = begin(begun, Frame::Expression(ExpressionFrame::Statement(within)))?;
    let next = Next::Expression {
        brackets: false,
        level: 0,
    };
    Ok(past_sign(Sign::DoubleDot, next, begun, left))
}

// Behind the last value of a range.
fn range_last(
    alloc: Global,
    line: u64,
    variable: Text,
    first: Found,
    last: Found,
    begun: Box<Begun>,
    mut left: Left,
) -> Result<State, AllocError>
    ensures { IfOk result (λ s. state_of s ≡ behind (f.range_last line variable (found_of first)) (all_begun begun.value a_statement) (found_of last)
        (left_of left)) }
{
    if !left.take_sign(Sign::CloseBracket) {
        return Ok(stuck(begun, left));
    }
    body_begins(alloc, line, Body::Range(variable, first, last), begun, left)
}

/// Behind an expression that is a part of a statement.
pub fn behind_within_statement(
    alloc: Global,
    within: WithinStatement,
    found: Found,
    begun: Box<Begun>,
    left: Left,
) -> Result<State, AllocError>
    ensures { IfOk result (λ s. state_of s ≡ behind (within_statement within) (all_begun begun.value a_statement) (found_of found) (left_of left)) }
{
    match within {
        WithinStatement::Evaluated { line } => {
            let statement = evaluated(alloc, line, found)?;
            statement_ended(alloc, statement, begun, left)
        }
        WithinStatement::Returned { line } => {
            let statement = returned(alloc, line, found)?;
            statement_ended(alloc, statement, begun, left)
        }
        WithinStatement::HeadOf { line, head } => {
            let body = body_of(Box::into_inner(head), found);
            body_begins(alloc, line, body, begun, left)
        }
        WithinStatement::RangeFirst { line, variable } => {
            range_first(alloc, line, variable, found, begun, left)
        }
        WithinStatement::RangeLast {
            line,
            variable,
            first,
        } => {
            let variable = Box::into_inner(variable);
            range_last(alloc, line, variable, first, found, begun, left)
        }
    }
}

/// Behind the condition of a branch.
pub fn behind_condition(
    condition: Found,
    begun: Box<Begun>,
    left: Left,
) -> Result<State, AllocError>
    ensures { IfOk result (λ s. state_of s ≡ behind f.condition (all_begun begun.value some_branches_read) (found_of condition) (left_of left)) }
{
    let begun = begin(begun, Frame::Block(BlockFrame::Branch { condition }))?;
    let next = Next::Block;
    Ok(State { next, begun, left })
}

/// Behind a statement: those behind it.
pub fn behind_statement(
    statement: Box<FoundStatement>,
    begun: Box<Begun>,
    left: Left,
) -> Result<State, AllocError>
    ensures { IfOk result (λ s. state_of s ≡ behind f.block_behind (all_begun begun.value a_block) (statement_found statement.value)
        (left_of left)) }
{
    let begun = begin(begun, Frame::Block(BlockFrame::Behind(statement)))?;
    let next = Next::Block;
    Ok(State { next, begun, left })
}
