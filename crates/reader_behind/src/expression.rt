//! Behind an expression that is a part of another one.

ghost use Rattle.std.specs.Prelude.{◌≡◌, IfOk};
ghost use Rattle.spec_program.specs.Frames as f;
ghost use Rattle.spec_program.specs.Frames.{an_expression};
ghost use Rattle.spec_reader.specs.Behind.{behind};
ghost use Rattle.moo_reader.specs.Views.{found_of, join_of};
ghost use Rattle.reader_frames.specs.LeftView.{left_of};
ghost use Rattle.reader_frames.specs.FrameViews.{all_begun, within_expression};
ghost use Rattle.reader_frames.specs.StateView.{state_of};

use moo_reader::build::{assignment, conditional, joined, scatter};
use moo_reader::found::{Found, Join, Scattering};
use moo_token::token::Sign;
use reader_frames::begun::Begun;
use reader_frames::frame::{ExpressionFrame, Frame, WithinExpression};
use reader_frames::left::Left;
use reader_frames::state::{BeforeOperators, Next, Part, State, begin, past_sign};
use std::alloc::{AllocError, Global};

// Behind the closing parenthesis; the line is that of the opening one.
fn in_parentheses(line: u64, found: Found, begun: Box<Begun>, left: Left) -> State
    ensures { state_of result ≡ behind (f.in_parentheses line) (all_begun begun.value an_expression) (found_of found) (left_of left) }
{
    let Found { mut whole } = found;
    whole.line = line;
    let next = Next::Found(Part::Expression(Found { whole }));
    past_sign(Sign::CloseParenthesis, next, begun, left)
}

// Behind the right operand.
fn right_of(
    alloc: Global,
    brackets: bool,
    level: u8,
    one: Found,
    join: Join,
    other: Found,
    begun: Box<Begun>,
    left: Left,
) -> Result<State, AllocError>
    ensures { IfOk result (λ s. state_of s ≡ behind (f.right_of brackets level (found_of one) (join_of join)) (all_begun begun.value an_expression)
        (found_of other) (left_of left)) }
{
    let found = joined(alloc, join, one, other)?;
    let next = Next::Operators(BeforeOperators {
        brackets,
        level,
        left: found,
    });
    Ok(State { next, begun, left })
}

// Behind the first value of a choice.
fn chosen_first(
    brackets: bool,
    level: u8,
    condition: Found,
    first: Found,
    begun: Box<Begun>,
    left: Left,
) -> Result<State, AllocError>
    ensures { IfOk result (λ s. state_of s ≡ behind (f.chosen_first brackets level (found_of condition)) (all_begun begun.value an_expression)
        (found_of first) (left_of left)) }
{
    let within = WithinExpression::ChosenSecond {
        brackets,
        level,
        condition,
        first,
    };
    let begun = begin(
        begun,
        Frame::Expression(ExpressionFrame::Expression(within)),
    )?;
    let next = Next::Expression { brackets, level: 1 };
    Ok(past_sign(Sign::Bar, next, begun, left))
}

// Behind the second value of a choice.
fn chosen_second(
    alloc: Global,
    brackets: bool,
    level: u8,
    condition: Found,
    first: Found,
    second: Found,
    begun: Box<Begun>,
    left: Left,
) -> Result<State, AllocError>
    ensures { IfOk result (λ s. state_of s ≡ behind (f.chosen_second brackets level (found_of condition) (found_of first))
        (all_begun begun.value an_expression) (found_of second) (left_of left)) }
{
    let found = conditional(alloc, condition, first, second)?;
    let next = Next::Operators(BeforeOperators {
        brackets,
        level,
        left: found,
    });
    Ok(State { next, begun, left })
}

/// Behind an expression that is a part of another one.
#[inline(always)]
pub fn behind_within_expression(
    alloc: Global,
    within: WithinExpression,
    found: Found,
    begun: Box<Begun>,
    left: Left,
) -> Result<State, AllocError>
    ensures { IfOk result (λ s. state_of s ≡ behind (within_expression within) (all_begun begun.value an_expression) (found_of found) (left_of left)) }
{
    match within {
        WithinExpression::Parentheses { line } => Ok(in_parentheses(line, found, begun, left)),
        WithinExpression::RightOf {
            brackets,
            level,
            left: one,
            join,
        } => right_of(alloc, brackets, level, one, join, found, begun, left),
        WithinExpression::ChosenFirst {
            brackets,
            level,
            condition,
        } => chosen_first(brackets, level, condition, found, begun, left),
        WithinExpression::ChosenSecond {
            brackets,
            level,
            condition,
            first,
        } => chosen_second(alloc, brackets, level, condition, first, found, begun, left),
        WithinExpression::AssignedTo {
            target,
            line,
            nodes,
        } => {
            let nodes = Box::into_inner(nodes);
            let found = assignment(alloc, Box::into_inner(target), line, nodes, found)?;
            let next = Next::Found(Part::Expression(found));
            Ok(State { next, begun, left })
        }
        WithinExpression::ScatteredTo { line, scattering } => {
            let Scattering { items, nodes } = Box::into_inner(scattering);
            let found = scatter(alloc, items, line, nodes, found)?;
            let next = Next::Found(Part::Expression(found));
            Ok(State { next, begun, left })
        }
        WithinExpression::Head => {
            let next = Next::Found(Part::Expression(found));
            Ok(past_sign(Sign::CloseParenthesis, next, begun, left))
        }
    }
}
