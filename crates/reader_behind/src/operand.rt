//! Behind an expression that is a part of an operand.

ghost use Rattle.std.specs.Prelude.{◌≡◌, IfOk};
ghost use Rattle.spec_program.specs.Frames as f;
ghost use Rattle.spec_program.specs.Frames.{an_operand};
ghost use Rattle.spec_reader.specs.Behind.{behind};
ghost use Rattle.moo_value.specs.Operators.{unary_of};
ghost use Rattle.moo_reader.specs.Views.{found_of, operand_of, codes_found};
ghost use Rattle.reader_frames.specs.LeftView.{left_of};
ghost use Rattle.reader_frames.specs.FrameViews.{all_begun, within_operand};
ghost use Rattle.reader_frames.specs.StateView.{state_of};

use moo_reader::build::{caught_instead, index_of, property_of, range_of, unary, whole};
use moo_reader::found::{Found, FoundCodes, Operand};
use moo_token::token::Sign;
use moo_value::operator::UnaryOperator;
use reader_frames::begun::Begun;
use reader_frames::ends::{arguments_to, codes_begin};
use reader_frames::frame::{
    ArgumentsFrame, CodesFrame, ExpressionFrame, Frame, OperandFrame, WithinOperand,
};
use reader_frames::left::Left;
use reader_frames::state::{BeforeSteps, Next, Part, State, begin, past_sign, stuck};
use std::alloc::{AllocError, Global};

// Behind the operand of a sign.
fn unary_read(
    alloc: Global,
    operator: UnaryOperator,
    line: u64,
    found: Found,
    begun: Box<Begun>,
    left: Left,
) -> Result<State, AllocError>
    ensures { IfOk result (λ s. state_of s ≡ behind (f.behind_sign (unary_of operator) line) (all_begun begun.value an_operand) (found_of found)
        (left_of left)) }
{
    let found = unary(alloc, operator, line, found)?;
    let next = Next::Found(Part::Operand(whole(found)));
    Ok(State { next, begun, left })
}

// Behind the name of a property.
fn property_named(
    alloc: Global,
    brackets: bool,
    object: Operand,
    name: Found,
    begun: Box<Begun>,
    left: Left,
) -> Result<State, AllocError>
    ensures { IfOk result (λ s. state_of s ≡ behind (f.property_name brackets (operand_of object)) (all_begun begun.value an_operand) (found_of name)
        (left_of left)) }
{
    let found = Found {
        whole: object.whole,
    };
    let operand = property_of(alloc, found, name)?;
    let next = Next::Steps(BeforeSteps { brackets, operand });
    Ok(State { next, begun, left })
}

// Behind the name of a verb: its arguments.
fn verb_named(
    alloc: Global,
    brackets: bool,
    object: Operand,
    name: Found,
    begun: Box<Begun>,
    mut left: Left,
) -> Result<State, AllocError>
    ensures { IfOk result (λ s. state_of s ≡ behind (f.verb_name brackets (operand_of object)) (all_begun begun.value an_operand) (found_of name)
        (left_of left)) }
{
    if !left.take_sign(Sign::OpenParenthesis) {
        return Ok(stuck(begun, left));
    }
    let found = Found {
        whole: object.whole,
    };
    let begun = begin(begun, Frame::Operand(OperandFrame::Steps { brackets }))?;
    let frame = ArgumentsFrame::VerbOf {
        object: found,
        name,
    };
    let begun = begin(begun, Frame::Arguments(frame))?;
    arguments_to(alloc, Sign::CloseParenthesis, brackets, begun, left)
}

// Behind an index, or the first one of a range.
fn index_read(
    alloc: Global,
    brackets: bool,
    list: Operand,
    index: Found,
    begun: Box<Begun>,
    mut left: Left,
) -> Result<State, AllocError>
    ensures { IfOk result (λ s. state_of s ≡ behind (f.index_in brackets (operand_of list)) (all_begun begun.value an_operand) (found_of index)
        (left_of left)) }
{
    if left.take_sign(Sign::DoubleDot) {
        let within = WithinOperand::Range {
            brackets,
            list,
            first: index,
        };
        let begun = begin(begun, Frame::Expression(ExpressionFrame::Operand(within)))?;
        let next = Next::Expression {
            brackets: true,
            level: 0,
        };
        return Ok(State { next, begun, left });
    }
    let operand = index_of(alloc, list, index)?;
    let next = Next::Steps(BeforeSteps { brackets, operand });
    Ok(past_sign(Sign::CloseBracket, next, begun, left))
}

// Behind the last index of a range.
fn range_read(
    alloc: Global,
    brackets: bool,
    list: Operand,
    first: Found,
    last: Found,
    begun: Box<Begun>,
    left: Left,
) -> Result<State, AllocError>
    ensures { IfOk result (λ s. state_of s ≡ behind (f.range_in brackets (operand_of list) (found_of first)) (all_begun begun.value an_operand)
        (found_of last) (left_of left)) }
{
    let operand = range_of(alloc, list, first, last)?;
    let next = Next::Steps(BeforeSteps { brackets, operand });
    Ok(past_sign(Sign::CloseBracket, next, begun, left))
}

// Behind an expression whose errors are caught: the codes.
fn caught_read(
    alloc: Global,
    brackets: bool,
    line: u64,
    caught: Found,
    begun: Box<Begun>,
    mut left: Left,
) -> Result<State, AllocError>
    ensures { IfOk result (λ s. state_of s ≡ behind (f.caught_in brackets line) (all_begun begun.value an_operand) (found_of caught) (left_of left)) }
{
    if !left.take_sign(Sign::Not) {
        return Ok(stuck(begun, left));
    }
    let frame = CodesFrame::Caught {
        brackets,
        line,
        caught,
    };
    let begun = begin(begun, Frame::Codes(frame))?;
    codes_begin(alloc, brackets, begun, left)
}

// Behind the value that stands in the place of an error.
fn instead_read(
    alloc: Global,
    line: u64,
    caught: Found,
    codes: FoundCodes,
    value: Found,
    begun: Box<Begun>,
    left: Left,
) -> Result<State, AllocError>
    ensures { IfOk result (λ s. state_of s ≡ behind (f.caught_instead line (found_of caught) (codes_found codes)) (all_begun begun.value an_operand)
        (found_of value) (left_of left)) }
{
    let operand = caught_instead(alloc, line, caught, codes, value)?;
    let next = Next::Found(Part::Operand(operand));
    Ok(past_sign(Sign::Quote, next, begun, left))
}

/// Behind an expression that is a part of an operand.
#[inline(always)]
pub fn behind_within_operand(
    alloc: Global,
    within: WithinOperand,
    found: Found,
    begun: Box<Begun>,
    left: Left,
) -> Result<State, AllocError>
    ensures { IfOk result (λ s. state_of s ≡ behind (within_operand within) (all_begun begun.value an_operand) (found_of found) (left_of left)) }
{
    match within {
        WithinOperand::Whole => {
            let next = Next::Found(Part::Operand(whole(found)));
            Ok(State { next, begun, left })
        }
        WithinOperand::Unary { operator, line } => {
            unary_read(alloc, operator, line, found, begun, left)
        }
        WithinOperand::PropertyName { brackets, object } => {
            property_named(alloc, brackets, object, found, begun, left)
        }
        WithinOperand::VerbName { brackets, object } => {
            verb_named(alloc, brackets, object, found, begun, left)
        }
        WithinOperand::Index { brackets, list } => {
            index_read(alloc, brackets, list, found, begun, left)
        }
        WithinOperand::Range {
            brackets,
            list,
            first,
        } => range_read(alloc, brackets, list, first, found, begun, left),
        WithinOperand::Caught { brackets, line } => {
            caught_read(alloc, brackets, line, found, begun, left)
        }
        WithinOperand::Instead {
            line,
            caught,
            codes,
        } => instead_read(
            alloc,
            line,
            caught,
            Box::into_inner(codes),
            found,
            begun,
            left,
        ),
    }
}
