//! Behind an operand: an assignment, or its operators.

ghost use Rattle.std.specs.Prelude.{◌≡◌, IfOk};
ghost use Rattle.spec_program.specs.Tokens as t;
ghost use Rattle.spec_program.specs.Tree.{own_length};
ghost use Rattle.spec_program.specs.ReadExpressions as by;
ghost use Rattle.spec_program.specs.Frames as f;
ghost use Rattle.spec_program.specs.Frames.{an_expression, push};
ghost use Rattle.spec_reader.specs.Next.{goes, reads_operators, reads_expression};
ghost use Rattle.spec_reader.specs.Ends as ends;
ghost use Rattle.spec_reader.specs.Behind.{target_read, is_any_level, braces_read, found_by, scattered_or_stuck};
ghost use Rattle.moo_tree.specs.ExpressionView.{items_of};
ghost use Rattle.moo_reader.specs.Views.{found_of, operand_of, target_if};
ghost use Rattle.reader_frames.specs.LeftView.{left_of};
ghost use Rattle.reader_frames.specs.FrameViews.{all_begun, operand_begun};
ghost use Rattle.reader_frames.specs.StateView.{state_of};
ghost use Rattle.reader_behind.specs.Assigning.{is_assigned};

use crate::target::target_of;
use moo_reader::found::{Braces, Found, Operand, Parts, Scattering, out_of_box};
use moo_reader::node::Nodes;
use moo_token::token::Sign;
use moo_tree::expression::Target;
use reader_frames::begun::Begun;
use reader_frames::frame::{ExpressionFrame, Frame, OperandFrame, WithinExpression};
use reader_frames::left::Left;
use reader_frames::state::{BeforeOperators, BeforeSteps, Next, State, begin, past_sign, stuck};
use std::alloc::{AllocError, Global};
use std::mem::replace;

// Whether any expression may stand at this level.
#[tactic(auto, using(crate::proofs::Assigning::any_level))]
fn is_any_level(level: u8) -> bool
    ensures { result ≡ is_any_level level }
{
    level == 0
}

// Whether an assignment is read: it stands where any expression may.
fn is_assigned(level: u8, left: &Left) -> bool
    ensures { result ≡ is_assigned level (left_of left.now) }
{
    is_any_level(level) && left.begins_with(Sign::Assign)
}

// The operators behind an expression.
fn operators(brackets: bool, level: u8, found: Found, begun: Box<Begun>, left: Left) -> State
    ensures { state_of result ≡ goes (reads_operators brackets level (found_of found) (all_begun begun.value an_expression)) (left_of left) }
{
    let next = Next::Operators(BeforeOperators {
        brackets,
        level,
        left: found,
    });
    State { next, begun, left }
}

// The value of an assignment.
fn assigned(
    alloc: Global,
    brackets: bool,
    target: Target,
    line: u64,
    nodes: Nodes,
    begun: Box<Begun>,
    left: Left,
) -> Result<State, AllocError>
    ensures { IfOk result (λ s. state_of s ≡ ends.past_sign t.assign (reads_expression brackets 0
        (push (f.assigned_to (record { tree = own_length; line = line; nodes = nodes }) target) (all_begun begun.value an_expression)))
        (left_of left)) }
{
    let target = Box::new(alloc, target)?;
    let nodes = Box::new(alloc, nodes)?;
    let within = WithinExpression::AssignedTo {
        target,
        line,
        nodes,
    };
    let begun = begin(
        begun,
        Frame::Expression(ExpressionFrame::Expression(within)),
    )?;
    let next = Next::Expression { brackets, level: 0 };
    Ok(past_sign(Sign::Assign, next, begun, left))
}

// The value of a scatter.
fn scattered(
    brackets: bool,
    line: u64,
    scattering: Box<Scattering>,
    begun: Box<Begun>,
    left: Left,
) -> Result<State, AllocError>
    ensures { IfOk result (λ s. state_of s ≡ ends.past_sign t.assign (reads_expression brackets 0
        (push (f.scattered_to line (items_of scattering.value.items.items) scattering.value.nodes) (all_begun begun.value an_expression)))
        (left_of left)) }
{
    let within = WithinExpression::ScatteredTo { line, scattering };
    let begun = begin(
        begun,
        Frame::Expression(ExpressionFrame::Expression(within)),
    )?;
    let next = Next::Expression { brackets, level: 0 };
    Ok(past_sign(Sign::Assign, next, begun, left))
}

// Behind what is no scatter.
#[tactic(auto, using(crate::proofs::Assigning::target_is_assigned, crate::proofs::Assigning::target_is_not))]
fn behind_target(
    alloc: Global,
    brackets: bool,
    level: u8,
    found: Found,
    is_target: bool,
    begun: Box<Begun>,
    left: Left,
) -> Result<State, AllocError>
    ensures { IfOk result (λ s. state_of s ≡ target_read brackets level (found_of found) (target_if is_target (found_of found).tree)
        (all_begun begun.value an_expression) (left_of left)) }
{
    let is_read = is_target && is_assigned(level, &left);
    if !is_read {
        return Ok(operators(brackets, level, found, begun, left));
    }
    let Parts { line, tree, nodes } = out_of_box(found);
    let Some(target) = target_of(alloc, tree)? else {
        return Err(AllocError);
    };
    assigned(alloc, brackets, target, line, nodes, begun, left)
}

// Behind braces that may be a scatter.
#[tactic(auto, using(crate::proofs::Assigning::is_assigned_to, crate::proofs::Assigning::is_not_assigned))]
fn behind_perhaps(
    brackets: bool,
    level: u8,
    found: Found,
    scattering: Box<Scattering>,
    begun: Box<Begun>,
    left: Left,
) -> Result<State, AllocError>
    ensures { IfOk result (λ s. state_of s ≡ braces_read brackets level (by.whole (found_of found))
        (by.perhaps_scatter (items_of scattering.value.items.items) scattering.value.nodes) (all_begun begun.value an_expression) (left_of left)) }
{
    if is_assigned(level, &left) {
        return scattered(brackets, found.whole.line, scattering, begun, left);
    }
    Ok(operators(brackets, level, found, begun, left))
}

// Behind braces that are a scatter.
fn behind_surely(
    brackets: bool,
    level: u8,
    line: u64,
    scattering: Box<Scattering>,
    begun: Box<Begun>,
    left: Left,
) -> Result<State, AllocError>
    ensures { IfOk result (λ s. state_of s ≡ scattered_or_stuck (reads_expression brackets 0
        (push (f.scattered_to line (items_of scattering.value.items.items) scattering.value.nodes) (all_begun begun.value an_expression)))
        (is_any_level level) (left_of left)) }
{
    if is_any_level(level) {
        return scattered(brackets, line, scattering, begun, left);
    }
    Ok(stuck(begun, left))
}

fn behind_value(
    alloc: Global,
    brackets: bool,
    level: u8,
    operand: Operand,
    begun: Box<Begun>,
    left: Left,
) -> Result<State, AllocError>
    ensures { IfOk result (λ s. state_of s ≡ braces_read brackets level (operand_of operand) (operand_of operand).braces
        (all_begun begun.value an_expression) (left_of left)) }
{
    let Operand { mut whole } = operand;
    let is_target = whole.is_target;
    let braces = replace(&mut whole.braces, Braces::NoScatter);
    let found = Found { whole };
    match braces {
        Braces::NoScatter => behind_target(alloc, brackets, level, found, is_target, begun, left),
        Braces::PerhapsScatter(scattering) => {
            behind_perhaps(brackets, level, found, scattering, begun, left)
        }
        Braces::SurelyScatter(scattering) => {
            behind_surely(brackets, level, found.whole.line, scattering, begun, left)
        }
    }
}

/// Behind an operand.
#[inline(always)]
pub fn behind_operand(
    alloc: Global,
    frame: OperandFrame,
    operand: Operand,
    begun: Box<Begun>,
    left: Left,
) -> Result<State, AllocError>
    ensures { IfOk result (λ s. state_of s ≡ found_by (operand_begun frame (all_begun begun.value)) (operand_of operand) (left_of left)) }
{
    match frame {
        OperandFrame::Steps { brackets } => {
            let next = Next::Steps(BeforeSteps { brackets, operand });
            Ok(State { next, begun, left })
        }
        OperandFrame::Value { brackets, level } => {
            behind_value(alloc, brackets, level, operand, begun, left)
        }
    }
}
