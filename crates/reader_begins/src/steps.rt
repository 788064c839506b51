//! What begins a step behind an operand, and a name in it.

ghost use Rattle.std.specs.Prelude.{◌≡◌, ◌∷◌, true, false, IfOk};
ghost use Rattle.spec_program.specs.Tokens as t;
ghost use Rattle.spec_program.specs.Frames as f;
ghost use Rattle.spec_program.specs.Frames.{an_expression, an_operand, push};
ghost use Rattle.spec_program.specs.ReadExpressions.{is_surely_scatter};
ghost use Rattle.spec_reader.specs.Begins.{name_by, name_begins, step_by, steps_unless};
ghost use Rattle.spec_reader.specs.Next.{goes, found, reads_expression};
ghost use Rattle.moo_token.specs.Views.{place_of, token_of};
ghost use Rattle.moo_token.specs.Meaning.{place_meant, sign_meant, token_meant};
ghost use Rattle.moo_reader.specs.Views.{braces_of, operand_of};
ghost use Rattle.reader_frames.specs.LeftView.{left_of};
ghost use Rattle.reader_frames.specs.FrameViews.{all_begun, within_operand};
ghost use Rattle.reader_frames.specs.StateView.{state_of};
ghost use Rattle.reader_begins.specs.Steps.{is_step, begins_step};

use crate::parts::{part_begins, stuck_before};
use moo_reader::found::{Braces, Operand};
use moo_reader::start::name;
use moo_token::token::{Placed, Sign, Token};
use reader_frames::begun::Begun;
use reader_frames::frame::{ExpressionFrame, Frame, WithinExpression, WithinOperand};
use reader_frames::left::Left;
use reader_frames::state::{Next, Part, State, begin, stuck};
use reader_frames::words::allowed_text;
use std::alloc::{AllocError, Global};

// A name in parentheses.
fn name_in_parentheses(
    brackets: bool,
    line: u64,
    begun: Box<Begun>,
    left: Left,
) -> Result<State, AllocError>
    ensures { IfOk result (λ s. state_of s ≡ goes (reads_expression brackets 0 (push (f.in_parentheses line) (all_begun begun.value an_expression)))
        (left_of left)) }
{
    let within = WithinExpression::Parentheses { line };
    part_begins(
        ExpressionFrame::Expression(within),
        brackets,
        0,
        begun,
        left,
    )
}

// A name that begins with a sign.
fn name_by_sign(
    brackets: bool,
    sign: Sign,
    line: u64,
    begun: Box<Begun>,
    left: Left,
) -> Result<State, AllocError>
    ensures { IfOk result (λ s. state_of s ≡ name_by brackets (all_begun begun.value an_expression) (t.sign (sign_meant sign)) line (left_of left)
        (record { token = t.sign (sign_meant sign); line = line } ∷ left_of left)) }
{
    match sign {
        Sign::OpenParenthesis => name_in_parentheses(brackets, line, begun, left),
        _ => {
            let token = Token::Sign(sign);
            stuck_before(Placed { token, line }, begun, left)
        }
    }
}

// A name that begins with this token.
fn name_by(
    alloc: Global,
    brackets: bool,
    placed: Placed,
    begun: Box<Begun>,
    left: Left,
) -> Result<State, AllocError>
    ensures { IfOk result (λ s. state_of s ≡ name_by brackets (all_begun begun.value an_expression) (token_meant (token_of placed.token)) placed.line
        (left_of left) (place_meant (place_of placed) ∷ left_of left)) }
{
    let Placed { token, line } = placed;
    match token {
        Token::Identifier(bytes) => {
            let found = name(alloc, line, allowed_text(bytes)?)?;
            let next = Next::Found(Part::Expression(found));
            Ok(State { next, begun, left })
        }
        Token::Sign(sign) => name_by_sign(brackets, sign, line, begun, left),
        token => stuck_before(Placed { token, line }, begun, left),
    }
}

// A name: a word, or an expression in parentheses.
#[tactic(auto, using(crate::proofs::Ends::no_name))]
fn name_begins(
    alloc: Global,
    brackets: bool,
    begun: Box<Begun>,
    mut left: Left,
) -> Result<State, AllocError>
    ensures { IfOk result (λ s. state_of s ≡ name_begins brackets (all_begun begun.value an_expression) (left_of left)) }
{
    match left.take() {
        Some(placed) => name_by(alloc, brackets, placed, begun, left),
        None => Ok(stuck(begun, left)),
    }
}

// The name of a property or a verb.
fn part_named(
    alloc: Global,
    brackets: bool,
    within: WithinOperand,
    begun: Box<Begun>,
    left: Left,
) -> Result<State, AllocError>
    ensures { IfOk result (λ s. state_of s ≡ name_begins brackets (push (within_operand within) (all_begun begun.value an_operand)) (left_of left)) }
{
    let begun = begin(begun, Frame::Expression(ExpressionFrame::Operand(within)))?;
    name_begins(alloc, brackets, begun, left)
}

// An index, or the first one of a range.
fn index_begins(
    brackets: bool,
    list: Operand,
    begun: Box<Begun>,
    left: Left,
) -> Result<State, AllocError>
    ensures { IfOk result (λ s. state_of s ≡ goes (reads_expression true 0 (push (f.index_in brackets (operand_of list)) (all_begun begun.value an_operand)))
        (left_of left)) }
{
    let within = WithinOperand::Index { brackets, list };
    part_begins(ExpressionFrame::Operand(within), true, 0, begun, left)
}

// The operand without a step.
fn no_step(operand: Operand, begun: Box<Begun>, left: Left) -> State
    ensures { state_of result ≡ goes (found (all_begun begun.value an_operand) (operand_of operand)) (left_of left) }
{
    let next = Next::Found(Part::Operand(operand));
    State { next, begun, left }
}

// A step that begins with this sign. One that begins no step is answered as a lack of memory.
fn step_by_sign(
    alloc: Global,
    brackets: bool,
    operand: Operand,
    sign: Sign,
    line: u64,
    begun: Box<Begun>,
    left: Left,
) -> Result<State, AllocError>
    ensures { IfOk result (λ s. state_of s ≡ step_by brackets (operand_of operand) (all_begun begun.value an_operand) (t.sign (sign_meant sign))
        (left_of left) (record { token = t.sign (sign_meant sign); line = line } ∷ left_of left)) }
{
    match sign {
        Sign::Dot => {
            let object = operand;
            let within = WithinOperand::PropertyName { brackets, object };
            part_named(alloc, brackets, within, begun, left)
        }
        Sign::Colon => {
            let object = operand;
            let within = WithinOperand::VerbName { brackets, object };
            part_named(alloc, brackets, within, begun, left)
        }
        Sign::OpenBracket => index_begins(brackets, operand, begun, left),
        _ => Err(AllocError),
    }
}

// A step that begins with this token. One that begins no step is answered as a lack of memory.
fn step_by(
    alloc: Global,
    brackets: bool,
    operand: Operand,
    placed: Placed,
    begun: Box<Begun>,
    left: Left,
) -> Result<State, AllocError>
    ensures { IfOk result (λ s. state_of s ≡ step_by brackets (operand_of operand) (all_begun begun.value an_operand) (token_meant (token_of placed.token))
        (left_of left) (place_meant (place_of placed) ∷ left_of left)) }
{
    let Placed { token, line } = placed;
    match token {
        Token::Sign(sign) => step_by_sign(alloc, brackets, operand, sign, line, begun, left),
        _ => Err(AllocError),
    }
}

/// Whether a step begins with a token.
pub fn is_step(token: &Token) -> bool
    ensures { result ≡ is_step (token_meant (token_of token.now)) }
{
    matches!(
        token,
        Token::Sign(Sign::Dot) | Token::Sign(Sign::Colon) | Token::Sign(Sign::OpenBracket)
    )
}

// Whether a step begins with the next token.
fn begins_step(left: &Left) -> bool
    ensures { result ≡ begins_step (left_of left.now) }
{
    match left.rest.tokens.front() {
        Some(placed) => is_step(&placed.token),
        None => false,
    }
}

// Whether braces can be a scatter alone.
fn is_surely_scatter(braces: &Braces) -> bool
    ensures { result ≡ is_surely_scatter (braces_of braces.now) }
{
    matches!(braces, Braces::SurelyScatter(_))
}

// The steps behind an operand that is no scatter.
#[tactic(auto, using(crate::proofs::Ends::no_step, crate::proofs::Ends::no_step_there))]
fn step_begins(
    alloc: Global,
    brackets: bool,
    operand: Operand,
    begun: Box<Begun>,
    mut left: Left,
) -> Result<State, AllocError>
    ensures { IfOk result (λ s. state_of s ≡ steps_unless false brackets (operand_of operand) (all_begun begun.value an_operand) (left_of left)) }
{
    if !begins_step(&left) {
        return Ok(no_step(operand, begun, left));
    }
    match left.take() {
        Some(placed) => step_by(alloc, brackets, operand, placed, begun, left),
        None => Ok(no_step(operand, begun, left)),
    }
}

/// The steps behind an operand.
pub fn steps_begin(
    alloc: Global,
    brackets: bool,
    operand: Operand,
    begun: Box<Begun>,
    left: Left,
) -> Result<State, AllocError>
    ensures { IfOk result (λ s. state_of s ≡ steps_unless (is_surely_scatter (operand_of operand).braces) brackets (operand_of operand)
        (all_begun begun.value an_operand) (left_of left)) }
{
    if is_surely_scatter(&operand.whole.braces) {
        return Ok(no_step(operand, begun, left));
    }
    step_begins(alloc, brackets, operand, begun, left)
}
