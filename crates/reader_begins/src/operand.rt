//! What begins an operand.

ghost use Rattle.std.specs.Prelude.{◌≡◌, ◌∷◌, IfOk};
ghost use Rattle.spec_program.specs.Tokens as t;
ghost use Rattle.spec_program.specs.FurtherMoves.{name_at};
ghost use Rattle.spec_program.specs.Frames as f;
ghost use Rattle.spec_program.specs.Frames.{an_operand, push};
ghost use Rattle.spec_reader.specs.Begins.{literal_begins, word_begins, system_begins, dollar_begins, brace_begins, operand_by, operand_begins};
ghost use Rattle.spec_reader.specs.Next.{goes, reads_steps, reads_expression};
ghost use Rattle.moo_token.specs.Views.{place_of, token_of};
ghost use Rattle.moo_token.specs.Meaning.{place_meant, token_meant, sign_meant};
ghost use Rattle.moo_reader.specs.Views.{operand_of};
ghost use Rattle.reader_frames.specs.LeftView.{left_of};
ghost use Rattle.reader_frames.specs.FrameViews.{all_begun};
ghost use Rattle.reader_frames.specs.StateView.{state_of};

use crate::literal::{error_of, integer_of, object_of};
use crate::parts::{part_begins, stuck_before};
use moo_reader::build::property_of;
use moo_reader::found::{Allowed, Operand};
use moo_reader::start::{empty_list, literal, name, own_length, system, variable};
use moo_token::token::{Placed, Sign, Token};
use moo_value::operator::UnaryOperator;
use moo_value::value::Value;
use reader_frames::begun::Begun;
use reader_frames::ends::arguments_to;
use reader_frames::frame::{
    ArgumentsFrame, ExpressionFrame, Frame, ItemsFrame, OperandFrame, WithinExpression,
    WithinOperand,
};
use reader_frames::left::{Left, Word};
use reader_frames::state::{BeforeSteps, Next, State, begin, stuck};
use reader_frames::words::allowed_text;
use std::alloc::{AllocError, Global};

// The steps behind an operand.
fn steps(brackets: bool, operand: Operand, begun: Box<Begun>, left: Left) -> State
    ensures { state_of result ≡ goes (reads_steps brackets (operand_of operand) (all_begun begun.value an_operand)) (left_of left) }
{
    let next = Next::Steps(BeforeSteps { brackets, operand });
    State { next, begun, left }
}

// A literal.
fn literal_begins(
    alloc: Global,
    brackets: bool,
    line: u64,
    value: Value,
    begun: Box<Begun>,
    left: Left,
) -> Result<State, AllocError>
    ensures { IfOk result (λ s. state_of s ≡ literal_begins brackets line value (all_begun begun.value an_operand) (left_of left)) }
{
    let operand = literal(alloc, line, value)?;
    Ok(steps(brackets, operand, begun, left))
}

// A variable, or a call of a function.
fn word_begins(
    alloc: Global,
    brackets: bool,
    word: Word,
    begun: Box<Begun>,
    mut left: Left,
) -> Result<State, AllocError>
    ensures { IfOk result (λ s. state_of s ≡ word_begins brackets word.text word.line (all_begun begun.value an_operand) (left_of left)) }
{
    let Word { text, line } = word;
    if left.take_sign(Sign::OpenParenthesis) {
        let begun = begin(begun, Frame::Operand(OperandFrame::Steps { brackets }))?;
        let frame = ArgumentsFrame::CallOf { name: text, line };
        let begun = begin(begun, Frame::Arguments(frame))?;
        return arguments_to(alloc, Sign::CloseParenthesis, brackets, begun, left);
    }
    let operand = variable(alloc, line, &text)?;
    Ok(steps(brackets, operand, begun, left))
}

// A property or a verb of the system object, by its name behind `$`.
fn system_begins(
    alloc: Global,
    brackets: bool,
    line: u64,
    word: Word,
    begun: Box<Begun>,
    mut left: Left,
) -> Result<State, AllocError>
    ensures { IfOk result (λ s. state_of s ≡ system_begins brackets line (name_at word.line word.text) (all_begun begun.value an_operand) (left_of left)) }
{
    let Word { text, line: at } = word;
    let object = system(alloc, line)?;
    let name = name(alloc, at, text)?;
    if left.take_sign(Sign::OpenParenthesis) {
        let begun = begin(begun, Frame::Operand(OperandFrame::Steps { brackets }))?;
        let frame = ArgumentsFrame::VerbOf { object, name };
        let begun = begin(begun, Frame::Arguments(frame))?;
        return arguments_to(alloc, Sign::CloseParenthesis, brackets, begun, left);
    }
    let operand = property_of(alloc, object, name)?;
    Ok(steps(brackets, operand, begun, left))
}

// Behind `$`: a name, or in brackets nothing more.
fn dollar_begins(
    alloc: Global,
    brackets: bool,
    line: u64,
    begun: Box<Begun>,
    mut left: Left,
) -> Result<State, AllocError>
    ensures { IfOk result (λ s. state_of s ≡ dollar_begins brackets line (all_begun begun.value an_operand) (left_of left)) }
{
    if let Some(word) = left.take_word()? {
        return system_begins(alloc, brackets, line, word, begun, left);
    }
    if !brackets {
        return Ok(stuck(begun, left));
    }
    let operand = own_length(alloc, line)?;
    Ok(steps(brackets, operand, begun, left))
}

// Behind an opening brace: items of a list, and of a scatter where any expression may stand.
fn brace_begins(
    alloc: Global,
    brackets: bool,
    level: u8,
    line: u64,
    begun: Box<Begun>,
    mut left: Left,
) -> Result<State, AllocError>
    ensures { IfOk result (λ s. state_of s ≡ brace_begins brackets level line (all_begun begun.value an_operand) (left_of left)) }
{
    if left.take_sign(Sign::CloseBrace) {
        let operand = empty_list(alloc, line)?;
        return Ok(steps(brackets, operand, begun, left));
    }
    let begun = begin(begun, Frame::Operand(OperandFrame::Steps { brackets }))?;
    let begun = begin(begun, Frame::Items(ItemsFrame::Braces { line }))?;
    let allowed = Allowed {
        as_list: true,
        as_scatter: level == 0,
        has_rest: false,
    };
    let next = Next::Items { brackets, allowed };
    Ok(State { next, begun, left })
}

// An expression in parentheses.
fn parenthesis_begins(
    brackets: bool,
    line: u64,
    begun: Box<Begun>,
    left: Left,
) -> Result<State, AllocError>
    ensures { IfOk result (λ s. state_of s ≡ goes (reads_expression brackets 0 (push (f.in_parentheses line) (push f.as_operand
        (push (f.steps_behind brackets) (all_begun begun.value an_operand))))) (left_of left)) }
{
    let begun = begin(begun, Frame::Operand(OperandFrame::Steps { brackets }))?;
    let within = WithinOperand::Whole;
    let begun = begin(begun, Frame::Expression(ExpressionFrame::Operand(within)))?;
    let within = WithinExpression::Parentheses { line };
    part_begins(
        ExpressionFrame::Expression(within),
        brackets,
        0,
        begun,
        left,
    )
}

// An expression whose errors are caught.
fn catch_begins(
    brackets: bool,
    line: u64,
    begun: Box<Begun>,
    left: Left,
) -> Result<State, AllocError>
    ensures { IfOk result (λ s. state_of s ≡ goes (reads_expression brackets 0 (push (f.caught_in brackets line)
        (push (f.steps_behind brackets) (all_begun begun.value an_operand)))) (left_of left)) }
{
    let begun = begin(begun, Frame::Operand(OperandFrame::Steps { brackets }))?;
    let within = WithinOperand::Caught { brackets, line };
    part_begins(ExpressionFrame::Operand(within), brackets, 0, begun, left)
}

// What begins with a sign.
fn sign_begins(
    alloc: Global,
    brackets: bool,
    level: u8,
    sign: Sign,
    line: u64,
    begun: Box<Begun>,
    left: Left,
) -> Result<State, AllocError>
    ensures { IfOk result (λ s. state_of s ≡ operand_by brackets level (all_begun begun.value an_operand) (t.sign (sign_meant sign)) line (left_of left)
        (record { token = t.sign (sign_meant sign); line = line } ∷ left_of left)) }
{
    match sign {
        Sign::Minus => {
            let operator = UnaryOperator::Negation;
            let within = WithinOperand::Unary { operator, line };
            part_begins(ExpressionFrame::Operand(within), brackets, 7, begun, left)
        }
        Sign::Not => {
            let operator = UnaryOperator::NotTrue;
            let within = WithinOperand::Unary { operator, line };
            part_begins(ExpressionFrame::Operand(within), brackets, 7, begun, left)
        }
        Sign::Dollar => dollar_begins(alloc, brackets, line, begun, left),
        Sign::OpenParenthesis => parenthesis_begins(brackets, line, begun, left),
        Sign::OpenBrace => brace_begins(alloc, brackets, level, line, begun, left),
        Sign::Backquote => catch_begins(brackets, line, begun, left),
        _ => {
            let token = Token::Sign(sign);
            stuck_before(Placed { token, line }, begun, left)
        }
    }
}

// An operand that begins with this token. An object out of range, which no token is, is answered as a lack of memory.
fn operand_by(
    alloc: Global,
    brackets: bool,
    level: u8,
    placed: Placed,
    begun: Box<Begun>,
    left: Left,
) -> Result<State, AllocError>
    ensures { IfOk result (λ s. state_of s ≡ operand_by brackets level (all_begun begun.value an_operand) (token_meant (token_of placed.token)) placed.line
        (left_of left) (place_meant (place_of placed) ∷ left_of left)) }
{
    let Placed { token, line } = placed;
    match token {
        Token::Integer(number) => {
            let value = Value::integer(integer_of(number));
            literal_begins(alloc, brackets, line, value, begun, left)
        }
        Token::Object(minus, number) => {
            let Some(number) = object_of(minus, number) else {
                return Err(AllocError);
            };
            literal_begins(alloc, brackets, line, Value::object(number), begun, left)
        }
        Token::Text(bytes) => {
            let value = Value::text(allowed_text(bytes)?);
            literal_begins(alloc, brackets, line, value, begun, left)
        }
        Token::Error(name) => {
            let value = Value::error(error_of(name));
            literal_begins(alloc, brackets, line, value, begun, left)
        }
        Token::Identifier(bytes) => {
            let text = allowed_text(bytes)?;
            word_begins(alloc, brackets, Word { text, line }, begun, left)
        }
        Token::Sign(sign) => sign_begins(alloc, brackets, level, sign, line, begun, left),
        Token::Keyword(keyword) => {
            let token = Token::Keyword(keyword);
            stuck_before(Placed { token, line }, begun, left)
        }
    }
}

/// An operand, of an expression that binds at least as tightly as this level.
#[tactic(auto, using(crate::proofs::Ends::no_operand))]
pub fn operand_begins(
    alloc: Global,
    brackets: bool,
    level: u8,
    begun: Box<Begun>,
    mut left: Left,
) -> Result<State, AllocError>
    ensures { IfOk result (λ s. state_of s ≡ operand_begins brackets level (all_begun begun.value an_operand) (left_of left)) }
{
    match left.take() {
        Some(placed) => operand_by(alloc, brackets, level, placed, begun, left),
        None => Ok(stuck(begun, left)),
    }
}
