//! What begins a statement, a branch and a handler.

ghost use Rattle.std.specs.Prelude.{◌≡◌, ◌∷◌, IfOk};
ghost use Rattle.spec_program.specs.Tokens as t;
ghost use Rattle.spec_program.specs.Frames as f;
ghost use Rattle.spec_program.specs.Frames.{a_block, some_arms_read, some_branches_read, push};
ghost use Rattle.spec_program.specs.ReadPrograms as by;
ghost use Rattle.spec_reader.specs.Next.{found, goes};
ghost use Rattle.spec_reader.specs.Begins as meant;
ghost use Rattle.moo_token.specs.Views.{place_of, token_of};
ghost use Rattle.moo_token.specs.Meaning.{keyword_meant, place_meant, sign_meant, token_meant};
ghost use Rattle.reader_frames.specs.LeftView.{left_of};
ghost use Rattle.reader_frames.specs.FrameViews.{all_begun};
ghost use Rattle.reader_frames.specs.StateView.{state_of};

use crate::heads::{
    for_begins, fork_begins, if_begins, part_begins, return_begins, try_begins, while_begins,
};
use crate::leaving::{break_begins, continue_begins, perhaps_name};
use moo_reader::statement::no_statements;
use moo_token::token::{Keyword, Placed, Sign, Token};
use moo_value::text::Text;
use reader_frames::begun::Begun;
use reader_frames::ends::codes_begin;
use reader_frames::frame::{CodesFrame, ExpressionFrame, Frame, WithinExpression, WithinStatement};
use reader_frames::left::Left;
use reader_frames::state::{Next, Part, State, begin, past_sign, stuck};
use std::alloc::{AllocError, Global};

/// A branch: its condition in parentheses.
pub fn branches_begin(begun: Box<Begun>, left: Left) -> Result<State, AllocError>
    ensures { IfOk result (λ s. state_of s ≡ meant.branches_begin (all_begun begun.value some_branches_read) (left_of left)) }
{
    let begun = begin(begun, Frame::Expression(ExpressionFrame::Condition))?;
    let within = WithinExpression::Head;
    let begun = begin(
        begun,
        Frame::Expression(ExpressionFrame::Expression(within)),
    )?;
    let next = Next::Expression {
        brackets: false,
        level: 0,
    };
    Ok(past_sign(Sign::OpenParenthesis, next, begun, left))
}

// A handler: the codes in parentheses.
fn arm_named(
    alloc: Global,
    variable: Option<Text>,
    begun: Box<Begun>,
    mut left: Left,
) -> Result<State, AllocError>
    ensures { IfOk result (λ s. state_of s ≡ meant.arm_named variable (all_begun begun.value some_arms_read) (left_of left)) }
{
    if !left.take_sign(Sign::OpenParenthesis) {
        return Ok(stuck(begun, left));
    }
    let begun = begin(begun, Frame::Codes(CodesFrame::Arm { variable }))?;
    codes_begin(alloc, false, begun, left)
}

/// A handler: the variable that gets the error, if any, and the codes in parentheses.
#[tactic(auto, using(crate::proofs::Words::arm_by_name))]
pub fn arms_begin(alloc: Global, begun: Box<Begun>, mut left: Left) -> Result<State, AllocError>
    ensures { IfOk result (λ s. state_of s ≡ meant.arms_begin (all_begun begun.value some_arms_read) (left_of left)) }
{
    let variable = perhaps_name(alloc, &mut left)?;
    arm_named(alloc, variable, begun, left)
}

// Statements end before the next token, which is put back.
fn ends_before(
    alloc: Global,
    placed: Placed,
    begun: Box<Begun>,
    mut left: Left,
) -> Result<State, AllocError>
    ensures { IfOk result (λ s. state_of s ≡ goes (found (all_begun begun.value a_block) by.no_statements) (place_meant (place_of placed) ∷ left_of left)) }
{
    left.put_back(placed)?;
    let block = Box::new(alloc, no_statements(alloc))?;
    let next = Next::Found(Part::Block(block));
    Ok(State { next, begun, left })
}

// An expression, which begins with the next token.
fn expression_begins(placed: Placed, begun: Box<Begun>, mut left: Left) -> Result<State, AllocError>
    ensures { IfOk result (λ s. state_of s ≡ meant.expression_statement (push f.block_behind (all_begun begun.value a_block)) placed.line
        (place_meant (place_of placed) ∷ left_of left)) }
{
    let line = placed.line;
    left.put_back(placed)?;
    let begun = begin(begun, Frame::Statement)?;
    part_begins(WithinStatement::Evaluated { line }, begun, left)
}

// A statement that begins with a word of the language, or the end of the statements.
fn statement_by_keyword(
    alloc: Global,
    keyword: Keyword,
    line: u64,
    begun: Box<Begun>,
    left: Left,
) -> Result<State, AllocError>
    ensures { IfOk result (λ s. state_of s ≡ meant.statement_by_keyword (all_begun begun.value a_block) (push f.block_behind (all_begun begun.value a_block))
        (keyword_meant keyword) line (left_of left) (record { token = t.keyword (keyword_meant keyword); line = line } ∷ left_of left)) }
{
    match keyword {
        Keyword::If => if_begins(line, begin(begun, Frame::Statement)?, left),
        Keyword::For => for_begins(alloc, line, begin(begun, Frame::Statement)?, left),
        Keyword::While => while_begins(alloc, line, begin(begun, Frame::Statement)?, left),
        Keyword::Fork => fork_begins(alloc, line, begin(begun, Frame::Statement)?, left),
        Keyword::Try => try_begins(line, begin(begun, Frame::Statement)?, left),
        Keyword::Break => break_begins(alloc, line, begin(begun, Frame::Statement)?, left),
        Keyword::Continue => continue_begins(alloc, line, begin(begun, Frame::Statement)?, left),
        Keyword::Return => return_begins(alloc, line, begin(begun, Frame::Statement)?, left),
        _ => {
            let token = Token::Keyword(keyword);
            ends_before(alloc, Placed { token, line }, begun, left)
        }
    }
}

fn statement_by_sign(
    alloc: Global,
    sign: Sign,
    line: u64,
    begun: Box<Begun>,
    left: Left,
) -> Result<State, AllocError>
    ensures { IfOk result (λ s. state_of s ≡ meant.statement_by_sign (all_begun begun.value a_block) (push f.block_behind (all_begun begun.value a_block))
        (sign_meant sign) line (left_of left) (record { token = t.sign (sign_meant sign); line = line } ∷ left_of left)) }
{
    match sign {
        Sign::Semicolon => {
            let next = Next::Block;
            Ok(State { next, begun, left })
        }
        Sign::OpenParenthesis
        | Sign::OpenBrace
        | Sign::Dollar
        | Sign::Backquote
        | Sign::Minus
        | Sign::Not => {
            let token = Token::Sign(sign);
            expression_begins(Placed { token, line }, begun, left)
        }
        _ => {
            let token = Token::Sign(sign);
            ends_before(alloc, Placed { token, line }, begun, left)
        }
    }
}

fn statement_by(
    alloc: Global,
    placed: Placed,
    begun: Box<Begun>,
    left: Left,
) -> Result<State, AllocError>
    ensures { IfOk result (λ s. state_of s ≡ meant.statement_by (all_begun begun.value a_block) (push f.block_behind (all_begun begun.value a_block))
        (token_meant (token_of placed.token)) placed.line (left_of left) (place_meant (place_of placed) ∷ left_of left)) }
{
    let Placed { token, line } = placed;
    match token {
        Token::Keyword(keyword) => statement_by_keyword(alloc, keyword, line, begun, left),
        Token::Sign(sign) => statement_by_sign(alloc, sign, line, begun, left),
        token => expression_begins(Placed { token, line }, begun, left),
    }
}

/// A statement and those behind it, or their end.
#[tactic(auto, using(crate::proofs::Words::no_block))]
pub fn block_begins(alloc: Global, begun: Box<Begun>, mut left: Left) -> Result<State, AllocError>
    ensures { IfOk result (λ s. state_of s ≡ meant.block_begins (all_begun begun.value a_block) (left_of left)) }
{
    match left.take() {
        Some(placed) => statement_by(alloc, placed, begun, left),
        None => {
            let block = Box::new(alloc, no_statements(alloc))?;
            let next = Next::Found(Part::Block(block));
            Ok(State { next, begun, left })
        }
    }
}
