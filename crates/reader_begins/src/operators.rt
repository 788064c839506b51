//! What an operator between two expressions begins.

ghost use Rattle.std.specs.Prelude.{◌≡◌, IfOk};
ghost use Rattle.spec_program.specs.Tokens as meant;
ghost use Rattle.spec_program.specs.ReadExpressions as by;
ghost use Rattle.spec_program.specs.Frames as f;
ghost use Rattle.spec_program.specs.Frames.{an_expression, push};
ghost use Rattle.spec_program.specs.Moves as moves;
ghost use Rattle.spec_reader.specs.Begins.{operators_begin};
ghost use Rattle.spec_reader.specs.Next.{goes, reads_expression};
ghost use Rattle.moo_token.specs.Views.{token_of};
ghost use Rattle.moo_token.specs.Meaning.{keyword_meant, sign_meant, token_meant};
ghost use Rattle.moo_reader.specs.Views.{found_of, join_of};
ghost use Rattle.reader_frames.specs.LeftView.{left_of};
ghost use Rattle.reader_frames.specs.FrameViews.{all_begun};
ghost use Rattle.reader_frames.specs.StateView.{state_of};
ghost use Rattle.reader_begins.specs.Joints.{joint_of, joint_at, tight_joint, left_behind, joint_next};

use crate::level::{operator_level, right_level};
use crate::parts::part_begins;
use moo_reader::found::{Found, Join};
use moo_token::token::{Keyword, Sign, Token};
use moo_value::operator::BinaryOperator;
use reader_frames::begun::Begun;
use reader_frames::frame::{ExpressionFrame, WithinExpression};
use reader_frames::left::Left;
use reader_frames::state::{Next, Part, State};
use std::alloc::AllocError;

/// What stands between two expressions, if anything.
#[derive(Clone, Copy)]
pub enum Joint {
    Operator(BinaryOperator),
    And,
    Or,
    Question,
    Nothing,
}

// What a sign is between two expressions.
fn sign_joint(sign: Sign) -> Joint
    ensures { joint_of result ≡ by.joint (meant.sign (sign_meant sign)) }
{
    match sign {
        Sign::Plus => Joint::Operator(BinaryOperator::Plus),
        Sign::Minus => Joint::Operator(BinaryOperator::Minus),
        Sign::Times => Joint::Operator(BinaryOperator::Times),
        Sign::Slash => Joint::Operator(BinaryOperator::DividedBy),
        Sign::Percent => Joint::Operator(BinaryOperator::RemainderBy),
        Sign::Caret => Joint::Operator(BinaryOperator::ToThe),
        Sign::Equal => Joint::Operator(BinaryOperator::Equals),
        Sign::Differs => Joint::Operator(BinaryOperator::Differs),
        Sign::Less => Joint::Operator(BinaryOperator::Less),
        Sign::LessOrEqual => Joint::Operator(BinaryOperator::LessOrEqual),
        Sign::Greater => Joint::Operator(BinaryOperator::Greater),
        Sign::GreaterOrEqual => Joint::Operator(BinaryOperator::GreaterOrEqual),
        Sign::And => Joint::And,
        Sign::Or => Joint::Or,
        Sign::Question => Joint::Question,
        _ => Joint::Nothing,
    }
}

// What a keyword is between two expressions.
fn keyword_joint(keyword: Keyword) -> Joint
    ensures { joint_of result ≡ by.joint (meant.keyword (keyword_meant keyword)) }
{
    match keyword {
        Keyword::In => Joint::Operator(BinaryOperator::IsIn),
        _ => Joint::Nothing,
    }
}

/// What a token is between two expressions.
pub fn token_joint(token: &Token) -> Joint
    ensures { joint_of result ≡ by.joint (token_meant (token_of token.now)) }
{
    match token {
        Token::Sign(sign) => sign_joint(*sign),
        Token::Keyword(keyword) => keyword_joint(*keyword),
        _ => Joint::Nothing,
    }
}

/// Whether it binds at least as tightly as this level.
pub fn is_tight(level: u8, joint: Joint) -> bool
    ensures { result ≡ moves.is_tight level (joint_of joint) }
{
    match joint {
        Joint::Operator(operator) => level <= operator_level(operator),
        Joint::And | Joint::Or => level <= 2,
        Joint::Question => level <= 1,
        Joint::Nothing => false,
    }
}

// What stands next between two expressions.
fn next_joint(left: &Left) -> Joint
    ensures { joint_of result ≡ joint_at (left_of left.now) }
{
    match left.rest.tokens.front() {
        Some(placed) => token_joint(&placed.token),
        None => Joint::Nothing,
    }
}

// Takes what stands between two expressions, if it binds as tightly as is wanted.
#[tactic(auto, using(crate::proofs::TakenJoints::tight_taken, crate::proofs::TakenJoints::joint_taken, crate::proofs::TakenJoints::nothing_taken, crate::proofs::TakenJoints::loose_stays, crate::proofs::TakenJoints::joint_stays))]
fn take_joint(level: u8, left: &mut Left) -> Joint
    ensures joint { joint_of result ≡ tight_joint level (joint_at (left_of left.old)) }
    ensures left { left_of left.new ≡ left_behind level (left_of left.old) }
{
    let joint = next_joint(left);
    if is_tight(level, joint) {
        let _taken = left.take();
        return joint;
    }
    Joint::Nothing
}

// The right operand.
fn right_of(
    brackets: bool,
    level: u8,
    found: Found,
    join: Join,
    wanted: u8,
    begun: Box<Begun>,
    left: Left,
) -> Result<State, AllocError>
    ensures { IfOk result (λ s. state_of s ≡ goes (reads_expression brackets wanted
        (push (f.right_of brackets level (found_of found) (join_of join)) (all_begun begun.value an_expression))) (left_of left)) }
{
    let within = WithinExpression::RightOf {
        brackets,
        level,
        left: found,
        join,
    };
    part_begins(
        ExpressionFrame::Expression(within),
        brackets,
        wanted,
        begun,
        left,
    )
}

// What is read behind it.
fn behind_joint(
    brackets: bool,
    level: u8,
    found: Found,
    joint: Joint,
    begun: Box<Begun>,
    left: Left,
) -> Result<State, AllocError>
    ensures { IfOk result (λ s. state_of s ≡ goes (joint_next brackets level (found_of found) (all_begun begun.value an_expression) (joint_of joint))
        (left_of left)) }
{
    match joint {
        Joint::Operator(operator) => {
            let join = Join::Operator(operator);
            right_of(
                brackets,
                level,
                found,
                join,
                right_level(operator),
                begun,
                left,
            )
        }
        Joint::And => right_of(brackets, level, found, Join::Both, 3, begun, left),
        Joint::Or => right_of(brackets, level, found, Join::Either, 3, begun, left),
        Joint::Question => {
            let within = WithinExpression::ChosenFirst {
                brackets,
                level,
                condition: found,
            };
            part_begins(
                ExpressionFrame::Expression(within),
                brackets,
                0,
                begun,
                left,
            )
        }
        Joint::Nothing => {
            let next = Next::Found(Part::Expression(found));
            Ok(State { next, begun, left })
        }
    }
}

/// The operators behind an expression that bind at least as tightly as this level.
#[tactic(auto, using(crate::proofs::TakenJoints::operators_taken))]
pub fn operators_begin(
    brackets: bool,
    level: u8,
    found: Found,
    begun: Box<Begun>,
    mut left: Left,
) -> Result<State, AllocError>
    ensures { IfOk result (λ s. state_of s ≡ operators_begin brackets level (found_of found) (all_begun begun.value an_expression) (left_of left)) }
{
    let joint = take_joint(level, &mut left);
    behind_joint(brackets, level, found, joint, begun, left)
}
