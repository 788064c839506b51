//! An operator between two expressions and an integer behind it, which are taken at once.

ghost use Rattle.std.specs.Prelude.{◌≡◌, ◌&&◌, true, not, nat_le, IfSome};
ghost use Rattle.spec_program.specs.Moves as moves;
ghost use Rattle.spec_program.specs.ReadExpressions as by;
ghost use Rattle.spec_program.specs.Spelling as spec;
ghost use Rattle.spec_program.specs.Tokens as meant;
ghost use Rattle.moo_token.specs.Views.{place_of, token_of};
ghost use Rattle.moo_token.specs.Meaning.{place_meant, token_meant};
ghost use Rattle.moo_value.specs.Operators.{binary_of};
ghost use Rattle.reader_frames.specs.LeftView.{left_of};
ghost use Rattle.reader_begins.specs.Joints.{joint_of};
ghost use Rattle.reader_begins.specs.Steps.{is_step};
ghost use Rattle.reader_begins.specs.Terms.{TermBefore, TermNext, TermTaken};

use crate::level::{operator_level, right_level};
use crate::operators::{Joint, is_tight, token_joint};
use crate::steps::is_step;
use moo_token::token::{Placed, Token};
use moo_value::operator::BinaryOperator;
use reader_frames::left::Left;

/// An operator and the integer that is its whole right operand: its digits and its line.
#[derive(Clone, Copy)]
pub struct Term {
    pub operator: BinaryOperator,
    pub number: u32,
    pub line: u64,
}

// The operator that stands between two expressions, if it binds at least as tightly as this level.
#[inline(always)]
fn tight_operator(level: u8, joint: Joint) -> Option<BinaryOperator>
    ensures joint { IfSome result (λ o. joint_of joint ≡ by.operator (binary_of o)) }
    ensures tight { IfSome result (λ o. nat_le level (spec.operator_level (binary_of o)) ≡ true) }
{
    match joint {
        Joint::Operator(operator) => {
            if level <= operator_level(operator) {
                Some(operator)
            } else {
                None
            }
        }
        _ => None,
    }
}

// The digits of the integer that a token is.
#[inline(always)]
fn integer_in(token: &Token) -> Option<u32>
    ensures { IfSome result (λ n. token_meant (token_of token.now) ≡ meant.integer n) }
{
    match token {
        Token::Integer(number) => Some(*number),
        _ => None,
    }
}

// Whether a right operand of this level ends before a token.
#[inline(always)]
fn ends_before(level: u8, token: &Token) -> bool
    ensures { result ≡ (not (is_step (token_meant (token_of token.now))) && not (moves.is_tight level (by.joint (token_meant (token_of token.now))))) }
{
    !is_step(token) && !is_tight(level, token_joint(token))
}

// The term that two tokens are before a third.
#[inline(always)]
fn term_before(level: u8, one: &Placed, two: &Placed, three: &Placed) -> Option<Term>
    ensures { IfSome result (λ t. TermBefore level (place_meant (place_of one.now)) (place_meant (place_of two.now)) (place_meant (place_of three.now)) t) }
{
    let operator = tight_operator(level, token_joint(&one.token));
    let number = integer_in(&two.token);
    match (operator, number) {
        (Some(operator), Some(number)) => {
            if ends_before(right_level(operator), &three.token) {
                let line = two.line;
                Some(Term {
                    operator,
                    number,
                    line,
                })
            } else {
                None
            }
        }
        _ => None,
    }
}

// The term that the next tokens are, where another is behind it.
#[inline(always)]
fn next_term(level: u8, left: &Left) -> Option<Term>
    ensures { IfSome result (λ t. TermNext level (left_of left.now) t) }
{
    let Some(one) = left.rest.tokens.get(0) else {
        return None;
    };
    let Some(two) = left.rest.tokens.get(1) else {
        return None;
    };
    let Some(three) = left.rest.tokens.get(2) else {
        return None;
    };
    term_before(level, one, two, three)
}

/// Takes an operator that binds at least as tightly as this level with an integer that is its whole right operand, if they are next.
#[inline(always)]
pub fn take_term(level: u8, left: &mut Left) -> Option<Term>
    ensures { TermTaken level (left_of left.old) result (left_of left.new) }
{
    let term = next_term(level, left);
    if term.is_some() {
        let _operator = left.take();
        let _integer = left.take();
    }
    term
}
