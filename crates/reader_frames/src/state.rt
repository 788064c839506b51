//! What a reader reads next.

ghost use Rattle.std.specs.Prelude.{◌≡◌, ◌∷◌, IfOk};
ghost use Rattle.spec_reader.specs.Next.{stops};
ghost use Rattle.spec_reader.specs.Ends as by;
ghost use Rattle.moo_token.specs.Meaning.{sign_meant, keyword_meant};
ghost use Rattle.reader_frames.specs.LeftView.{left_of};
ghost use Rattle.reader_frames.specs.StateView.{next_of, state_of};

use crate::begun::Begun;
use crate::frame::Frame;
use crate::left::Left;
use moo_reader::block::{Arms, Block, Branches, FoundStatement};
use moo_reader::found::{Allowed, Arguments, Found, FoundCodes, Items, Operand};
use moo_token::token::{Keyword, Sign};
use std::alloc::AllocError;

/// What was found.
#[derive(Drop)]
pub enum Part {
    Expression(Found),
    Operand(Operand),
    Arguments(Box<Arguments>),
    Items(Box<Items>),
    Codes(Box<FoundCodes>),
    Statement(Box<FoundStatement>),
    Block(Box<Block>),
    Branches(Box<Branches>),
    Arms(Box<Arms>),
}

/// An operand before its steps.
#[derive(Drop)]
pub struct BeforeSteps {
    pub brackets: bool,
    pub operand: Operand,
}

/// An expression before operators that bind at least as tightly as this level.
#[derive(Drop)]
pub struct BeforeOperators {
    pub brackets: bool,
    pub level: u8,
    pub left: Found,
}

/// What is read next, or was found.
#[derive(Drop)]
pub enum Next {
    Found(Part),
    /// An expression that binds at least as tightly as this level: 0 is any.
    Expression { brackets: bool, level: u8 },
    /// The steps behind an operand.
    Steps(BeforeSteps),
    /// The operators behind an expression.
    Operators(BeforeOperators),
    Arguments { brackets: bool },
    Items { brackets: bool, allowed: Allowed },
    Block,
    Branches,
    Arms,
    /// No program goes on with the next token.
    Sticks,
}

/// What was begun, the newest first, what is read next within it, and the tokens from there on.
#[derive(Drop)]
pub struct State {
    pub begun: Box<Begun>,
    pub next: Next,
    pub left: Left,
}

/// Something more that was begun.
#[inline(always)]
pub fn begin(mut begun: Box<Begun>, frame: Frame) -> Result<Box<Begun>, AllocError>
    ensures { IfOk result (λ g. g.value ≡ frame ∷ begun.value) }
{
    begun.push(frame)?;
    Ok(begun)
}

/// No program goes on with the next token.
pub fn stuck(begun: Box<Begun>, left: Left) -> State
    ensures { state_of result ≡ stops (left_of left) }
{
    State {
        next: Next::Sticks,
        begun,
        left,
    }
}

// What was found is let go of.
fn discard_part(_part: Part) {}

// What was to be read next is let go of.
fn discard(next: Next) {
    match next {
        Next::Found(part) => discard_part(part),
        _ => {}
    }
}

/// What is next behind a sign that has to be there.
pub fn past_sign(sign: Sign, next: Next, begun: Box<Begun>, mut left: Left) -> State
    ensures { state_of result ≡ by.past_sign (sign_meant sign) (next_of next begun.value) (left_of left) }
{
    if left.take_sign(sign) {
        State { next, begun, left }
    } else {
        discard(next);
        stuck(begun, left)
    }
}

/// What is next behind a word that has to be there.
pub fn past_keyword(keyword: Keyword, next: Next, begun: Box<Begun>, mut left: Left) -> State
    ensures { state_of result ≡ by.past_keyword (keyword_meant keyword) (next_of next begun.value) (left_of left) }
{
    if left.take_keyword(keyword) {
        State { next, begun, left }
    } else {
        discard(next);
        stuck(begun, left)
    }
}
