//! Parts that several constructs share: arguments, items, codes, and the heads and bodies of statements.

ghost use Rattle.std.specs.Prelude.{◌≡◌, false, IfOk};
ghost use Rattle.spec_program.specs.Frames.{some_arguments_read, some_items_read, some_codes_read, a_statement, end_word};
ghost use Rattle.spec_reader.specs.Ends as by;
ghost use Rattle.spec_reader.specs.Next.{goes};
ghost use Rattle.moo_token.specs.Meaning.{sign_meant, keyword_meant};
ghost use Rattle.moo_reader.specs.Views.{allowed_of, item_of};
ghost use Rattle.moo_reader.specs.BlockViews.{statement_found};
ghost use Rattle.reader_frames.specs.LeftView.{left_of};
ghost use Rattle.reader_frames.specs.FrameViews.{all_begun, head_of, body_of};
ghost use Rattle.reader_frames.specs.StateView.{state_of};

use crate::begun::Begun;
use crate::frame::{
    ArgumentsFrame, BlockFrame, Body, ExpressionFrame, Frame, Head, ItemsFrame, WithinExpression,
    WithinStatement,
};
use crate::left::Left;
use crate::state::{Next, Part, State, begin, past_sign};
use moo_reader::block::FoundStatement;
use moo_reader::build::no_arguments;
use moo_reader::found::{Allowed, BracedItem, FoundCodes};
use moo_reader::items::{no_more, with_item};
use moo_reader::node::Nodes;
use moo_token::token::{Keyword, Sign};
use moo_tree::expression::Codes;
use std::alloc::{AllocError, Global};

/// Arguments up to this sign.
pub fn arguments_to(
    alloc: Global,
    sign: Sign,
    brackets: bool,
    begun: Box<Begun>,
    mut left: Left,
) -> Result<State, AllocError>
    ensures { IfOk result (λ s. state_of s ≡ by.arguments_to (sign_meant sign) brackets (all_begun begun.value some_arguments_read) (left_of left)) }
{
    if left.take_sign(sign) {
        let arguments = Box::new(alloc, no_arguments(alloc))?;
        let next = Next::Found(Part::Arguments(arguments));
        return Ok(State { next, begun, left });
    }
    let begun = begin(begun, Frame::Arguments(ArgumentsFrame::To(sign)))?;
    let next = Next::Arguments { brackets };
    Ok(State { next, begun, left })
}

/// What goes on behind an item of braces: another one, or the closing brace.
pub fn items_on(
    alloc: Global,
    brackets: bool,
    allowed: Allowed,
    item: BracedItem,
    begun: Box<Begun>,
    mut left: Left,
) -> Result<State, AllocError>
    ensures { IfOk result (λ s. state_of s ≡ by.items_on brackets (allowed_of allowed) (item_of item) (all_begun begun.value some_items_read)
        (left_of left)) }
{
    if left.take_sign(Sign::Comma) {
        let begun = begin(begun, Frame::Items(ItemsFrame::Behind(item)))?;
        let next = Next::Items { brackets, allowed };
        return Ok(State { next, begun, left });
    }
    let items = with_item(alloc, item, no_more(alloc, allowed))?;
    let next = Next::Found(Part::Items(Box::new(alloc, items)?));
    Ok(past_sign(Sign::CloseBrace, next, begun, left))
}

/// The codes of errors: every one, or those of a list.
pub fn codes_begin(
    alloc: Global,
    brackets: bool,
    begun: Box<Begun>,
    mut left: Left,
) -> Result<State, AllocError>
    ensures { IfOk result (λ s. state_of s ≡ by.codes_begin brackets (all_begun begun.value some_codes_read) (left_of left)) }
{
    if left.take_keyword(Keyword::Any) {
        let codes = FoundCodes {
            tree: Codes::Any,
            nodes: Nodes::none(alloc),
        };
        let next = Next::Found(Part::Codes(Box::new(alloc, codes)?));
        return Ok(State { next, begun, left });
    }
    let begun = begin(begun, Frame::Arguments(ArgumentsFrame::Codes))?;
    let next = Next::Arguments { brackets };
    Ok(State { next, begun, left })
}

/// A statement, which ends with a semicolon.
pub fn statement_ended(
    alloc: Global,
    statement: FoundStatement,
    begun: Box<Begun>,
    left: Left,
) -> Result<State, AllocError>
    ensures { IfOk result (λ s. state_of s ≡ by.statement_ended (statement_found statement) (all_begun begun.value a_statement) (left_of left)) }
{
    let next = Next::Found(Part::Statement(Box::new(alloc, statement)?));
    Ok(past_sign(Sign::Semicolon, next, begun, left))
}

/// The expression of a head in its parentheses.
pub fn head_begins(
    alloc: Global,
    line: u64,
    head: Head,
    begun: Box<Begun>,
    left: Left,
) -> Result<State, AllocError>
    ensures { IfOk result (λ s. state_of s ≡ by.head_begins line (head_of head) (all_begun begun.value a_statement) (left_of left)) }
{
    let head = Box::new(alloc, head)?;
    let within = WithinStatement::HeadOf { line, head };
    let begun = begin(begun, Frame::Expression(ExpressionFrame::Statement(within)))?;
    let within = WithinExpression::Head;
    let begun = begin(
        begun,
        Frame::Expression(ExpressionFrame::Expression(within)),
    )?;
    let next = Next::Expression {
        brackets: false,
        level: 0,
    };
    Ok(past_sign(Sign::OpenParenthesis, next, begun, left))
}

// The word that ends a body.
fn end_word(body: &Body) -> Keyword
    ensures { keyword_meant result ≡ end_word (body_of body.now) }
{
    match body {
        Body::List(_, _) | Body::Range(_, _, _) => Keyword::EndFor,
        Body::While(_, _) => Keyword::EndWhile,
        Body::Fork(_, _) => Keyword::EndFork,
    }
}

/// The body of a loop or a fork.
pub fn body_begins(
    alloc: Global,
    line: u64,
    body: Body,
    begun: Box<Begun>,
    left: Left,
) -> Result<State, AllocError>
    ensures { IfOk result (λ s. state_of s ≡ goes (by.body_begins line (body_of body) (all_begun begun.value a_statement)) (left_of left)) }
{
    let end = end_word(&body);
    let body = Box::new(alloc, body)?;
    let begun = begin(begun, Frame::Block(BlockFrame::Body { line, body }))?;
    let begun = begin(begun, Frame::Block(BlockFrame::To(end)))?;
    let next = Next::Block;
    Ok(State { next, begun, left })
}
