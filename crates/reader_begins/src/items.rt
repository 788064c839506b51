//! What begins an argument, and an item of braces.

ghost use Rattle.std.specs.Prelude.{◌≡◌, IfOk};
ghost use Rattle.spec_program.specs.Frames.{some_arguments_read, some_items_read};
ghost use Rattle.spec_program.specs.Frames as f;
ghost use Rattle.spec_program.specs.ReadExpressions.{scatter_alone};
ghost use Rattle.spec_reader.specs.Begins as meant;
ghost use Rattle.spec_reader.specs.Ends as by;
ghost use Rattle.moo_reader.specs.Views.{allowed_of};
ghost use Rattle.reader_frames.specs.LeftView.{left_of};
ghost use Rattle.reader_frames.specs.FrameViews.{all_begun};
ghost use Rattle.reader_frames.specs.StateView.{state_of};

use crate::parts::part_begins;
use moo_reader::found::{Allowed, BracedItem};
use moo_token::token::Sign;
use moo_value::text::Text;
use reader_frames::allowed::{rest_allowed, scatter_alone, with_rest};
use reader_frames::begun::Begun;
use reader_frames::ends::items_on;
use reader_frames::frame::{ExpressionFrame, WithinItems};
use reader_frames::left::{Left, Word};
use reader_frames::state::{State, stuck};
use std::alloc::{AllocError, Global};

/// An argument.
pub fn arguments_begin(
    brackets: bool,
    begun: Box<Begun>,
    mut left: Left,
) -> Result<State, AllocError>
    ensures { IfOk result (λ s. state_of s ≡ meant.arguments_begin brackets (all_begun begun.value some_arguments_read) (left_of left)) }
{
    if left.take_sign(Sign::At) {
        let spliced = true;
        let frame = ExpressionFrame::Argument { brackets, spliced };
        return part_begins(frame, brackets, 0, begun, left);
    }
    let spliced = false;
    let frame = ExpressionFrame::Argument { brackets, spliced };
    part_begins(frame, brackets, 0, begun, left)
}

// An item that is an expression, spliced or not.
#[inline(always)]
fn expression_item(
    brackets: bool,
    allowed: Allowed,
    spliced: bool,
    begun: Box<Begun>,
    left: Left,
) -> Result<State, AllocError>
    ensures { IfOk result (λ s. state_of s ≡ meant.expression_item brackets (allowed_of allowed) spliced (all_begun begun.value some_items_read)
        (left_of left)) }
{
    let within = WithinItems::Value {
        brackets,
        allowed,
        spliced,
    };
    part_begins(ExpressionFrame::Items(within), brackets, 0, begun, left)
}

// An item without a sign before it.
#[inline(always)]
fn plain_item(
    alloc: Global,
    brackets: bool,
    allowed: Allowed,
    begun: Box<Begun>,
    mut left: Left,
) -> Result<State, AllocError>
    ensures { IfOk result (λ s. state_of s ≡ meant.plain_item brackets (allowed_of allowed) (all_begun begun.value some_items_read) (left_of left)) }
{
    if let Some(word) = left.take_word_alone()? {
        let Word { text, line } = word;
        let item = BracedItem::Bare(text, line);
        let state = items_on(alloc, brackets, allowed, item, begun, left)?;
        return Ok(state);
    }
    expression_item(brackets, allowed, false, begun, left)
}

// Behind `@` where a list is possible.
fn rest_item(
    alloc: Global,
    brackets: bool,
    allowed: Allowed,
    begun: Box<Begun>,
    mut left: Left,
) -> Result<State, AllocError>
    ensures { IfOk result (λ s. state_of s ≡ meant.rest_item brackets (allowed_of allowed) (all_begun begun.value some_items_read) (left_of left)) }
{
    if let Some(word) = left.take_word_alone()? {
        let Word { text, line } = word;
        let item = BracedItem::BareRest(text, line);
        return items_on(alloc, brackets, rest_allowed(allowed), item, begun, left);
    }
    expression_item(brackets, allowed, true, begun, left)
}

// A variable of a scatter that the list may have no value for.
fn bare_optional(
    alloc: Global,
    brackets: bool,
    allowed: Allowed,
    name: Text,
    begun: Box<Begun>,
    left: Left,
) -> Result<State, AllocError>
    ensures { IfOk result (λ s. state_of s ≡ by.items_on brackets (scatter_alone (allowed_of allowed)) (f.bare_optional name)
        (all_begun begun.value some_items_read) (left_of left)) }
{
    let item = BracedItem::BareOptional(name);
    items_on(alloc, brackets, scatter_alone(allowed), item, begun, left)
}

// Behind `?` and a name.
fn optional_named(
    alloc: Global,
    brackets: bool,
    allowed: Allowed,
    name: Text,
    begun: Box<Begun>,
    mut left: Left,
) -> Result<State, AllocError>
    ensures { IfOk result (λ s. state_of s ≡ meant.optional_named brackets (allowed_of allowed) (all_begun begun.value some_items_read) name
        (left_of left)) }
{
    if left.take_sign(Sign::Assign) {
        let within = WithinItems::Default {
            brackets,
            allowed,
            name,
        };
        return part_begins(ExpressionFrame::Items(within), brackets, 0, begun, left);
    }
    bare_optional(alloc, brackets, allowed, name, begun, left)
}

// Behind `?`.
fn optional_item(
    alloc: Global,
    brackets: bool,
    allowed: Allowed,
    begun: Box<Begun>,
    mut left: Left,
) -> Result<State, AllocError>
    ensures { IfOk result (λ s. state_of s ≡ meant.optional_item brackets (allowed_of allowed) (all_begun begun.value some_items_read) (left_of left)) }
{
    match left.take_word()? {
        Some(word) => optional_named(alloc, brackets, allowed, word.text, begun, left),
        None => Ok(stuck(begun, left)),
    }
}

// An item that is no optional one.
#[inline(always)]
fn listed_item(
    alloc: Global,
    brackets: bool,
    allowed: Allowed,
    begun: Box<Begun>,
    mut left: Left,
) -> Result<State, AllocError>
    ensures { IfOk result (λ s. state_of s ≡ meant.listed_item brackets (allowed_of allowed) (all_begun begun.value some_items_read) (left_of left)) }
{
    if left.take_sign(Sign::At) {
        let state = rest_item(alloc, brackets, allowed, begun, left)?;
        return Ok(state);
    }
    plain_item(alloc, brackets, allowed, begun, left)
}

// An item where a list is possible, and perhaps a scatter.
#[inline(always)]
fn item_of_list(
    alloc: Global,
    brackets: bool,
    allowed: Allowed,
    begun: Box<Begun>,
    mut left: Left,
) -> Result<State, AllocError>
    ensures { IfOk result (λ s. state_of s ≡ meant.item_of_list allowed.as_scatter brackets (allowed_of allowed) (all_begun begun.value some_items_read)
        (left_of left)) }
{
    if !allowed.as_scatter {
        if left.begins_with(Sign::Question) {
            return Ok(stuck(begun, left));
        }
        return listed_item(alloc, brackets, allowed, begun, left);
    }
    if left.take_sign(Sign::Question) {
        let state = optional_item(alloc, brackets, allowed, begun, left)?;
        return Ok(state);
    }
    listed_item(alloc, brackets, allowed, begun, left)
}

// A variable that takes an item.
fn scatter_plain(
    alloc: Global,
    brackets: bool,
    allowed: Allowed,
    begun: Box<Begun>,
    mut left: Left,
) -> Result<State, AllocError>
    ensures { IfOk result (λ s. state_of s ≡ meant.scatter_plain brackets (allowed_of allowed) (all_begun begun.value some_items_read) (left_of left)) }
{
    let Some(word) = left.take_word()? else {
        return Ok(stuck(begun, left));
    };
    let Word { text, line } = word;
    let item = BracedItem::Bare(text, line);
    items_on(alloc, brackets, allowed, item, begun, left)
}

// Behind `@`: a variable that takes the rest.
fn scatter_rest(
    alloc: Global,
    brackets: bool,
    allowed: Allowed,
    begun: Box<Begun>,
    mut left: Left,
) -> Result<State, AllocError>
    ensures { IfOk result (λ s. state_of s ≡ meant.scatter_rest brackets (allowed_of allowed) (all_begun begun.value some_items_read) (left_of left)) }
{
    let Some(word) = left.take_word()? else {
        return Ok(stuck(begun, left));
    };
    let Word { text, line } = word;
    let item = BracedItem::BareRest(text, line);
    items_on(alloc, brackets, with_rest(allowed), item, begun, left)
}

// A variable, of which one at most takes the rest.
fn scatter_unless(
    alloc: Global,
    brackets: bool,
    allowed: Allowed,
    begun: Box<Begun>,
    mut left: Left,
) -> Result<State, AllocError>
    ensures { IfOk result (λ s. state_of s ≡ meant.scatter_unless allowed.has_rest brackets (allowed_of allowed) (all_begun begun.value some_items_read)
        (left_of left)) }
{
    if allowed.has_rest {
        if left.begins_with(Sign::At) {
            return Ok(stuck(begun, left));
        }
        return scatter_plain(alloc, brackets, allowed, begun, left);
    }
    if left.take_sign(Sign::At) {
        scatter_rest(alloc, brackets, allowed, begun, left)
    } else {
        scatter_plain(alloc, brackets, allowed, begun, left)
    }
}

// An item where only a scatter is possible.
fn item_of_scatter(
    alloc: Global,
    brackets: bool,
    allowed: Allowed,
    begun: Box<Begun>,
    mut left: Left,
) -> Result<State, AllocError>
    ensures { IfOk result (λ s. state_of s ≡ meant.item_of_scatter brackets (allowed_of allowed) (all_begun begun.value some_items_read) (left_of left)) }
{
    if left.take_sign(Sign::Question) {
        optional_item(alloc, brackets, allowed, begun, left)
    } else {
        scatter_unless(alloc, brackets, allowed, begun, left)
    }
}

/// An item of braces.
#[inline(always)]
pub fn items_begin(
    alloc: Global,
    brackets: bool,
    allowed: Allowed,
    begun: Box<Begun>,
    left: Left,
) -> Result<State, AllocError>
    ensures { IfOk result (λ s. state_of s ≡ meant.item_by allowed.as_list brackets (allowed_of allowed) (all_begun begun.value some_items_read)
        (left_of left)) }
{
    if !allowed.as_list {
        let state = item_of_scatter(alloc, brackets, allowed, begun, left)?;
        return Ok(state);
    }
    item_of_list(alloc, brackets, allowed, begun, left)
}
