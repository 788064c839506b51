//! Expressions that texts spell.
ghost use Rattle.std.specs.Prelude.{◌≡◌, ◌&&◌};
ghost use Rattle.spec_value.specs.Datum.{integer};
ghost use Rattle.spec_program.specs.Trees as spec;
ghost use Rattle.moo_tree.specs.ExpressionView.{arguments_of, codes_of, fallback_of, items_of};
ghost use Rattle.world_checks.specs.Fits.{one_argument_fits, one_item_fits, one_is_rest};

use crate::tree_checks::names::is_name;
use moo_tree::expression::{
    Argument, Codes, Expression, ExpressionNode, Fallback, Item, Target, TargetNode,
};
use moo_value::value::{Shown, Value};

/// Whether a text spells an expression, which stands in the brackets of an index or not.
#[cycle(fits)]
pub fn expression_fits(in_index: bool, expression: &Expression) -> bool
    ensures { result ≡ spec.expr_fits in_index expression.now }
{
    match &expression.node {
        ExpressionNode::Literal(value) => is_literal(value),
        ExpressionNode::Variable(name) => is_name(name),
        ExpressionNode::OwnLength => in_index,
        ExpressionNode::Unary(_, operand) => expression_fits(in_index, operand),
        ExpressionNode::Binary(_, left, right) => {
            expression_fits(in_index, left) && expression_fits(in_index, right)
        }
        ExpressionNode::Both(left, right) => {
            expression_fits(in_index, left) && expression_fits(in_index, right)
        }
        ExpressionNode::Either(left, right) => {
            expression_fits(in_index, left) && expression_fits(in_index, right)
        }
        ExpressionNode::Conditional(condition, value, other) => {
            expression_fits(in_index, condition)
                && (expression_fits(in_index, value) && expression_fits(in_index, other))
        }
        ExpressionNode::List(items) => arguments_fit(in_index, items),
        ExpressionNode::Call(function, arguments) => {
            is_name(function) && arguments_fit(in_index, arguments)
        }
        ExpressionNode::Property(object, name) => {
            expression_fits(in_index, object) && expression_fits(in_index, name)
        }
        ExpressionNode::VerbCall(object, name, arguments) => {
            expression_fits(in_index, object)
                && (expression_fits(in_index, name) && arguments_fit(in_index, arguments))
        }
        ExpressionNode::Index(base, index) => {
            expression_fits(in_index, base) && expression_fits(true, index)
        }
        ExpressionNode::Range(base, first, last) => {
            expression_fits(in_index, base)
                && (expression_fits(true, first) && expression_fits(true, last))
        }
        ExpressionNode::Catch(body, codes, fallback) => {
            expression_fits(in_index, body)
                && (codes_fit(in_index, codes) && fallback_fits(in_index, fallback))
        }
        ExpressionNode::Assignment(target, value) => {
            target_fits(in_index, target) && expression_fits(in_index, value)
        }
        ExpressionNode::Scatter(items, value) => {
            are_items(items) && (items_fit(in_index, items) && expression_fits(in_index, value))
        }
    }
}

// No list is a literal, and of the negative integers the least alone.
fn is_literal(value: &Value) -> bool
    ensures { result ≡ spec.is_literal value.now }
{
    value.know();
    match value.shown() {
        Shown::Integer(number) => is_written(number),
        Shown::List(_) => false,
        Shown::Object(_) | Shown::Text(_) | Shown::Error(_) => true,
    }
}

// A number behind a minus sign is no literal; the least one is written as the number behind the greatest.
fn is_written(number: i32) -> bool
    ensures { result ≡ spec.is_literal (integer number) }
{
    number >= 0 || number == i32::MIN
}

#[cycle(fits)]
fn arguments_fit(in_index: bool, arguments: &[Argument]) -> bool
    ensures { result ≡ spec.arguments_fit in_index (arguments_of arguments.now) }
{
    for argument in arguments {
        if !argument_fits(in_index, argument) {
            return false;
        }
    }
    true
}

#[cycle(fits)]
fn argument_fits(in_index: bool, argument: &Argument) -> bool
    ensures { result ≡ one_argument_fits in_index argument.now }
{
    match argument {
        Argument::Value(value) => expression_fits(in_index, value),
        Argument::Splice(list) => expression_fits(in_index, list),
    }
}

/// Whether a text spells the codes that a handler takes.
#[cycle(fits)]
pub fn codes_fit(in_index: bool, codes: &Codes) -> bool
    ensures { result ≡ spec.codes_fit in_index (codes_of codes.now) }
{
    match codes {
        Codes::Any => true,
        Codes::Listed(codes) => has_argument(codes) && arguments_fit(in_index, codes),
    }
}

fn has_argument(arguments: &[Argument]) -> bool
    ensures { result ≡ spec.has_argument (arguments_of arguments.now) }
{
    match arguments {
        [] => false,
        [_, ..] => true,
    }
}

#[cycle(fits)]
fn fallback_fits(in_index: bool, fallback: &Fallback) -> bool
    ensures { result ≡ spec.fallback_fits in_index (fallback_of fallback.now) }
{
    match fallback {
        Fallback::TheCode => true,
        Fallback::Instead(value) => expression_fits(in_index, value),
    }
}

#[cycle(fits)]
fn target_fits(in_index: bool, target: &Target) -> bool
    ensures { result ≡ spec.target_fits in_index target.now }
{
    match &target.node {
        TargetNode::Variable(name) => is_name(name),
        TargetNode::Property(object, name) => {
            expression_fits(in_index, object) && expression_fits(in_index, name)
        }
        TargetNode::Index(base, index) => {
            (goes_on(base) && target_fits(in_index, base)) && expression_fits(true, index)
        }
        TargetNode::Range(base, first, last) => {
            (goes_on(base) && target_fits(in_index, base))
                && (expression_fits(true, first) && expression_fits(true, last))
        }
    }
}

// A range is only the last step of a target.
fn goes_on(target: &Target) -> bool
    ensures { result ≡ spec.goes_on target.now }
{
    match &target.node {
        TargetNode::Range(_, _, _) => false,
        TargetNode::Variable(_) => true,
        TargetNode::Property(_, _) => true,
        TargetNode::Index(_, _) => true,
    }
}

// A scatter has an item, and one at most takes the rest.
fn are_items(items: &[Item]) -> bool
    ensures { result ≡ (spec.has_item (items_of items.now) && spec.rest_once (items_of items.now)) }
{
    has_item(items) && rest_once(items)
}

fn has_item(items: &[Item]) -> bool
    ensures { result ≡ spec.has_item (items_of items.now) }
{
    match items {
        [] => false,
        [_, ..] => true,
    }
}

fn rest_once(items: &[Item]) -> bool
    ensures { result ≡ spec.rest_once (items_of items.now) }
{
    for (index, item) in items.iter().enumerate() {
        if is_rest(item) {
            return !takes_rest(&items[index + 1..]);
        }
    }
    true
}

fn takes_rest(items: &[Item]) -> bool
    ensures { result ≡ spec.takes_rest (items_of items.now) }
{
    for item in items {
        if is_rest(item) {
            return true;
        }
    }
    false
}

fn is_rest(item: &Item) -> bool
    ensures { result ≡ one_is_rest item.now }
{
    match item {
        Item::Rest(_) => true,
        Item::Required(_) => false,
        Item::Optional(_) => false,
        Item::Default(_, _) => false,
    }
}

#[cycle(fits)]
fn items_fit(in_index: bool, items: &[Item]) -> bool
    ensures { result ≡ spec.items_fit in_index (items_of items.now) }
{
    for item in items {
        if !item_fits(in_index, item) {
            return false;
        }
    }
    true
}

#[cycle(fits)]
fn item_fits(in_index: bool, item: &Item) -> bool
    ensures { result ≡ one_item_fits in_index item.now }
{
    match item {
        Item::Required(name) => is_name(name),
        Item::Optional(name) => is_name(name),
        Item::Rest(name) => is_name(name),
        Item::Default(name, value) => is_name(name) && expression_fits(in_index, value),
    }
}
