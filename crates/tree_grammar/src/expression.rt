//! Expressions of the grammar, of bounded height.
ghost use Rattle.std.specs.Prelude.{◌≡◌, ◌≤◌, IsTrue};
ghost use Rattle.spec_value.specs.Datum.{integer};
ghost use Rattle.spec_program.specs.Trees as spec;
ghost use Rattle.moo_tree.specs.ExpressionView.{arguments_of, codes_of, fallback_of, items_of};
ghost use Rattle.tree_grammar.specs.Parts.{one_argument_fits, one_argument_height, one_item_fits, one_item_height};

use crate::item::are_items;
use crate::name::is_name;
use moo_tree::expression::{
    Argument, Codes, Expression, ExpressionNode, Fallback, Item, Target, TargetNode,
};
use moo_value::value::{Shown, Value};

/// Whether an expression is of the grammar and at most `room` nodes high. It stands in the brackets of an index or not.
#[cycle(expression)]
pub fn expression_fits(in_index: bool, expression: &Expression, room: u8) -> bool
    ensures fits { IsTrue result → IsTrue (spec.expr_fits in_index expression.now) }
    ensures height { IsTrue result → spec.expr_height expression.now ≤ room }
{
    if room == 0 {
        return false;
    }
    let inner = room - 1;
    match &expression.node {
        ExpressionNode::Literal(value) => is_literal(value),
        ExpressionNode::Variable(name) => is_name(name),
        ExpressionNode::OwnLength => in_index,
        ExpressionNode::Unary(_, operand) => expression_fits(in_index, operand, inner),
        ExpressionNode::Binary(_, left, right) => {
            expression_fits(in_index, left, inner) && expression_fits(in_index, right, inner)
        }
        ExpressionNode::Both(left, right) => {
            expression_fits(in_index, left, inner) && expression_fits(in_index, right, inner)
        }
        ExpressionNode::Either(left, right) => {
            expression_fits(in_index, left, inner) && expression_fits(in_index, right, inner)
        }
        ExpressionNode::Conditional(condition, value, other) => {
            expression_fits(in_index, condition, inner)
                && (expression_fits(in_index, value, inner)
                    && expression_fits(in_index, other, inner))
        }
        ExpressionNode::List(items) => arguments_fit(in_index, items, inner),
        ExpressionNode::Call(function, arguments) => {
            is_name(function) && arguments_fit(in_index, arguments, inner)
        }
        ExpressionNode::Property(object, name) => {
            expression_fits(in_index, object, inner) && expression_fits(in_index, name, inner)
        }
        ExpressionNode::VerbCall(object, name, arguments) => {
            expression_fits(in_index, object, inner)
                && (expression_fits(in_index, name, inner)
                    && arguments_fit(in_index, arguments, inner))
        }
        ExpressionNode::Index(base, index) => {
            expression_fits(in_index, base, inner) && expression_fits(true, index, inner)
        }
        ExpressionNode::Range(base, first, last) => {
            expression_fits(in_index, base, inner)
                && (expression_fits(true, first, inner) && expression_fits(true, last, inner))
        }
        ExpressionNode::Catch(body, codes, fallback) => {
            expression_fits(in_index, body, inner)
                && (codes_fit(in_index, codes, inner) && fallback_fits(in_index, fallback, inner))
        }
        ExpressionNode::Assignment(target, value) => {
            target_fits(in_index, target, inner) && expression_fits(in_index, value, inner)
        }
        ExpressionNode::Scatter(items, value) => {
            are_items(items)
                && (items_fit(in_index, items, inner) && expression_fits(in_index, value, inner))
        }
    }
}

// No list is a literal, and of the negative integers the least alone.
fn is_literal(value: &Value) -> bool
    ensures { result ≡ spec.is_literal value.now }
{
    value.know();
    match value.shown() {
        Shown::Integer(number) => is_written(number),
        Shown::List(_) => false,
        Shown::Object(_) | Shown::Text(_) | Shown::Error(_) => true,
    }
}

// A number behind a minus sign is no literal; the least one is written as the number behind the greatest.
fn is_written(number: i32) -> bool
    ensures { result ≡ spec.is_literal (integer number) }
{
    number >= 0 || number == i32::MIN
}

#[cycle(expression)]
fn arguments_fit(in_index: bool, arguments: &[Argument], room: u8) -> bool
    ensures fits { IsTrue result → IsTrue (spec.arguments_fit in_index (arguments_of arguments.now)) }
    ensures height { IsTrue result → spec.arguments_height (arguments_of arguments.now) ≤ room }
{
    for argument in arguments {
        if !argument_fits(in_index, argument, room) {
            return false;
        }
    }
    true
}

#[cycle(expression)]
fn argument_fits(in_index: bool, argument: &Argument, room: u8) -> bool
    ensures fits { IsTrue result → IsTrue (one_argument_fits in_index argument.now) }
    ensures height { IsTrue result → one_argument_height argument.now ≤ room }
{
    match argument {
        Argument::Value(value) => expression_fits(in_index, value, room),
        Argument::Splice(list) => expression_fits(in_index, list, room),
    }
}

/// Whether the codes that a handler takes are of the grammar, and each at most `room` nodes high.
#[cycle(expression)]
pub fn codes_fit(in_index: bool, codes: &Codes, room: u8) -> bool
    ensures fits { IsTrue result → IsTrue (spec.codes_fit in_index (codes_of codes.now)) }
    ensures height { IsTrue result → spec.codes_height (codes_of codes.now) ≤ room }
{
    match codes {
        Codes::Any => true,
        Codes::Listed(codes) => has_argument(codes) && arguments_fit(in_index, codes, room),
    }
}

fn has_argument(arguments: &[Argument]) -> bool
    ensures { result ≡ spec.has_argument (arguments_of arguments.now) }
{
    match arguments {
        [] => false,
        [_, ..] => true,
    }
}

#[cycle(expression)]
fn fallback_fits(in_index: bool, fallback: &Fallback, room: u8) -> bool
    ensures fits { IsTrue result → IsTrue (spec.fallback_fits in_index (fallback_of fallback.now)) }
    ensures height { IsTrue result → spec.fallback_height (fallback_of fallback.now) ≤ room }
{
    match fallback {
        Fallback::TheCode => true,
        Fallback::Instead(value) => expression_fits(in_index, value, room),
    }
}

#[cycle(expression)]
fn target_fits(in_index: bool, target: &Target, room: u8) -> bool
    ensures fits { IsTrue result → IsTrue (spec.target_fits in_index target.now) }
    ensures height { IsTrue result → spec.target_height target.now ≤ room }
{
    if room == 0 {
        return false;
    }
    let inner = room - 1;
    match &target.node {
        TargetNode::Variable(name) => is_name(name),
        TargetNode::Property(object, name) => {
            expression_fits(in_index, object, inner) && expression_fits(in_index, name, inner)
        }
        TargetNode::Index(base, index) => {
            (goes_on(base) && target_fits(in_index, base, inner))
                && expression_fits(true, index, inner)
        }
        TargetNode::Range(base, first, last) => {
            (goes_on(base) && target_fits(in_index, base, inner))
                && (expression_fits(true, first, inner) && expression_fits(true, last, inner))
        }
    }
}

// A range is only the last step of a target.
fn goes_on(target: &Target) -> bool
    ensures { result ≡ spec.goes_on target.now }
{
    match &target.node {
        TargetNode::Range(_, _, _) => false,
        TargetNode::Variable(_) => true,
        TargetNode::Property(_, _) => true,
        TargetNode::Index(_, _) => true,
    }
}

#[cycle(expression)]
fn items_fit(in_index: bool, items: &[Item], room: u8) -> bool
    ensures fits { IsTrue result → IsTrue (spec.items_fit in_index (items_of items.now)) }
    ensures height { IsTrue result → spec.items_height (items_of items.now) ≤ room }
{
    for item in items {
        if !item_fits(in_index, item, room) {
            return false;
        }
    }
    true
}

#[cycle(expression)]
fn item_fits(in_index: bool, item: &Item, room: u8) -> bool
    ensures fits { IsTrue result → IsTrue (one_item_fits in_index item.now) }
    ensures height { IsTrue result → one_item_height item.now ≤ room }
{
    match item {
        Item::Required(name) => is_name(name),
        Item::Optional(name) => is_name(name),
        Item::Rest(name) => is_name(name),
        Item::Default(name, value) => is_name(name) && expression_fits(in_index, value, room),
    }
}
