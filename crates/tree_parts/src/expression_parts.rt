//! The parts of expressions and targets. Each is asked for by how many stand before it.
ghost use Rattle.std.specs.Prelude.{◌≡◌, ◌∷◌, [], List, length, option_map, replicate};
ghost use Rattle.spec_program.specs.Construct.{of_expr, of_target};
ghost use Rattle.spec_program.specs.Tree as tree;
ghost use Rattle.spec_program.specs.Place as spec;
ghost use Rattle.moo_tree.specs.ExpressionView.{arguments_of, codes_of, fallback_of, items_of};
ghost use Rattle.tree_parts.specs.Nodes.{kinds_of};
ghost use Rattle.tree_parts.specs.Parts.{argument_expr, part_of};

use crate::holds::Values;
use crate::listed::{beside, no_tree, of_three, of_two, plain, sole};
use crate::node::Node;
use crate::parts::Part;
use moo_tree::expression::{
    Argument, Codes, Expression, ExpressionNode, Fallback, Item, Target, TargetNode,
};

/// A part of an expression.
pub fn expression_part<'a>(expression: &'a Expression, index: usize) -> Option<Part<'a>>
    ensures { option_map part_of result ≡ spec.nth (spec.expr_parts expression.now) index }
{
    match &expression.node {
        ExpressionNode::Literal(_) | ExpressionNode::Variable(_) | ExpressionNode::OwnLength => {
            None
        }
        ExpressionNode::Unary(_, a) => sole(plain(a, 0), index),
        ExpressionNode::Binary(_, a, b)
        | ExpressionNode::Property(a, b)
        | ExpressionNode::Index(a, b) => of_two(plain(a, 0), plain(b, 1), index),
        ExpressionNode::Both(a, b) | ExpressionNode::Either(a, b) => {
            of_two(plain(a, 0), plain(b, 0), index)
        }
        ExpressionNode::Conditional(a, b, c) => {
            of_three(plain(a, 0), plain(b, 0), plain(c, 0), index)
        }
        ExpressionNode::List(items) => argument_part(items, Values::AnyAndList(0), index),
        ExpressionNode::Call(_, arguments) => {
            argument_part(arguments, Values::AnyAndList(0), index)
        }
        ExpressionNode::VerbCall(object, name, arguments) => {
            verb_call_part(object, name, arguments, index)
        }
        ExpressionNode::Range(a, b, c) => of_three(plain(a, 0), plain(b, 1), plain(c, 2), index),
        ExpressionNode::Catch(body, codes, fallback) => catch_part(body, codes, fallback, index),
        ExpressionNode::Assignment(target, value) => assignment_part(target, value, index),
        ExpressionNode::Scatter(items, value) => scatter_part(items, value, index),
    }
}

/// A part of a target.
pub fn target_part<'a>(target: &'a Target, index: usize) -> Option<Part<'a>>
    ensures { option_map part_of result ≡ spec.nth (spec.target_parts target.now) index }
{
    match &target.node {
        TargetNode::Variable(_) => None,
        TargetNode::Property(object, name) => of_two(plain(object, 0), plain(name, 1), index),
        TargetNode::Index(inner, i) => of_two(whole_target(inner), behind_target(inner, i), index),
        TargetNode::Range(inner, first, last) => of_three(
            whole_target(inner),
            behind_target(inner, first),
            beside(Node::Expression(last), Values::TargetAndOne(inner)),
            index,
        ),
    }
}

fn whole_target<'a>(target: &'a Target) -> Part<'a>
    ensures { part_of result ≡ spec.part (of_target target.now) [] }
{
    beside(Node::Target(target), Values::Any(0))
}

// An expression that is computed above the values of a target.
fn behind_target<'a>(target: &'a Target, value: &'a Expression) -> Part<'a>
    ensures { part_of result ≡ spec.part (of_expr value.now) (replicate (spec.arity target.now) spec.any_value) }
{
    beside(Node::Expression(value), Values::Target(target))
}

fn assignment_part<'a>(target: &'a Target, value: &'a Expression, index: usize) -> Option<Part<'a>>
    ensures { option_map part_of result ≡ spec.nth (spec.expr_parts (tree.assignment target.now value.now)) index }
{
    of_two(whole_target(target), behind_target(target, value), index)
}

fn verb_call_part<'a>(
    object: &'a Expression,
    name: &'a Expression,
    arguments: &'a [Argument],
    index: usize,
) -> Option<Part<'a>>
    ensures { option_map part_of result ≡ spec.nth (spec.expr_parts (tree.verb_call object.now name.now (arguments_of arguments.now))) index }
{
    if index < 2 {
        of_two(plain(object, 0), plain(name, 1), index)
    } else {
        argument_part(arguments, Values::AnyAndList(2), index - 2)
    }
}

/// An argument, with what is held beside it.
pub fn argument_part<'a>(
    arguments: &'a [Argument],
    values: Values<'a>,
    index: usize,
) -> Option<Part<'a>>
    ensures { option_map part_of result ≡ spec.nth (spec.argument_parts (kinds_of values.entry) (arguments_of arguments.now)) index }
{
    if index < arguments.len() {
        let expression = argument_expression(&arguments[index]);
        Some(beside(Node::Expression(expression), values))
    } else {
        None
    }
}

// The expression of an argument, spliced or not.
fn argument_expression(argument: &Argument) -> &Expression
    ensures { result.now ≡ argument_expr argument.now }
{
    match argument {
        Argument::Value(expression) | Argument::Splice(expression) => expression,
    }
}

/// How many parts the codes of a handler are.
pub fn code_count(codes: &Codes) -> usize
    ensures { (kinds : List spec.Kind) → length (spec.code_parts kinds (codes_of codes.now)) ≡ result }
{
    match codes {
        Codes::Any => 0,
        Codes::Listed(codes) => codes.len(),
    }
}

/// A code of a handler, with what is held beside it.
pub fn code_part<'a>(codes: &'a Codes, values: Values<'a>, index: usize) -> Option<Part<'a>>
    ensures { option_map part_of result ≡ spec.nth (spec.code_parts (kinds_of values.entry) (codes_of codes.now)) index }
{
    match codes {
        Codes::Any => None,
        Codes::Listed(codes) => argument_part(codes, values, index),
    }
}

fn catch_part<'a>(
    body: &'a Expression,
    codes: &'a Codes,
    fallback: &'a Fallback,
    index: usize,
) -> Option<Part<'a>>
    ensures { option_map part_of result ≡ spec.nth (spec.expr_parts (tree.caught body.now (codes_of codes.now) (fallback_of fallback.now))) index }
{
    if index == 0 {
        return Some(beside(Node::Expression(body), Values::Codes(codes)));
    }
    let behind = index - 1;
    let count = code_count(codes);
    if behind < count {
        code_part(codes, Values::AnyAndList(0), behind)
    } else {
        fallback_part(fallback, behind - count)
    }
}

fn fallback_part<'a>(fallback: &'a Fallback, index: usize) -> Option<Part<'a>>
    ensures { option_map part_of result ≡ spec.nth (spec.fallback_parts (fallback_of fallback.now)) index }
{
    match fallback {
        Fallback::TheCode => None,
        Fallback::Instead(value) => sole(plain(value, 0), index),
    }
}

fn scatter_part<'a>(items: &'a [Item], value: &'a Expression, index: usize) -> Option<Part<'a>>
    ensures { option_map part_of result ≡ spec.nth (spec.expr_parts (tree.scatter (items_of items.now) value.now)) index }
{
    if index < items.len() {
        Some(item_part(&items[index]))
    } else {
        sole(plain(value, 0), index - items.len())
    }
}

fn item_part<'a>(item: &'a Item) -> Part<'a>
    ensures { spec.item_parts (items_of (item.now ∷ [])) ≡ part_of result ∷ [] }
{
    match item {
        Item::Required(_) | Item::Optional(_) | Item::Rest(_) => no_tree(),
        Item::Default(variable, value) => {
            beside(Node::Default(variable, value), Values::AnyAndList(0))
        }
    }
}
