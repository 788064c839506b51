//! Trees of what was read.

ghost use Rattle.std.specs.Prelude.{◌≡◌, ◌++◌, ◌&&◌, [], not, IfOk};
ghost use Rattle.spec_program.specs.Tree as tree;
ghost use Rattle.spec_program.specs.ReadExpressions as by;
ghost use Rattle.spec_program.specs.Frames.{joins};
ghost use Rattle.moo_tree.specs.ExpressionView.{node_expr, items_of};
ghost use Rattle.moo_value.specs.Operators.{unary_of};
ghost use Rattle.moo_reader.specs.Views.{found_of, join_of, operand_of, arguments_found, codes_found, InOrder};

use crate::found::{
    Arguments, Braces, Found, FoundCodes, Join, Operand, Parts, as_operand, in_box, out_of_box,
};
use crate::node::{Nodes, followed, under};
use moo_tree::expression::{Argument, Expression, ExpressionNode, Fallback, Item, Target};
use moo_value::operator::UnaryOperator;
use moo_value::text::Text;
use std::alloc::{AllocError, Global};

/// An expression of this line, with the nodes of its parts.
#[inline(always)]
pub fn found_at(
    alloc: Global,
    line: u64,
    node: ExpressionNode,
    nodes: Nodes,
) -> Result<Found, AllocError>
    ensures { IfOk result (λ e. found_of e ≡ by.found_at line (node_expr node) nodes) }
{
    let nodes = under(line, nodes)?;
    in_box(alloc, line, Expression { node }, nodes)
}

/// An operand that is not assigned to.
pub fn whole(found: Found) -> Operand
    ensures { operand_of result ≡ by.whole (found_of found) }
{
    as_operand(found, false, false, Braces::NoScatter)
}

/// An operator before an operand.
pub fn unary(
    alloc: Global,
    operator: UnaryOperator,
    line: u64,
    operand: Found,
) -> Result<Found, AllocError>
    ensures { IfOk result (λ e. found_of e ≡ by.found_at line (tree.unary (unary_of operator) (found_of operand).tree) ((found_of operand).nodes)) }
{
    let Parts { tree, nodes, .. } = out_of_box(operand);
    let tree = Box::new(alloc, tree)?;
    found_at(alloc, line, ExpressionNode::Unary(operator, tree), nodes)
}

// Two expressions, and the nodes of both.
#[derive(Drop)]
struct Two {
    first: Box<Expression>,
    second: Box<Expression>,
    line: u64,
    nodes: Nodes,
}

#[inline(always)]
fn parts_of(alloc: Global, one: Found, other: Found) -> Result<Two, AllocError>
    ensures first { IfOk result (λ p. p.first.value ≡ (found_of one).tree) }
    ensures second { IfOk result (λ p. p.second.value ≡ (found_of other).tree) }
    ensures line { IfOk result (λ p. p.line ≡ (found_of one).line) }
    ensures nodes { IfOk result (λ p. p.nodes ≡ (found_of one).nodes ++ (found_of other).nodes) }
{
    let Parts { line, tree, nodes } = out_of_box(one);
    let Parts {
        tree: behind,
        nodes: others,
        ..
    } = out_of_box(other);
    let nodes = followed(nodes, others)?;
    let first = Box::new(alloc, tree)?;
    let second = Box::new(alloc, behind)?;
    Ok(Two {
        first,
        second,
        line,
        nodes,
    })
}

// An expression, and the nodes of its parts before those of two others.
#[derive(Drop)]
struct Before {
    tree: Box<Expression>,
    line: u64,
    nodes: Nodes,
}

fn put_before(alloc: Global, found: Found, others: Nodes) -> Result<Before, AllocError>
    ensures tree { IfOk result (λ p. p.tree.value ≡ (found_of found).tree) }
    ensures line { IfOk result (λ p. p.line ≡ (found_of found).line) }
    ensures nodes { IfOk result (λ p. p.nodes ≡ (found_of found).nodes ++ others) }
{
    let Parts { line, tree, nodes } = out_of_box(found);
    let nodes = followed(nodes, others)?;
    let tree = Box::new(alloc, tree)?;
    Ok(Before { tree, line, nodes })
}

fn join_node(join: Join, left: Box<Expression>, right: Box<Expression>) -> ExpressionNode
    ensures { node_expr result ≡ joins (join_of join) left.value right.value }
{
    match join {
        Join::Operator(operator) => ExpressionNode::Binary(operator, left, right),
        Join::Both => ExpressionNode::Both(left, right),
        Join::Either => ExpressionNode::Either(left, right),
    }
}

/// Two expressions and what stands between them.
pub fn joined(alloc: Global, join: Join, left: Found, right: Found) -> Result<Found, AllocError>
    ensures { IfOk result (λ e. found_of e ≡ by.found_at (found_of left).line (joins (join_of join) (found_of left).tree (found_of right).tree)
        ((found_of left).nodes ++ (found_of right).nodes)) }
{
    let Two {
        first,
        second,
        line,
        nodes,
    } = parts_of(alloc, left, right)?;
    found_at(alloc, line, join_node(join, first, second), nodes)
}

/// A condition and the two values.
pub fn conditional(
    alloc: Global,
    condition: Found,
    one: Found,
    other: Found,
) -> Result<Found, AllocError>
    ensures { IfOk result (λ e. found_of e ≡ by.found_at (found_of condition).line (tree.conditional (found_of condition).tree (found_of one).tree (found_of other).tree)
        ((found_of condition).nodes ++ ((found_of one).nodes ++ (found_of other).nodes))) }
{
    let Two {
        first,
        second,
        nodes: others,
        ..
    } = parts_of(alloc, one, other)?;
    let Before { tree, line, nodes } = put_before(alloc, condition, others)?;
    found_at(
        alloc,
        line,
        ExpressionNode::Conditional(tree, first, second),
        nodes,
    )
}

fn property(alloc: Global, object: Found, name: Found) -> Result<Found, AllocError>
    ensures { IfOk result (λ e. found_of e ≡ (by.property_of (found_of object) (found_of name)).found) }
{
    let Two {
        first,
        second,
        line,
        nodes,
    } = parts_of(alloc, object, name)?;
    found_at(alloc, line, ExpressionNode::Property(first, second), nodes)
}

/// A property of an object, by its name.
pub fn property_of(alloc: Global, object: Found, name: Found) -> Result<Operand, AllocError>
    ensures { IfOk result (λ o. operand_of o ≡ by.property_of (found_of object) (found_of name)) }
{
    let found = property(alloc, object, name)?;
    Ok(as_operand(found, true, false, Braces::NoScatter))
}

fn item(alloc: Global, list: Found, index: Found) -> Result<Found, AllocError>
    ensures { IfOk result (λ e. found_of e ≡ by.found_at (found_of list).line (tree.index (found_of list).tree (found_of index).tree)
        ((found_of list).nodes ++ (found_of index).nodes)) }
{
    let Two {
        first,
        second,
        line,
        nodes,
    } = parts_of(alloc, list, index)?;
    found_at(alloc, line, ExpressionNode::Index(first, second), nodes)
}

// Whether an operand is still a target behind one more step: a range is only the last one.
fn still_target(is_target: bool, ranged: bool) -> bool
    ensures { result ≡ (is_target && not ranged) }
{
    is_target && !ranged
}

/// An item, by its index.
pub fn index_of(alloc: Global, operand: Operand, index: Found) -> Result<Operand, AllocError>
    ensures { IfOk result (λ o. operand_of o ≡ by.index_of (operand_of operand) (found_of index)) }
{
    let Operand { whole } = operand;
    let is_target = still_target(whole.is_target, whole.ranged);
    let found = Found { whole };
    let found = item(alloc, found, index)?;
    Ok(as_operand(found, is_target, false, Braces::NoScatter))
}

fn range(alloc: Global, list: Found, first: Found, last: Found) -> Result<Found, AllocError>
    ensures { IfOk result (λ e. found_of e ≡ by.found_at (found_of list).line (tree.range (found_of list).tree (found_of first).tree (found_of last).tree)
        ((found_of list).nodes ++ ((found_of first).nodes ++ (found_of last).nodes))) }
{
    let Two {
        first,
        second,
        nodes: others,
        ..
    } = parts_of(alloc, first, last)?;
    let Before { tree, line, nodes } = put_before(alloc, list, others)?;
    found_at(
        alloc,
        line,
        ExpressionNode::Range(tree, first, second),
        nodes,
    )
}

/// A part, by its first and last index.
pub fn range_of(
    alloc: Global,
    operand: Operand,
    first: Found,
    last: Found,
) -> Result<Operand, AllocError>
    ensures { IfOk result (λ o. operand_of o ≡ by.range_of (operand_of operand) (found_of first) (found_of last)) }
{
    let Operand { whole } = operand;
    let is_target = still_target(whole.is_target, whole.ranged);
    let found = Found { whole };
    let found = range(alloc, found, first, last)?;
    Ok(as_operand(found, is_target, true, Braces::NoScatter))
}

/// No arguments.
pub fn no_arguments(alloc: Global) -> Arguments
    ensures { arguments_found result ≡ by.none_found }
{
    Arguments {
        reversed: Vec::new(alloc),
        nodes: Nodes::none(alloc),
    }
}

/// Arguments with one before them.
#[tactic(auto, using(crate::proofs::Lists::one_before))]
pub fn with_argument(
    spliced: bool,
    found: Found,
    arguments: Arguments,
) -> Result<Arguments, AllocError>
    ensures { IfOk result (λ es. arguments_found es ≡ by.with_argument spliced (found_of found) (arguments_found arguments)) }
{
    let Parts { tree, nodes, .. } = out_of_box(found);
    let Arguments {
        mut reversed,
        nodes: others,
    } = arguments;
    let nodes = followed(nodes, others)?;
    if spliced {
        reversed.push(Argument::Splice(tree))?;
    } else {
        reversed.push(Argument::Value(tree))?;
    }
    Ok(Arguments { reversed, nodes })
}

/// Arguments in their order.
pub fn in_order(arguments: Arguments) -> (Vec<Argument>, Nodes)
    ensures { InOrder result.0.items result.1 arguments }
{
    let Arguments {
        mut reversed,
        nodes,
    } = arguments;
    reversed.reverse();
    (reversed, nodes)
}

/// A call of a function, by its name in lower case.
pub fn call(alloc: Global, name: Text, line: u64, arguments: Arguments) -> Result<Found, AllocError>
    ensures { IfOk result (λ e. found_of e ≡ by.found_at line (tree.call name (arguments_found arguments).tree) (arguments_found arguments).nodes) }
{
    let (arguments, nodes) = in_order(arguments);
    found_at(alloc, line, ExpressionNode::Call(name, arguments), nodes)
}

/// A list.
pub fn listing(alloc: Global, line: u64, arguments: Arguments) -> Result<Found, AllocError>
    ensures { IfOk result (λ e. found_of e ≡ by.found_at line (tree.listing (arguments_found arguments).tree) (arguments_found arguments).nodes) }
{
    let (arguments, nodes) = in_order(arguments);
    found_at(alloc, line, ExpressionNode::List(arguments), nodes)
}

/// A call of a verb.
pub fn verb_call(
    alloc: Global,
    object: Found,
    name: Found,
    arguments: Arguments,
) -> Result<Found, AllocError>
    ensures { IfOk result (λ e. found_of e ≡ by.found_at (found_of object).line (tree.verb_call (found_of object).tree (found_of name).tree (arguments_found arguments).tree)
        ((found_of object).nodes ++ ((found_of name).nodes ++ (arguments_found arguments).nodes))) }
{
    let (arguments, of_arguments) = in_order(arguments);
    let Before {
        tree: second,
        nodes: others,
        ..
    } = put_before(alloc, name, of_arguments)?;
    let Before {
        tree: first,
        line,
        nodes,
    } = put_before(alloc, object, others)?;
    found_at(
        alloc,
        line,
        ExpressionNode::VerbCall(first, second, arguments),
        nodes,
    )
}

/// An assignment to a target of this line and these nodes.
pub fn assignment(
    alloc: Global,
    target: Target,
    line: u64,
    nodes: Nodes,
    value: Found,
) -> Result<Found, AllocError>
    ensures { IfOk result (λ e. found_of e ≡ by.found_at line (tree.assignment target (found_of value).tree)
        (nodes ++ (found_of value).nodes)) }
{
    let Parts {
        tree,
        nodes: others,
        ..
    } = out_of_box(value);
    let nodes = followed(nodes, others)?;
    let tree = Box::new(alloc, tree)?;
    found_at(alloc, line, ExpressionNode::Assignment(target, tree), nodes)
}

/// An assignment of a list's items.
pub fn scatter(
    alloc: Global,
    items: Vec<Item>,
    line: u64,
    nodes: Nodes,
    value: Found,
) -> Result<Found, AllocError>
    ensures { IfOk result (λ e. found_of e ≡ by.found_at line (tree.scatter (items_of items.items) (found_of value).tree)
        (nodes ++ (found_of value).nodes)) }
{
    let Parts {
        tree,
        nodes: others,
        ..
    } = out_of_box(value);
    let nodes = followed(nodes, others)?;
    let tree = Box::new(alloc, tree)?;
    found_at(alloc, line, ExpressionNode::Scatter(items, tree), nodes)
}

fn catch(alloc: Global, line: u64, found: Found, codes: FoundCodes) -> Result<Found, AllocError>
    ensures { IfOk result (λ e. found_of e ≡ (by.caught_with line (found_of found) (codes_found codes) tree.the_code []).found) }
{
    let FoundCodes {
        tree: codes,
        nodes: of_codes,
    } = codes;
    let Before { tree, nodes, .. } = put_before(alloc, found, of_codes)?;
    found_at(
        alloc,
        line,
        ExpressionNode::Catch(tree, codes, Fallback::TheCode),
        nodes,
    )
}

/// An expression whose errors of these codes are caught: the code itself stands in its place.
pub fn caught(
    alloc: Global,
    line: u64,
    found: Found,
    codes: FoundCodes,
) -> Result<Operand, AllocError>
    ensures { IfOk result (λ o. operand_of o ≡ by.caught_with line (found_of found) (codes_found codes) tree.the_code []) }
{
    let found = catch(alloc, line, found, codes)?;
    Ok(whole(found))
}

fn catch_instead(
    alloc: Global,
    line: u64,
    found: Found,
    codes: FoundCodes,
    value: Found,
) -> Result<Found, AllocError>
    ensures { IfOk result (λ e. found_of e ≡ (by.caught_with line (found_of found) (codes_found codes) (tree.instead (found_of value).tree)
        ((found_of value).nodes)).found) }
{
    let FoundCodes {
        tree: codes,
        nodes: of_codes,
    } = codes;
    let Parts {
        tree: other,
        nodes: of_value,
        ..
    } = out_of_box(value);
    let others = followed(of_codes, of_value)?;
    let other = Box::new(alloc, other)?;
    let Before { tree, nodes, .. } = put_before(alloc, found, others)?;
    found_at(
        alloc,
        line,
        ExpressionNode::Catch(tree, codes, Fallback::Instead(other)),
        nodes,
    )
}

/// An expression whose errors of these codes are caught, and the value that stands in its place.
pub fn caught_instead(
    alloc: Global,
    line: u64,
    found: Found,
    codes: FoundCodes,
    value: Found,
) -> Result<Operand, AllocError>
    ensures { IfOk result (λ o. operand_of o ≡ by.caught_with line (found_of found) (codes_found codes) (tree.instead (found_of value).tree)
        ((found_of value).nodes)) }
{
    let found = catch_instead(alloc, line, found, codes, value)?;
    Ok(whole(found))
}
