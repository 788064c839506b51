//! Trees, unless they are too deep.

ghost use Rattle.std.specs.Prelude.{◌≡◌, None, IfOk, is_some};
ghost use Rattle.spec_program.specs.Tree as tree;
ghost use Rattle.spec_program.specs.ReadPrograms as by;
ghost use Rattle.moo_tree.specs.ExpressionView.{codes_of};
ghost use Rattle.moo_reader.specs.Views.{as_target, target_if};
ghost use Rattle.moo_reader.specs.BlockViews.{otherwise_of};
ghost use Rattle.reader_trim.specs.Shallow.{IsShallowOperand};

use moo_reader::node::Nodes;
use moo_reader::trim::too_deep;
use moo_tree::expression::{Codes, Expression, ExpressionNode};
use moo_tree::statement::{Statement, StatementNode};
use std::alloc::{AllocError, Global};

/// A list, or an empty one.
pub fn shallow_list<T: Drop>(alloc: Global, list: Vec<T>, nodes: &Nodes) -> Vec<T>
    ensures { by.too_deep nodes.now ≡ None → list.items ≡ result.items }
{
    match too_deep(nodes) {
        None => list,
        Some(_) => Vec::new(alloc),
    }
}

/// Codes, or all of them.
pub fn shallow_codes(codes: Codes, nodes: &Nodes) -> Codes
    ensures { by.too_deep nodes.now ≡ None → codes_of codes ≡ codes_of result }
{
    match too_deep(nodes) {
        None => codes,
        Some(_) => Codes::Any,
    }
}

/// A statement, or one that does nothing else than to end the program.
pub fn shallow_statement(statement: Statement, nodes: &Nodes) -> Statement
    ensures { by.too_deep nodes.now ≡ None → statement ≡ result }
{
    match too_deep(nodes) {
        None => statement,
        Some(_) => Statement {
            node: StatementNode::Return(None),
        },
    }
}

/// What is done otherwise, or nothing.
pub fn shallow_otherwise(otherwise: Option<Vec<Statement>>, nodes: &Nodes) -> Option<Vec<Statement>>
    ensures { by.too_deep nodes.now ≡ None → otherwise_of otherwise ≡ otherwise_of result }
{
    match too_deep(nodes) {
        None => otherwise,
        Some(_) => None,
    }
}

// Whether a tree can be assigned to.
fn is_assignable(tree: &Expression) -> bool
    ensures { result ≡ is_some (as_target tree.now) }
{
    match &tree.node {
        ExpressionNode::Variable(_) | ExpressionNode::Property(_, _) => true,
        ExpressionNode::Index(list, _) => is_assignable(list),
        ExpressionNode::Range(list, _, _) => is_assignable(list),
        _ => false,
    }
}

fn own_length() -> Expression
    ensures { result ≡ tree.own_length }
{
    Expression {
        node: ExpressionNode::OwnLength,
    }
}

// A tree that can be assigned to.
fn some_target(alloc: Global) -> Result<Expression, AllocError>
    ensures { IfOk result (λ e. e ≡ tree.property tree.own_length tree.own_length) }
{
    let object = Box::new(alloc, own_length())?;
    let name = Box::new(alloc, own_length())?;
    Ok(Expression {
        node: ExpressionNode::Property(object, name),
    })
}

// What stands in the place of an operand that is too deep: a target where it is one.
fn in_place_of(alloc: Global, is_target: bool, tree: &Expression) -> Result<Expression, AllocError>
    ensures { IfOk result (λ e. is_some (target_if is_target tree.now) ≡ is_some (target_if is_target e)) }
{
    if is_target && is_assignable(tree) {
        some_target(alloc)
    } else {
        Ok(own_length())
    }
}

/// An operand's tree, or a small one that is a target where this is one.
pub fn shallow_operand(
    alloc: Global,
    is_target: bool,
    tree: Expression,
    nodes: &Nodes,
) -> Result<Expression, AllocError>
    ensures { IfOk result (λ e. IsShallowOperand nodes.now is_target tree e) }
{
    match too_deep(nodes) {
        None => Ok(tree),
        Some(_) => in_place_of(alloc, is_target, &tree),
    }
}
