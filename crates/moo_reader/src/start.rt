//! What an operand begins with.

ghost use Rattle.std.specs.Prelude.{◌≡◌, [], IfOk};
ghost use Rattle.spec_value.specs.Datum.{fold_case};
ghost use Rattle.spec_program.specs.Tree as tree;
ghost use Rattle.spec_program.specs.ReadExpressions as by;
ghost use Rattle.spec_program.specs.FurtherMoves.{name_at};
ghost use Rattle.moo_tree.specs.ExpressionView.{node_expr};
ghost use Rattle.moo_reader.specs.Views.{found_of, operand_of, arguments_found};

use crate::build::{call, found_at, whole};
use crate::found::{Arguments, Braces, Found, Operand, as_operand};
use crate::node::Nodes;
use crate::text::lower_case;
use moo_tree::expression::ExpressionNode;
use moo_value::text::Text;
use moo_value::value::Value;
use std::alloc::{AllocError, Global};

// An expression that no other stands in.
fn leaf(alloc: Global, line: u64, node: ExpressionNode) -> Result<Found, AllocError>
    ensures { IfOk result (λ e. found_of e ≡ by.found_at line (node_expr node) []) }
{
    found_at(alloc, line, node, Nodes::none(alloc))
}

/// A literal.
pub fn literal(alloc: Global, line: u64, value: Value) -> Result<Operand, AllocError>
    ensures { IfOk result (λ o. operand_of o ≡ by.whole (by.found_at line (tree.literal value) [])) }
{
    let found = leaf(alloc, line, ExpressionNode::Literal(value))?;
    Ok(whole(found))
}

/// A name that is written plainly.
pub fn name(alloc: Global, line: u64, word: Text) -> Result<Found, AllocError>
    ensures { IfOk result (λ e. found_of e ≡ name_at line word) }
{
    leaf(alloc, line, ExpressionNode::Literal(Value::text(word)))
}

/// The system object.
pub fn system(alloc: Global, line: u64) -> Result<Found, AllocError>
    ensures { IfOk result (λ e. found_of e ≡ by.system_at line) }
{
    leaf(alloc, line, ExpressionNode::Literal(Value::object(0)))
}

/// `$` in brackets.
pub fn own_length(alloc: Global, line: u64) -> Result<Operand, AllocError>
    ensures { IfOk result (λ o. operand_of o ≡ by.whole (by.found_at line tree.own_length [])) }
{
    let found = leaf(alloc, line, ExpressionNode::OwnLength)?;
    Ok(whole(found))
}

/// A list of no items.
pub fn empty_list(alloc: Global, line: u64) -> Result<Operand, AllocError>
    ensures { IfOk result (λ o. operand_of o ≡ by.whole (by.found_at line (tree.listing tree.no_arguments) [])) }
{
    let found = leaf(alloc, line, ExpressionNode::List(Vec::new(alloc)))?;
    Ok(whole(found))
}

/// A variable, whatever the case of its name.
pub fn variable_found(alloc: Global, line: u64, word: &Text) -> Result<Found, AllocError>
    ensures { IfOk result (λ e. found_of e ≡ by.found_at line (tree.variable (fold_case word.now)) []) }
{
    let name = lower_case(alloc, word)?;
    leaf(alloc, line, ExpressionNode::Variable(name))
}

/// A variable that may be assigned to.
pub fn variable(alloc: Global, line: u64, word: &Text) -> Result<Operand, AllocError>
    ensures { IfOk result (λ o. operand_of o ≡ by.assignable (by.found_at line (tree.variable (fold_case word.now)) [])
        (tree.to_variable (fold_case word.now))) }
{
    let found = variable_found(alloc, line, word)?;
    Ok(as_operand(found, true, false, Braces::NoScatter))
}

/// A call of a function, whatever the case of its name.
pub fn function_call(
    alloc: Global,
    word: &Text,
    line: u64,
    arguments: Arguments,
) -> Result<Operand, AllocError>
    ensures { IfOk result (λ o. operand_of o ≡ by.whole (by.found_at line (tree.call (fold_case word.now) (arguments_found arguments).tree)
        (arguments_found arguments).nodes)) }
{
    let name = lower_case(alloc, word)?;
    let found = call(alloc, name, line, arguments)?;
    Ok(whole(found))
}
