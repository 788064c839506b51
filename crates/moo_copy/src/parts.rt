//! Copies of expressions whose parts are names, values or copies already.
ghost use Rattle.std.specs.Prelude.{◌≡◌, IfOk};
ghost use Rattle.spec_program.specs.Tree.{literal, variable, call};
ghost use Rattle.moo_tree.specs.ExpressionView.{arguments_of};

use moo_tree::expression::{Argument, Expression, ExpressionNode};
use moo_value::text::Text;
use moo_value::value::Value;
use std::alloc::AllocError;

/// A copy of a literal value.
pub fn copy_literal(value: &Value) -> Result<Expression, AllocError>
    ensures { IfOk result (λ e. e ≡ literal value.now) }
{
    Ok(Expression {
        node: ExpressionNode::Literal(value.clone()?),
    })
}

/// A copy of a variable.
pub fn copy_variable(name: &Text) -> Result<Expression, AllocError>
    ensures { IfOk result (λ e. e ≡ variable name.now) }
{
    Ok(Expression {
        node: ExpressionNode::Variable(name.clone()?),
    })
}

/// A call by a copy of its name.
pub fn copy_call(name: &Text, arguments: Vec<Argument>) -> Result<Expression, AllocError>
    ensures { IfOk result (λ e. e ≡ call name.now (arguments_of arguments.items)) }
{
    Ok(Expression {
        node: ExpressionNode::Call(name.clone()?, arguments),
    })
}
