//! How tightly constructs bind: the greater the level, the tighter.
ghost use Rattle.std.specs.Prelude.{◌≡◌};
ghost use Rattle.spec_program.specs.Spelling as spec;
ghost use Rattle.moo_value.specs.Operators.{binary_of};

use moo_tree::expression::{Expression, ExpressionNode};
use moo_value::operator::BinaryOperator;

/// An operator's own level.
fn operator_level(operator: BinaryOperator) -> u8
    ensures { result ≡ spec.operator_level (binary_of operator) }
{
    match operator {
        BinaryOperator::ToThe => 6,
        BinaryOperator::Times | BinaryOperator::DividedBy | BinaryOperator::RemainderBy => 5,
        BinaryOperator::Plus | BinaryOperator::Minus => 4,
        BinaryOperator::Equals
        | BinaryOperator::Differs
        | BinaryOperator::Less
        | BinaryOperator::LessOrEqual
        | BinaryOperator::Greater
        | BinaryOperator::GreaterOrEqual
        | BinaryOperator::IsIn => 3,
    }
}

/// The level that an operator's left operand has to have.
pub fn left_level(operator: BinaryOperator) -> u8
    ensures { result ≡ spec.left_level (binary_of operator) }
{
    match operator {
        BinaryOperator::ToThe => 7,
        _ => operator_level(operator),
    }
}

/// The level that an operator's right operand has to have.
pub fn right_level(operator: BinaryOperator) -> u8
    ensures { result ≡ spec.right_level (binary_of operator) }
{
    match operator {
        BinaryOperator::ToThe => 6,
        _ => operator_level(operator) + 1,
    }
}

/// An expression's level.
pub fn level(expression: &Expression) -> u8
    ensures { result ≡ spec.level expression.now }
{
    match &expression.node {
        ExpressionNode::Assignment(_, _) | ExpressionNode::Scatter(_, _) => 0,
        ExpressionNode::Conditional(_, _, _) => 1,
        ExpressionNode::Both(_, _) | ExpressionNode::Either(_, _) => 2,
        ExpressionNode::Binary(operator, _, _) => operator_level(*operator),
        ExpressionNode::Unary(_, _) => 7,
        _ => 8,
    }
}
