//! How tightly an operator between two expressions binds: the greater the level, the tighter.

ghost use Rattle.std.specs.Prelude.{◌≡◌};
ghost use Rattle.spec_program.specs.Spelling as spec;
ghost use Rattle.moo_value.specs.Operators.{binary_of};

use moo_value::operator::BinaryOperator;

/// An operator's own level.
pub fn operator_level(operator: BinaryOperator) -> u8
    ensures { result ≡ spec.operator_level (binary_of operator) }
{
    match operator {
        BinaryOperator::ToThe => 6,
        BinaryOperator::Times | BinaryOperator::DividedBy | BinaryOperator::RemainderBy => 5,
        BinaryOperator::Plus | BinaryOperator::Minus => 4,
        BinaryOperator::Equals
        | BinaryOperator::Differs
        | BinaryOperator::Less
        | BinaryOperator::LessOrEqual
        | BinaryOperator::Greater
        | BinaryOperator::GreaterOrEqual
        | BinaryOperator::IsIn => 3,
    }
}

/// The level that an operator's right operand has to have.
pub fn right_level(operator: BinaryOperator) -> u8
    ensures { result ≡ spec.right_level (binary_of operator) }
{
    match operator {
        BinaryOperator::ToThe => 6,
        _ => operator_level(operator) + 1,
    }
}
