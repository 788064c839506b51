//! Arithmetic of integers of 32 bits (Programmer's Manual, "Arithmetic Operators"). None of it takes memory.
ghost use Rattle.std.specs.Prelude.{◌≡◌, ◌+ℤ◌, ◌-ℤ◌, ◌*ℤ◌};
ghost use Rattle.spec_value.specs.Operators.{wrapped, quotient as quotient_of, remainder as remainder_of, power as power_of, inverse_power as inverse_power_of, unary_value};
ghost use Rattle.spec_value.specs.Operators.{negation};
ghost use Rattle.moo_value.specs.Answers.{answer_of};
ghost use Rattle.moo_value.specs.Operators.{unary_of};

use moo_value::answer::Answer;
use moo_value::error::MooError;
use moo_value::operator::UnaryOperator;
use moo_value::value::{Shown, Value};

/// `-` before an integer, else `E_TYPE`.
pub fn negate(value: &Value) -> Answer
    ensures { answer_of result ≡ unary_value negation value.now }
{
    match value.shown() {
        Shown::Integer(number) => Ok(Value::integer(number.wrapping_neg())),
        _ => Err(MooError::TypeMismatch),
    }
}

/// What an operator before one operand answers.
pub fn unary(operator: UnaryOperator, value: &Value) -> Answer
    ensures { answer_of result ≡ unary_value (unary_of operator) value.now }
{
    match operator {
        UnaryOperator::Negation => negate(value),
        UnaryOperator::NotTrue => Ok(Value::truth(!value.is_true())),
    }
}

pub(crate) fn sum(left: i32, right: i32) -> Answer
    ensures { answer_of result ≡ wrapped (left +ℤ right) }
{
    Ok(Value::integer(left.wrapping_add(right)))
}

pub(crate) fn difference(left: i32, right: i32) -> Answer
    ensures { answer_of result ≡ wrapped (left -ℤ right) }
{
    Ok(Value::integer(left.wrapping_sub(right)))
}

pub(crate) fn product(left: i32, right: i32) -> Answer
    ensures { answer_of result ≡ wrapped (left *ℤ right) }
{
    Ok(Value::integer(left.wrapping_mul(right)))
}

// Without the remainder.
pub(crate) fn quotient(left: i32, right: i32) -> Answer
    ensures { answer_of result ≡ quotient_of left right }
{
    if right == 0 {
        return Err(MooError::ZeroDivision);
    }
    Ok(Value::integer(left.wrapping_div(right)))
}

// With the sign of the left side.
pub(crate) fn remainder(left: i32, right: i32) -> Answer
    ensures { answer_of result ≡ remainder_of left right }
{
    if right == 0 {
        return Err(MooError::ZeroDivision);
    }
    Ok(Value::integer(left.wrapping_rem(right)))
}

pub(crate) fn power(base: i32, exponent: i32) -> Answer
    ensures { answer_of result ≡ power_of base exponent }
{
    if exponent >= 0 {
        return Ok(Value::integer(base.wrapping_pow(exponent.unsigned_abs())));
    }
    if base == 0 {
        return Err(MooError::ZeroDivision);
    }
    if base == 1 {
        return Ok(Value::integer(1));
    }
    if base == -1 {
        let odd = exponent.unsigned_abs() % 2 == 1;
        return Ok(Value::integer(if odd { -1 } else { 1 }));
    }
    Ok(Value::integer(0))
}
