//! Operators between two operands.
ghost use Rattle.std.specs.Prelude.{◌≡◌, ◌<◌, length, IfOk, IfSome};
ghost use Rattle.spec_value.specs.Datum.{of_list};
ghost use Rattle.spec_value.specs.Operators.{binary_value, sum as sum_of, alike, membership as membership_of, first_place};
ghost use Rattle.spec_value.specs.Operators.{minus, times, divided_by, remainder_by, to_the, less as less_op, less_or_equal as less_or_equal_op, greater as greater_op, greater_or_equal as greater_or_equal_op};
ghost use Rattle.moo_value.specs.Answers.{answer_of};
ghost use Rattle.moo_value.specs.Operators.{binary_of};

use crate::arithmetic;
use moo_value::answer::{Answer, WEIGHT_LIMIT};
use moo_value::compare::{order, same};
use moo_value::error::MooError;
use moo_value::operator::BinaryOperator;
use moo_value::text::Text;
use moo_value::value::{Shown, Value};
use std::alloc::{AllocError, Global};

/// What an operator between two operands answers.
pub fn binary(
    alloc: Global,
    operator: BinaryOperator,
    left: &Value,
    right: &Value,
) -> Result<Answer, AllocError>
    ensures { IfOk result (λ r. answer_of r ≡ binary_value (binary_of operator) left.now right.now) }
{
    match operator {
        BinaryOperator::Plus => sum(alloc, left, right),
        BinaryOperator::Equals => Ok(Ok(Value::truth(is_alike(left, right)))),
        BinaryOperator::Differs => Ok(Ok(Value::truth(!is_alike(left, right)))),
        BinaryOperator::IsIn => Ok(membership(left, right)),
        BinaryOperator::Less => Ok(less(left, right)),
        BinaryOperator::LessOrEqual => Ok(less_or_equal(left, right)),
        BinaryOperator::Greater => Ok(greater(left, right)),
        BinaryOperator::GreaterOrEqual => Ok(greater_or_equal(left, right)),
        BinaryOperator::Minus => Ok(difference(left, right)),
        BinaryOperator::Times => Ok(product(left, right)),
        BinaryOperator::DividedBy => Ok(quotient(left, right)),
        BinaryOperator::RemainderBy => Ok(remainder(left, right)),
        BinaryOperator::ToThe => Ok(power(left, right)),
    }
}

// Two integers, or two texts one behind the other.
fn sum(alloc: Global, left: &Value, right: &Value) -> Result<Answer, AllocError>
    ensures { IfOk result (λ r. answer_of r ≡ sum_of left.now right.now) }
{
    left.know();
    right.know();
    match (left.shown(), right.shown()) {
        (Shown::Integer(m), Shown::Integer(n)) => Ok(arithmetic::sum(m, n)),
        (Shown::Text(s), Shown::Text(t)) => {
            if s.len() >= WEIGHT_LIMIT || t.len() >= WEIGHT_LIMIT - s.len() {
                return Ok(Err(MooError::LimitExceeded));
            }
            Ok(Ok(Value::text(Text::joined(alloc, "", s, t)?)))
        }
        _ => Ok(Err(MooError::TypeMismatch)),
    }
}

fn difference(left: &Value, right: &Value) -> Answer
    ensures { answer_of result ≡ binary_value minus left.now right.now }
{
    match (left.shown(), right.shown()) {
        (Shown::Integer(m), Shown::Integer(n)) => arithmetic::difference(m, n),
        _ => Err(MooError::TypeMismatch),
    }
}

fn product(left: &Value, right: &Value) -> Answer
    ensures { answer_of result ≡ binary_value times left.now right.now }
{
    match (left.shown(), right.shown()) {
        (Shown::Integer(m), Shown::Integer(n)) => arithmetic::product(m, n),
        _ => Err(MooError::TypeMismatch),
    }
}

fn quotient(left: &Value, right: &Value) -> Answer
    ensures { answer_of result ≡ binary_value divided_by left.now right.now }
{
    match (left.shown(), right.shown()) {
        (Shown::Integer(m), Shown::Integer(n)) => arithmetic::quotient(m, n),
        _ => Err(MooError::TypeMismatch),
    }
}

fn remainder(left: &Value, right: &Value) -> Answer
    ensures { answer_of result ≡ binary_value remainder_by left.now right.now }
{
    match (left.shown(), right.shown()) {
        (Shown::Integer(m), Shown::Integer(n)) => arithmetic::remainder(m, n),
        _ => Err(MooError::TypeMismatch),
    }
}

fn power(left: &Value, right: &Value) -> Answer
    ensures { answer_of result ≡ binary_value to_the left.now right.now }
{
    match (left.shown(), right.shown()) {
        (Shown::Integer(m), Shown::Integer(n)) => arithmetic::power(m, n),
        _ => Err(MooError::TypeMismatch),
    }
}

fn less(left: &Value, right: &Value) -> Answer
    ensures { answer_of result ≡ binary_value less_op left.now right.now }
{
    Ok(Value::truth(order(left, right)?.is_lt()))
}

fn less_or_equal(left: &Value, right: &Value) -> Answer
    ensures { answer_of result ≡ binary_value less_or_equal_op left.now right.now }
{
    Ok(Value::truth(order(left, right)?.is_le()))
}

fn greater(left: &Value, right: &Value) -> Answer
    ensures { answer_of result ≡ binary_value greater_op left.now right.now }
{
    Ok(Value::truth(order(left, right)?.is_gt()))
}

fn greater_or_equal(left: &Value, right: &Value) -> Answer
    ensures { answer_of result ≡ binary_value greater_or_equal_op left.now right.now }
{
    Ok(Value::truth(order(left, right)?.is_ge()))
}

/// Whether two values are the same, the case of letters ignored.
fn is_alike(left: &Value, right: &Value) -> bool
    ensures { result ≡ alike left.now right.now }
{
    same(left, right)
}

// The first place of the left side in the right one, from 1, or 0.
fn membership(left: &Value, right: &Value) -> Answer
    ensures { answer_of result ≡ membership_of left.now right.now }
{
    match right.shown() {
        Shown::List(items) => match first_alike(left, items) {
            Some(place) => Ok(Value::count(place + 1)),
            None => Ok(Value::count(0)),
        },
        _ => Err(MooError::TypeMismatch),
    }
}

/// The first place from 0 whose item is the same as a value, the case of letters ignored.
pub fn first_alike(value: &Value, items: &[Value]) -> Option<usize>
    ensures place { result ≡ first_place (alike value.now) (of_list items.now) }
    ensures inside { IfSome result (λ i. i < length items.now) }
{
    for (i, item) in items.iter().enumerate() {
        if is_alike(value, item) {
            return Some(i);
        }
    }
    None
}
