//! Kinds of values, texts of them, and comparisons.
ghost use Rattle.std.specs.Prelude.{◌≡◌, ◌++◌, IfOk, OnOk, string_bytes};
ghost use Rattle.spec_value.specs.PureBuiltins.{row, typeof_row, tostr_row, toliteral_row, equal_row, length_row, joined_texts};
ghost use Rattle.spec_value.specs.Datum.{same, of_list};
ghost use Rattle.spec_value.specs.Places.{item_count as item_count_of};
ghost use Rattle.moo_value.specs.Answers.{answer_of};

use moo_value::answer::Answer;
use moo_value::compare;
use moo_value::error::MooError;
use moo_value::text::Text;
use moo_value::value::{Shown, Value};
use moo_value::write::{to_literal, write_str};
use std::alloc::{AllocError, Global};

pub(crate) fn typeof_value(arguments: &[Value]) -> Answer
    ensures { answer_of result ≡ row typeof_row arguments.now }
{
    let [value] = arguments else {
        return Err(MooError::WrongArgumentCount);
    };
    Ok(Value::integer(match value.shown() {
        Shown::Integer(_) => 0,
        Shown::Object(_) => 1,
        Shown::Text(_) => 2,
        Shown::Error(_) => 3,
        Shown::List(_) => 4,
    }))
}

pub(crate) fn tostr(alloc: Global, arguments: &[Value]) -> Result<Answer, AllocError>
    ensures { IfOk result (λ r. answer_of r ≡ row tostr_row arguments.now) }
{
    let mut text = String::new(alloc);
    for value in arguments {
        value.know();
        write_str(&mut text, value)?;
    }
    Ok(Ok(Value::text(Text::from_string(text)?)))
}

pub(crate) fn toliteral(alloc: Global, arguments: &[Value]) -> Result<Answer, AllocError>
    ensures { IfOk result (λ r. answer_of r ≡ row toliteral_row arguments.now) }
{
    let [value] = arguments else {
        return Ok(Err(MooError::WrongArgumentCount));
    };
    value.know();
    Ok(Ok(Value::text(Text::from_string(to_literal(alloc, value)?)?)))
}

pub(crate) fn equal(arguments: &[Value]) -> Answer
    ensures { answer_of result ≡ row equal_row arguments.now }
{
    let [left, right] = arguments else {
        return Err(MooError::WrongArgumentCount);
    };
    Ok(Value::truth(is_equal(left, right)))
}

pub(crate) fn length(arguments: &[Value]) -> Answer
    ensures { answer_of result ≡ row length_row arguments.now }
{
    let [value] = arguments else {
        return Err(MooError::WrongArgumentCount);
    };
    match value.shown() {
        Shown::Text(text) => Ok(Value::count(text.len())),
        Shown::List(items) => Ok(Value::count(item_count(items))),
        _ => Err(MooError::TypeMismatch),
    }
}

/// Whether two values are the same, the case of letters counted.
pub(crate) fn is_equal(left: &Value, right: &Value) -> bool
    ensures { result ≡ same left.now right.now }
{
    compare::equal(left, right)
}

fn item_count(items: &[Value]) -> usize
    ensures { result ≡ item_count_of (of_list items.now) }
{
    items.len()
}
