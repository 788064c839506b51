//! Search, comparison and replacement in texts.
ghost use Rattle.std.specs.Prelude.{◌≡◌, IfOk};
ghost use Rattle.spec_value.specs.PureBuiltins.{row, index_row, rindex_row, strcmp_row, strsub_row, case_counts as case_counts_of};
ghost use Rattle.spec_value.specs.Operators.{counted as counted_of};
ghost use Rattle.spec_value.specs.Answer.{limited_answer};
ghost use Rattle.moo_value.specs.Answers.{answer_of};

use moo_text::replace::substitute_text;
use moo_text::search::{find, find_last};
use moo_value::answer::Answer;
use moo_value::error::MooError;
use moo_value::value::{Shown, Value};
use std::alloc::{AllocError, Global};
use std::cmp::Ordering;

// The case of letters counts if the last argument is true.
fn case_counts(arguments: &[Value]) -> bool
    ensures { result ≡ case_counts_of arguments.now }
{
    match arguments {
        [] => false,
        [value, ..] => value.is_true(),
    }
}

// A place counted from 1, or 0.
fn counted(place: Option<usize>) -> Value
    ensures { result ≡ counted_of place }
{
    match place {
        Some(place) => Value::count(place.saturating_add(1)),
        None => Value::count(0),
    }
}

pub(crate) fn index(arguments: &[Value]) -> Answer
    ensures { answer_of result ≡ row index_row arguments.now }
{
    let [text, sought, rest @ ..] = arguments else {
        return Err(MooError::TypeMismatch);
    };
    match (text.shown(), sought.shown()) {
        (Shown::Text(text), Shown::Text(sought)) => Ok(counted(find(
            text,
            sought,
            case_counts(rest),
        ))),
        _ => Err(MooError::TypeMismatch),
    }
}

pub(crate) fn rindex(arguments: &[Value]) -> Answer
    ensures { answer_of result ≡ row rindex_row arguments.now }
{
    let [text, sought, rest @ ..] = arguments else {
        return Err(MooError::TypeMismatch);
    };
    match (text.shown(), sought.shown()) {
        (Shown::Text(text), Shown::Text(sought)) => Ok(counted(find_last(
            text,
            sought,
            case_counts(rest),
        ))),
        _ => Err(MooError::TypeMismatch),
    }
}

pub(crate) fn strcmp(arguments: &[Value]) -> Answer
    ensures { answer_of result ≡ row strcmp_row arguments.now }
{
    let [left, right] = arguments else {
        return Err(MooError::WrongArgumentCount);
    };
    match (left.shown(), right.shown()) {
        (Shown::Text(left), Shown::Text(right)) => Ok(Value::integer(
            match left.as_bytes().cmp(right.as_bytes()) {
                Ordering::Less => -1,
                Ordering::Equal => 0,
                Ordering::Greater => 1,
            },
        )),
        _ => Err(MooError::TypeMismatch),
    }
}

pub(crate) fn strsub(alloc: Global, arguments: &[Value]) -> Result<Answer, AllocError>
    ensures { IfOk result (λ r. limited_answer (answer_of r) ≡ limited_answer (row strsub_row arguments.now)) }
{
    let [text, sought, replacement, rest @ ..] = arguments else {
        return Ok(Err(MooError::TypeMismatch));
    };
    text.know();
    replacement.know();
    match (text.shown(), sought.shown(), replacement.shown()) {
        (Shown::Text(text), Shown::Text(sought), Shown::Text(replacement)) => {
            if sought.is_empty() {
                return Ok(Err(MooError::InvalidArgument));
            }
            match substitute_text(alloc, text, sought, replacement, case_counts(rest))? {
                Some(text) => Ok(Ok(Value::text(text))),
                None => Ok(Err(MooError::LimitExceeded)),
            }
        }
        _ => Ok(Err(MooError::TypeMismatch)),
    }
}
