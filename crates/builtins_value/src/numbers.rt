//! Numbers: of values and texts, and choices among them. None takes memory.
ghost use Rattle.std.specs.Prelude.{◌≡◌, ◌≤◌, ◌^◌, ◌*◌, ◌+◌, ◌-◌, ℕ, length, min as least, IfSome, option_map, option_copied};
ghost use Rattle.spec_value.specs.PureBuiltins.{row, toint_row, toobj_row, abs_row, min_row, max_row, number_in as number_in_of, object_in as object_in_of, signed_number as signed_number_of, without_spaces as without_spaces_of, after_mark as after_mark_of, all_spaces as all_spaces_of, numeral as numeral_of, starts_with_digit as starts_with_digit_of, is_digit as is_digit_of, positive as positive_of, negative as negative_of};
ghost use Rattle.moo_value.specs.Answers.{answer_of};

use moo_arith::arithmetic::negate;
use moo_value::answer::Answer;
use moo_value::error::MooError;
use moo_value::value::{Shown, Value};

pub(crate) fn abs(arguments: &[Value]) -> Answer
    ensures { answer_of result ≡ row abs_row arguments.now }
{
    let [value] = arguments else {
        return Err(MooError::WrongArgumentCount);
    };
    match value.shown() {
        Shown::Integer(number) if number < 0 => negate(value),
        Shown::Integer(number) => Ok(Value::integer(number)),
        _ => Err(MooError::TypeMismatch),
    }
}

pub(crate) fn min(arguments: &[Value]) -> Answer
    ensures { answer_of result ≡ row min_row arguments.now }
{
    let [first, rest @ ..] = arguments else {
        return Err(MooError::TypeMismatch);
    };
    let Shown::Integer(mut best) = first.shown() else {
        return Err(MooError::TypeMismatch);
    };
    for value in rest {
        let Shown::Integer(number) = value.shown() else {
            return Err(MooError::TypeMismatch);
        };
        best = best.min(number);
    }
    Ok(Value::integer(best))
}

pub(crate) fn max(arguments: &[Value]) -> Answer
    ensures { answer_of result ≡ row max_row arguments.now }
{
    let [first, rest @ ..] = arguments else {
        return Err(MooError::TypeMismatch);
    };
    let Shown::Integer(mut best) = first.shown() else {
        return Err(MooError::TypeMismatch);
    };
    for value in rest {
        let Shown::Integer(number) = value.shown() else {
            return Err(MooError::TypeMismatch);
        };
        best = best.max(number);
    }
    Ok(Value::integer(best))
}

pub(crate) fn toint(arguments: &[Value]) -> Answer
    ensures { answer_of result ≡ row toint_row arguments.now }
{
    let [value] = arguments else {
        return Err(MooError::WrongArgumentCount);
    };
    match value.shown() {
        Shown::Integer(number) | Shown::Object(number) => Ok(Value::integer(number)),
        Shown::Text(text) => Ok(Value::integer(number_in(text))),
        Shown::Error(error) => Ok(Value::integer(i32::from(error.number()))),
        Shown::List(_) => Err(MooError::TypeMismatch),
    }
}

pub(crate) fn toobj(arguments: &[Value]) -> Answer
    ensures { answer_of result ≡ row toobj_row arguments.now }
{
    let [value] = arguments else {
        return Err(MooError::WrongArgumentCount);
    };
    match value.shown() {
        Shown::Integer(number) | Shown::Object(number) => Ok(Value::object(number)),
        Shown::Text(text) => Ok(Value::object(object_in(text))),
        Shown::Error(error) => Ok(Value::object(i32::from(error.number()))),
        Shown::List(_) => Err(MooError::TypeMismatch),
    }
}

// The number that spaces, a sign, digits and spaces spell, or 0.
fn number_in(text: &str) -> i32
    ensures { result ≡ number_in_of text.now }
{
    signed_number(without_spaces(text.as_bytes()))
}

// The same with a `#` allowed before the sign.
fn object_in(text: &str) -> i32
    ensures { result ≡ object_in_of text.now }
{
    signed_number(after_mark(without_spaces(text.as_bytes())))
}

fn after_mark(bytes: &[u8]) -> &[u8]
    ensures { result.now ≡ after_mark_of bytes.now }
{
    match bytes {
        [first, rest @ ..] => if *first == b'#' { rest } else { bytes },
        [] => bytes,
    }
}

fn without_spaces(bytes: &[u8]) -> &[u8]
    ensures { result.now ≡ without_spaces_of bytes.now }
{
    let mut rest = bytes;
    'spaces: loop {
        match rest {
            [first, more @ ..] => {
                if *first != b' ' {
                    return rest;
                }
                rest = more;
            }
            [] => return rest,
        }
    }
}

fn all_spaces(bytes: &[u8]) -> bool
    ensures { result ≡ all_spaces_of bytes.now }
{
    for byte in bytes {
        if *byte != b' ' {
            return false;
        }
    }
    true
}

fn signed_number(bytes: &[u8]) -> i32
    ensures { result ≡ signed_number_of bytes.now }
{
    match bytes {
        [first, rest @ ..] => {
            if *first == b'-' {
                negative(numeral(rest))
            } else if *first == b'+' {
                positive(numeral(rest))
            } else {
                positive(numeral(bytes))
            }
        }
        [] => 0,
    }
}

// No number of this profile is as great.
const TOO_GREAT: u64 = 1 << 32;

// The number that digits and then spaces spell, or one that is too great as well.
fn numeral(bytes: &[u8]) -> Option<u64>
    ensures { result ≡ option_map (λ n. least n (2 ^ 32)) (numeral_of bytes.now) }
{
    if !starts_with_digit(bytes) {
        return None;
    }
    let mut number = 0;
    let mut rest = bytes;
    'digits: loop {
        let Some((first, more)) = rest.split_first() else {
            return Some(number);
        };
        if !is_digit(*first) {
            return if all_spaces(rest) { Some(number) } else { None };
        }
        number = (number * 10 + u64::from(*first - b'0')).min(TOO_GREAT);
        rest = more;
    }
}

fn starts_with_digit(bytes: &[u8]) -> bool
    ensures { result ≡ starts_with_digit_of bytes.now }
{
    match bytes {
        [first, ..] => is_digit(*first),
        [] => false,
    }
}

fn is_digit(byte: u8) -> bool
    ensures { result ≡ is_digit_of byte }
{
    byte >= b'0' && byte <= b'9'
}

fn positive(number: Option<u64>) -> i32
    ensures { result ≡ positive_of number }
{
    match number {
        Some(number) => match i32::try_from(number) {
            Ok(number) => number,
            Err(_) => 0,
        },
        None => 0,
    }
}

fn negative(number: Option<u64>) -> i32
    requires { IfSome number (λ n. n ≤ 2 ^ 32) }
    ensures { result ≡ negative_of number }
{
    match number {
        Some(number) => match i32::try_from(-(number as i64)) {
            Ok(number) => number,
            Err(_) => 0,
        },
        None => 0,
    }
}
