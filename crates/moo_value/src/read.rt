//! Values from their literals.
ghost use Rattle.std.specs.Prelude.{◌≡◌, ◌<◌, ◌≤◌, length, IfSome, [], ◌∷◌, IfOk, MatchOption, option_map};
ghost use Rattle.spec_value.specs.Literal.{literal};
ghost use Rattle.moo_value.specs.Errors.{code_of};
ghost use Rattle.moo_value.specs.Read.{digit_run, numeral_length, found, one_character, mark, after_name, IsNoLonger, FindsNumber, FindsError, FindsText, FindsValue, FindsItems, IsNoLiteralWithin};

use crate::error::MooError;
use crate::text::Text;
use crate::value::Value;
use crate::write::to_literal;
use std::alloc::{AllocError, Global};
use std::str;

/// How deep lists nest at most in a literal that is read. What walks over values recurses, so a text that nests deeper is refused before
/// it can overflow a stack. A value that weighs no more than a result may nests 65,536 lists at most, and what a server puts such values
/// into, as the arguments of a call or what a handler is told, adds a few.
pub const NESTING_LIMIT: usize = 100_000;

/// The value whose literal the text is, for values that nest no deeper than the limit.
pub fn from_literal(alloc: Global, text: &str) -> Result<Option<Value>, AllocError>
    ensures { IfOk result (λ o. MatchOption o (IsNoLiteralWithin NESTING_LIMIT text.now) (λ v. literal v ≡ text.now)) }
{
    let Some((value, rest)) = read_value(alloc, text.as_bytes(), NESTING_LIMIT)? else {
        return Ok(None);
    };
    if !rest.is_empty() {
        return Ok(None);
    }
    let again = to_literal(alloc, &value)?;
    if again.as_str() == text {
        Ok(Some(value))
    } else {
        Ok(None)
    }
}

#[cycle(read)]
fn read_value(
    alloc: Global,
    bytes: &[u8],
    room: usize,
) -> Result<Option<(Value, &[u8])>, AllocError>
    ensures shorter { IfOk result (λ o. IsNoLonger bytes.now o) }
    ensures finds { IfOk result (λ o. FindsValue room bytes.now o) }
{
    let Some((first, rest)) = byte_at_front(bytes) else {
        return Ok(None);
    };
    if first == b'{' {
        if room == 0 {
            return Ok(None);
        }
        return match read_items(alloc, rest, room - 1)? {
            Some((items, rest)) => Ok(Some((Value::list(items)?, rest))),
            None => Ok(None),
        };
    }
    if first == b'"' {
        return match read_text(alloc, rest)? {
            Some((text, rest)) => Ok(Some((Value::text(text), rest))),
            None => Ok(None),
        };
    }
    if first == b'#' {
        return match read_number(rest) {
            Some((n, rest)) => Ok(Some((Value::object(n), rest))),
            None => Ok(None),
        };
    }
    if first == b'E' {
        return match read_error(bytes) {
            Some((e, rest)) => Ok(Some((Value::error(e), rest))),
            None => Ok(None),
        };
    }
    match read_number(bytes) {
        Some((n, rest)) => Ok(Some((Value::integer(n), rest))),
        None => Ok(None),
    }
}

#[cycle(read)]
fn read_items(
    alloc: Global,
    bytes: &[u8],
    room: usize,
) -> Result<Option<(Vec<Value>, &[u8])>, AllocError>
    ensures shorter { IfOk result (λ o. IsNoLonger bytes.now o) }
    ensures finds { IfOk result (λ o. FindsItems room bytes.now (option_map (λ p. (p.0.items, p.1)) o)) }
{
    let mut items = Vec::new(alloc);
    match byte_at_front(bytes) {
        None => return Ok(None),
        Some((first, rest)) => {
            if first == b'}' {
                return Ok(Some((items, rest)));
            }
        }
    }
    let mut rest = bytes;
    'all: loop {
        match read_value(alloc, rest, room)? {
            None => return Ok(None),
            Some((item, after)) => {
                items.push(item)?;
                match read_mark(after) {
                    None => return Ok(None),
                    Some((ends, more)) => {
                        if ends {
                            return Ok(Some((items, more)));
                        }
                        rest = more;
                    }
                }
            }
        }
    }
}

fn read_mark(bytes: &[u8]) -> Option<(bool, &[u8])>
    ensures shorter { IfSome result (λ p. length p.1.now < length bytes.now) }
    ensures finds { found result ≡ mark bytes.now }
{
    match byte_at_front(bytes) {
        None => None,
        Some((first, rest)) => {
            if first == b'}' {
                return Some((true, rest));
            }
            if first != b',' {
                return None;
            }
            match byte_at_front(rest) {
                None => None,
                Some((second, more)) => {
                    if second == b' ' {
                        Some((false, more))
                    } else {
                        None
                    }
                }
            }
        }
    }
}

fn read_text(alloc: Global, bytes: &[u8]) -> Result<Option<(Text, &[u8])>, AllocError>
    ensures shorter { IfOk result (λ o. IsNoLonger bytes.now o) }
    ensures finds { IfOk result (λ o. FindsText bytes.now o) }
{
    let mut text = String::new(alloc);
    let mut rest = bytes;
    'characters: loop {
        let Some((first, more)) = byte_at_front(rest) else {
            return Ok(None);
        };
        if first == b'"' {
            return match Text::new(text)? {
                Some(text) => Ok(Some((text, more))),
                None => Ok(None),
            };
        }
        let Some((c, after)) = next_character(rest) else {
            return Ok(None);
        };
        if c >= 128 {
            return Ok(None);
        }
        text.push(char::from(c))?;
        rest = after;
    }
}

fn next_character(bytes: &[u8]) -> Option<(u8, &[u8])>
    ensures shorter { IfSome result (λ p. length p.1.now < length bytes.now) }
    ensures finds { found result ≡ one_character bytes.now }
{
    match byte_at_front(bytes) {
        None => None,
        Some((first, rest)) => {
            if first != b'\\' {
                return Some((first, rest));
            }
            byte_at_front(rest)
        }
    }
}

fn read_error(bytes: &[u8]) -> Option<(MooError, &[u8])>
    ensures shorter { IsNoLonger bytes.now result }
    ensures finds { FindsError bytes.now (option_map (λ p. (code_of p.0, p.1)) result) }
{
    for error in &MooError::ALL {
        if let Some(rest) = after(bytes, error.name().as_bytes()) {
            return Some((*error, rest));
        }
    }
    None
}

// What stands behind a name.
fn after<'a>(bytes: &'a [u8], name: &[u8]) -> Option<&'a [u8]>
    ensures shorter { IfSome result (λ rest. length rest.now ≤ length bytes.now) }
    ensures value { option_map (λ rest. rest.now) result ≡ after_name name.now bytes.now }
{
    let mut rest = bytes;
    for c in name {
        let Some((first, others)) = byte_at_front(rest) else {
            return None;
        };
        if first != *c {
            return None;
        }
        rest = others;
    }
    Some(rest)
}

fn read_number(bytes: &[u8]) -> Option<(i32, &[u8])>
    ensures shorter { IsNoLonger bytes.now result }
    ensures finds { FindsNumber bytes.now result }
{
    let (digits, rest) = bytes.split_at(numeral_end(bytes));
    match str::from_utf8(digits) {
        Err(_) => None,
        Ok(text) => match text.parse::<i32>() {
            Err(_) => None,
            Ok(n) => Some((n, rest)),
        },
    }
}

// Where a number at the front ends.
fn numeral_end(bytes: &[u8]) -> usize
    ensures within { result ≤ length bytes.now }
    ensures value { result ≡ numeral_length bytes.now }
{
    match bytes {
        [b'-', rest @ ..] => digits_end(rest) + 1,
        _ => digits_end(bytes),
    }
}

// How many digits stand at the front.
fn digits_end(bytes: &[u8]) -> usize
    ensures within { result ≤ length bytes.now }
    ensures value { result ≡ digit_run bytes.now }
{
    let mut count = 0;
    for byte in bytes {
        if *byte < b'0' || *byte > b'9' {
            return count;
        }
        count += 1;
    }
    count
}

// The first byte, and the rest.
fn byte_at_front(bytes: &[u8]) -> Option<(u8, &[u8])>
    ensures { MatchOption result (bytes.now ≡ []) (λ p. bytes.now ≡ p.0 ∷ p.1.now) }
{
    match bytes {
        [] => None,
        [first, rest @ ..] => Some((*first, rest)),
    }
}
