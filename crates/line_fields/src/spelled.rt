//! Values from their literals, in one walk over the bytes: no other spelling of a value is read, so none is spelled again to compare it.
ghost use Rattle.std.specs.Prelude.{◌≡◌, ◌<◌, ◌≤◌, length, IfSome, [], ◌∷◌, IfOk, MatchOption, option_map};
ghost use Rattle.moo_value.specs.Errors.{code_of};
ghost use Rattle.moo_value.specs.Read.{found, mark, after_name, IsNoLonger, FindsError, FindsValue, FindsItems};
ghost use Rattle.line_fields.specs.Said.{TellsError, TellsValue, TellsItems};

use crate::number::front_integer;
use crate::quoted::front_text;
use moo_value::error::MooError;
use moo_value::value::Value;
use std::alloc::{AllocError, Global};

/// The value whose literal stands at the front, of those that nest at most so deep, and what stands behind it.
#[cycle(read)]
pub fn front_value(
    alloc: Global,
    bytes: &[u8],
    room: usize,
) -> Result<Option<(Value, &[u8])>, AllocError>
    ensures shorter { IfOk result (λ o. IsNoLonger bytes.now o) }
    ensures finds { IfOk result (λ o. FindsValue room bytes.now o) }
    ensures tells { IfOk result (λ o. TellsValue room bytes.now o) }
{
    let Some((first, rest)) = byte_at_front(bytes) else {
        return Ok(None);
    };
    if first == b'{' {
        if room == 0 {
            return Ok(None);
        }
        return match front_items(alloc, rest, room - 1)? {
            Some((items, rest)) => Ok(Some((Value::list(items)?, rest))),
            None => Ok(None),
        };
    }
    if first == b'"' {
        return match front_text(alloc, rest)? {
            Some((text, rest)) => Ok(Some((Value::text(text), rest))),
            None => Ok(None),
        };
    }
    if first == b'#' {
        return match front_integer(rest) {
            Some((n, rest)) => Ok(Some((Value::object(n), rest))),
            None => Ok(None),
        };
    }
    if first == b'E' {
        return match front_error(bytes) {
            Some((e, rest)) => Ok(Some((Value::error(e), rest))),
            None => Ok(None),
        };
    }
    match front_integer(bytes) {
        Some((n, rest)) => Ok(Some((Value::integer(n), rest))),
        None => Ok(None),
    }
}

// The items of a list, behind its brace, and what stands behind the closing one.
#[cycle(read)]
fn front_items(
    alloc: Global,
    bytes: &[u8],
    room: usize,
) -> Result<Option<(Vec<Value>, &[u8])>, AllocError>
    ensures shorter { IfOk result (λ o. IsNoLonger bytes.now o) }
    ensures finds { IfOk result (λ o. FindsItems room bytes.now (option_map (λ p. (p.0.items, p.1)) o)) }
    ensures tells { IfOk result (λ o. TellsItems room bytes.now (option_map (λ p. (p.0.items, p.1)) o)) }
{
    let mut items = Vec::new(alloc);
    match byte_at_front(bytes) {
        None => return Ok(None),
        Some((first, rest)) => {
            if first == b'}' {
                return Ok(Some((items, rest)));
            }
        }
    }
    let mut rest = bytes;
    'all: loop {
        match front_value(alloc, rest, room)? {
            None => return Ok(None),
            Some((item, after)) => {
                items.push(item)?;
                match front_mark(after) {
                    None => return Ok(None),
                    Some((ends, more)) => {
                        if ends {
                            items.shrink_to_fit();
                            return Ok(Some((items, more)));
                        }
                        rest = more;
                    }
                }
            }
        }
    }
}

// What stands behind an item: the end of the list, or a comma and a space.
fn front_mark(bytes: &[u8]) -> Option<(bool, &[u8])>
    ensures shorter { IfSome result (λ p. length p.1.now < length bytes.now) }
    ensures finds { found result ≡ mark bytes.now }
{
    match byte_at_front(bytes) {
        None => None,
        Some((first, rest)) => {
            if first == b'}' {
                return Some((true, rest));
            }
            if first != b',' {
                return None;
            }
            match byte_at_front(rest) {
                None => None,
                Some((second, more)) => {
                    if second == b' ' {
                        Some((false, more))
                    } else {
                        None
                    }
                }
            }
        }
    }
}

fn front_error(bytes: &[u8]) -> Option<(MooError, &[u8])>
    ensures shorter { IsNoLonger bytes.now result }
    ensures finds { FindsError bytes.now (option_map (λ p. (code_of p.0, p.1)) result) }
    ensures tells { TellsError bytes.now (option_map (λ p. (code_of p.0, p.1)) result) }
{
    for error in &MooError::ALL {
        if let Some(rest) = after(bytes, error.name().as_bytes()) {
            return Some((*error, rest));
        }
    }
    None
}

// What stands behind a name.
fn after<'a>(bytes: &'a [u8], name: &[u8]) -> Option<&'a [u8]>
    ensures shorter { IfSome result (λ rest. length rest.now ≤ length bytes.now) }
    ensures value { option_map (λ rest. rest.now) result ≡ after_name name.now bytes.now }
{
    let mut rest = bytes;
    for c in name {
        let Some((first, others)) = byte_at_front(rest) else {
            return None;
        };
        if first != *c {
            return None;
        }
        rest = others;
    }
    Some(rest)
}

// The first byte, and the rest.
fn byte_at_front(bytes: &[u8]) -> Option<(u8, &[u8])>
    ensures { MatchOption result (bytes.now ≡ []) (λ p. bytes.now ≡ p.0 ∷ p.1.now) }
{
    match bytes {
        [] => None,
        [first, rest @ ..] => Some((*first, rest)),
    }
}
