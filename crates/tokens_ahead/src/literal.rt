//! Literals.
ghost use Rattle.std.specs.Prelude.{◌≡◌, ◌++◌, ◌∷◌, ◌≤◌, true, false, IfSome, IsTrue, decimal};
ghost use Rattle.spec_value.specs.Datum.{is_text};
ghost use Rattle.spec_value.specs.Literal.{escape, escaped};
ghost use Rattle.spec_program.specs.Tokens as spec;
ghost use Rattle.moo_value.specs.Errors.{code_of};
ghost use Rattle.tokens_ahead.specs.Bare.{bare};

use crate::front::{behind, behind_blanks, behind_byte, continues_word};
use itoa::Buffer;
use moo_value::error::MooError;

// What stands behind the digits of a number.
fn behind_digits(text: &[u8], number: u32) -> Option<&[u8]>
    ensures { IfSome result (λ r. text.now ≡ decimal number ++ r.now) }
{
    let mut digits = Buffer::new();
    behind(text, digits.format(number).as_bytes())
}

/// What stands behind this integer, if it is the next token.
pub fn behind_integer(text: &[u8], number: u32) -> Option<&[u8]>
    requires { number ≤ 2147483648 }
    ensures { IfSome result (λ r. bare text.now ≡ spec.integer number ∷ bare r.now) }
{
    let text = behind_blanks(text);
    let rest = behind_digits(text, number)?;
    if continues_word(rest) {
        return None;
    }
    Some(rest)
}

/// What stands behind the object with this number, if it is the next token.
pub fn behind_object(text: &[u8], number: u32) -> Option<&[u8]>
    requires { number ≤ 2147483647 }
    ensures { IfSome result (λ r. bare text.now ≡ spec.object false number ∷ bare r.now) }
{
    let text = behind_blanks(text);
    let digits = behind_byte(text, b'#')?;
    let rest = behind_digits(digits, number)?;
    if continues_word(rest) {
        return None;
    }
    Some(rest)
}

/// What stands behind the object whose number is this one below 0, if it is the next token.
pub fn behind_negative_object(text: &[u8], number: u32) -> Option<&[u8]>
    requires { number ≤ 2147483648 }
    ensures { IfSome result (λ r. bare text.now ≡ spec.object true number ∷ bare r.now) }
{
    let text = behind_blanks(text);
    let minus = behind_byte(text, b'#')?;
    let digits = behind_byte(minus, b'-')?;
    let rest = behind_digits(digits, number)?;
    if continues_word(rest) {
        return None;
    }
    Some(rest)
}

/// What stands behind the name of this error in capitals, if it is the next token.
pub fn behind_error(text: &[u8], error: MooError) -> Option<&[u8]>
    ensures { IfSome result (λ r. bare text.now ≡ spec.error_name (code_of error) ∷ bare r.now) }
{
    let text = behind_blanks(text);
    let rest = behind(text, error.name().as_bytes())?;
    if continues_word(rest) {
        return None;
    }
    Some(rest)
}

// What stands behind a character of a string.
fn behind_escape(text: &[u8], byte: u8) -> Option<&[u8]>
    ensures { IfSome result (λ r. text.now ≡ escape byte ++ r.now) }
{
    if byte == b'"' || byte == b'\\' {
        let rest = behind_byte(text, b'\\')?;
        return behind_byte(rest, byte);
    }
    behind_byte(text, byte)
}

// What stands behind the characters of a string: a backslash before each quotation mark and backslash.
fn behind_characters<'a>(text: &'a [u8], characters: &[u8]) -> Option<&'a [u8]>
    ensures { IfSome result (λ r. text.now ≡ escaped characters.now ++ r.now) }
{
    let mut rest = text;
    for byte in characters {
        match behind_escape(rest, *byte) {
            Some(behind) => rest = behind,
            None => return None,
        }
    }
    Some(rest)
}

/// What stands behind this string, if it is the next token and has no needless backslash.
pub fn behind_string<'a>(text: &'a [u8], characters: &[u8]) -> Option<&'a [u8]>
    requires { IsTrue (is_text characters.now) }
    ensures { IfSome result (λ r. bare text.now ≡ spec.string characters.now ∷ bare r.now) }
{
    let text = behind_blanks(text);
    let open = behind_byte(text, b'"')?;
    let close = behind_characters(open, characters)?;
    behind_byte(close, b'"')
}
