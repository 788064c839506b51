//! Values, written as a program would write them.
ghost use Rattle.std.specs.Prelude.{◌≡◌, ◌<◌, ◌++◌, OnOk, IsTrue, string_bytes};
ghost use Rattle.std.specs.Fmt.{signed_decimal};
ghost use Rattle.spec_value.specs.Datum.{of_list, text as text_of, is_text};
ghost use Rattle.spec_value.specs.Literal.{literal, data_text, escape, escaped};

use itoa::Buffer;
use moo_value::value::{Shown, Value};
use std::alloc::AllocError;

/// Writes a value behind what is there. After an `Err` a part of it may stand there.
#[cycle(literal)]
pub fn put_value(out: &mut String, value: &Value) -> Result<(), AllocError>
    ensures { OnOk result (string_bytes out.new ≡ string_bytes out.old ++ literal value.now) }
{
    value.know();
    match value.shown() {
        Shown::Integer(number) => put_number(out, number),
        Shown::Object(number) => {
            out.push_str("#")?;
            put_number(out, number)
        }
        Shown::Text(text) => put_quoted(out, text),
        Shown::Error(error) => out.push_str(error.name()),
        Shown::List(items) => {
            out.push_str("{")?;
            put_items(out, items)?;
            out.push_str("}")
        }
    }
}

#[cycle(literal)]
fn put_items(out: &mut String, items: &[Value]) -> Result<(), AllocError>
    ensures { OnOk result (string_bytes out.new ≡ string_bytes out.old ++ data_text (of_list items.now)) }
{
    let Some((first, others)) = items.split_first() else {
        return Ok(());
    };
    put_value(out, first)?;
    for item in others {
        out.push_str(", ")?;
        put_value(out, item)?;
    }
    Ok(())
}

#[inline(never)]
fn put_number(out: &mut String, number: i32) -> Result<(), AllocError>
    ensures { OnOk result (string_bytes out.new ≡ string_bytes out.old ++ signed_decimal number) }
{
    let mut digits = Buffer::new();
    out.push_str(digits.format(number))
}

/// Writes a text, whose characters are known to be allowed, between quotes, with a backslash before each quote and backslash.
#[inline(never)]
pub fn put_quoted(out: &mut String, text: &str) -> Result<(), AllocError>
    requires { IsTrue (is_text text.now) }
    ensures { OnOk result (string_bytes out.new ≡ string_bytes out.old ++ literal (text_of text.now)) }
{
    out.push_str("\"")?;
    if is_plain(text) {
        out.push_str(text)?;
    } else {
        put_escaped(out, text)?;
    }
    out.push_str("\"")
}

// Whether a text has no quote and no backslash.
fn is_plain(text: &str) -> bool
    ensures { IsTrue result → escaped text.now ≡ text.now }
{
    for byte in text.as_bytes() {
        if *byte == b'"' || *byte == b'\\' {
            return false;
        }
    }
    true
}

// Writes a text with a backslash before each quote and backslash.
fn put_escaped(out: &mut String, text: &str) -> Result<(), AllocError>
    requires { IsTrue (is_text text.now) }
    ensures { OnOk result (string_bytes out.new ≡ string_bytes out.old ++ escaped text.now) }
{
    for byte in text.as_bytes() {
        put_byte(out, *byte)?;
    }
    Ok(())
}

fn put_byte(out: &mut String, byte: u8) -> Result<(), AllocError>
    requires { byte < 128 }
    ensures { OnOk result (string_bytes out.new ≡ string_bytes out.old ++ escape byte) }
{
    if byte == b'"' || byte == b'\\' {
        out.push_str("\\")?;
    }
    out.push(char::from(byte))
}
