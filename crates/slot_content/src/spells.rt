//! Whether a text is the literal of a value. It takes no memory.
ghost use Rattle.std.specs.Prelude.{◌≡◌, ◌↔◌, ◌++◌, [], ◌∷◌, IsTrue};
ghost use Rattle.std.specs.Fmt.{signed_decimal};
ghost use Rattle.spec_value.specs.Datum.{of_list, is_value};
ghost use Rattle.spec_value.specs.Literal.{literal, data_text, escape, escaped};
ghost use Rattle.slot_content.specs.Spells.{IsBehind};

use itoa::Buffer;
use moo_value::value::{Shown, Value};

/// Whether a text is the literal of a value.
pub(crate) fn spells(text: &str, value: &Value) -> bool
    ensures spelled { IsTrue result ↔ text.now ≡ literal value.now }
    ensures value { IsTrue (is_value value.now) }
{
    value.know();
    match behind_value(text.as_bytes(), value) {
        Some(rest) => rest.is_empty(),
        None => false,
    }
}

// What stands behind the literal of a value, if it stands at the front.
#[cycle(literal)]
fn behind_value<'a>(text: &'a [u8], value: &Value) -> Option<&'a [u8]>
    ensures { IsBehind text.now (literal value.now) result }
{
    value.know();
    match value.shown() {
        Shown::Integer(number) => behind_number(text, number),
        Shown::Object(number) => behind_number(behind(text, b"#")?, number),
        Shown::Text(characters) => behind_quoted(text, characters.as_bytes()),
        Shown::Error(error) => behind(text, error.name().as_bytes()),
        Shown::List(items) => behind(behind_items(behind(text, b"{")?, items)?, b"}"),
    }
}

#[cycle(literal)]
fn behind_items<'a>(text: &'a [u8], items: &[Value]) -> Option<&'a [u8]>
    ensures { IsBehind text.now (data_text (of_list items.now)) result }
{
    let Some((first, others)) = items.split_first() else {
        return Some(text);
    };
    let mut rest = behind_value(text, first)?;
    for item in others {
        rest = behind_value(behind(rest, b", ")?, item)?;
    }
    Some(rest)
}

fn behind_number(text: &[u8], number: i32) -> Option<&[u8]>
    ensures { IsBehind text.now (signed_decimal number) result }
{
    let mut buffer = Buffer::new();
    behind(text, buffer.format(number).as_bytes())
}

fn behind_quoted<'a>(text: &'a [u8], characters: &[u8]) -> Option<&'a [u8]>
    ensures { IsBehind text.now (34 ∷ (escaped characters.now ++ 34 ∷ [])) result }
{
    behind(behind_escaped(behind(text, b"\"")?, characters)?, b"\"")
}

fn behind_escaped<'a>(text: &'a [u8], characters: &[u8]) -> Option<&'a [u8]>
    ensures { IsBehind text.now (escaped characters.now) result }
{
    let mut rest = text;
    for byte in characters {
        rest = behind_escape(rest, *byte)?;
    }
    Some(rest)
}

fn behind_escape(text: &[u8], byte: u8) -> Option<&[u8]>
    ensures { IsBehind text.now (escape byte) result }
{
    if byte == b'"' || byte == b'\\' {
        behind(text, &[b'\\', byte])
    } else {
        behind(text, &[byte])
    }
}

// What stands behind some bytes, if they stand at the front.
fn behind<'a>(text: &'a [u8], front: &[u8]) -> Option<&'a [u8]>
    ensures { IsBehind text.now front.now result }
{
    text.strip_prefix(front)
}
