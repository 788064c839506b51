//! Values as text (Programmer's Manual, `tostr()` and `toliteral()`).
ghost use Rattle.std.specs.Prelude.{◌≡◌, ◌++◌, ◌<◌, IfOk, OnOk, IsTrue, string_bytes};
ghost use Rattle.std.specs.Fmt.{WritesOnOk, signed_decimal};
ghost use Rattle.spec_value.specs.Datum.{of_list, is_text};
ghost use Rattle.spec_value.specs.Literal.{literal, data_text, to_text, escape, escaped};

use crate::value::{Shown, Value};
use std::alloc::{AllocError, Global};
use std::fmt;
use std::fmt::Formatter;

/// A value as a program would write it. It is written straight to where it goes, and asks for no memory of its own.
#[derive(Clone, Copy)]
pub struct Literal<'a>(pub &'a Value);

impl fmt::Display for Literal<'_> {
    ghost use Rattle.std.specs.Prelude.{Some};
    ghost use Rattle.spec_value.specs.Literal.{literal};

    ghost output = { λ l. Some (literal l.0.now) };

    fn fmt<W: fmt::Write>(&self, f: &mut Formatter<W>) -> fmt::Result {
        write_literal(f, self.0)
    }
}

/// The value as a program would write it.
pub fn to_literal(alloc: Global, value: &Value) -> Result<String, AllocError>
    ensures { IfOk result (λ s. string_bytes s ≡ literal value.now) }
{
    Literal(value).to_string(alloc)
}

/// The value as people would read it: texts as they are, errors by their messages, lists as `{list}`.
pub fn to_str(alloc: Global, value: &Value) -> Result<String, AllocError>
    ensures { IfOk result (λ s. string_bytes s ≡ to_text value.now) }
{
    let mut text = String::new(alloc);
    write_str(&mut text, value)?;
    Ok(text)
}

/// Writes the value as people would read it, behind what is there.
pub fn write_str(out: &mut String, value: &Value) -> Result<(), AllocError>
    ensures { OnOk result (string_bytes out.new ≡ string_bytes out.old ++ to_text value.now) }
{
    match value.shown() {
        Shown::Integer(number) => write!(out, "{number}"),
        Shown::Object(number) => write!(out, "#{number}"),
        Shown::Text(text) => out.push_str(text),
        Shown::Error(error) => out.push_str(error.message()),
        Shown::List(_) => out.push_str("{list}"),
    }
}

#[cycle(literal)]
fn write_literal<W: fmt::Write>(f: &mut Formatter<W>, value: &Value) -> fmt::Result
    ensures { WritesOnOk W.write_str_gives f.old result (literal value.now) f.new }
{
    value.know();
    match value.shown() {
        Shown::Integer(number) => write_number(f, number),
        Shown::Object(number) => {
            write_mark(f, "#")?;
            write_number(f, number)
        }
        Shown::Text(text) => {
            write_mark(f, "\"")?;
            write_escaped(f, text)?;
            write_mark(f, "\"")
        }
        Shown::Error(error) => write_mark(f, error.name()),
        Shown::List(items) => {
            write_mark(f, "{")?;
            write_items(f, items)?;
            write_mark(f, "}")
        }
    }
}

#[cycle(literal)]
fn write_items<W: fmt::Write>(f: &mut Formatter<W>, items: &[Value]) -> fmt::Result
    ensures { WritesOnOk W.write_str_gives f.old result (data_text (of_list items.now)) f.new }
{
    if let Some((first, rest)) = items.split_first() {
        write_literal(f, first)?;
        for item in rest {
            write_mark(f, ", ")?;
            write_literal(f, item)?;
        }
    }
    Ok(())
}

// A function of its own, as those for numbers and texts are, so that a value that nests deep takes little stack for each level.
#[inline(never)]
fn write_mark<W: fmt::Write>(f: &mut Formatter<W>, mark: &str) -> fmt::Result
    ensures { WritesOnOk W.write_str_gives f.old result mark.now f.new }
{
    f.write_str(mark)
}

#[inline(never)]
fn write_number<W: fmt::Write>(f: &mut Formatter<W>, number: i32) -> fmt::Result
    ensures { WritesOnOk W.write_str_gives f.old result (signed_decimal number) f.new }
{
    write!(f, "{number}")
}

// Writes a text with a backslash before each quote and backslash.
#[inline(never)]
fn write_escaped<W: fmt::Write>(f: &mut Formatter<W>, text: &str) -> fmt::Result
    requires { IsTrue (is_text text.now) }
    ensures { WritesOnOk W.write_str_gives f.old result (escaped text.now) f.new }
{
    for byte in text.as_bytes() {
        write_escaped_byte(f, *byte)?;
    }
    Ok(())
}

fn write_escaped_byte<W: fmt::Write>(f: &mut Formatter<W>, byte: u8) -> fmt::Result
    requires { byte < 128 }
    ensures { WritesOnOk W.write_str_gives f.old result (escape byte) f.new }
{
    if byte == b'"' || byte == b'\\' {
        f.write_str("\\")?;
    }
    f.write_char(char::from(byte))
}
