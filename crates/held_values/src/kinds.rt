//! Kinds of values.
ghost use Rattle.std.specs.Prelude.{◌≡◌, pos, IsTrue};
ghost use Rattle.spec_value.specs.Datum.{integer};
ghost use Rattle.spec_program.specs.Place.{any_list};
ghost use Rattle.spec_world.specs.WellFormed as spec;
ghost use Rattle.held_values.specs.Told.{is_object as is_object_of, is_text as is_text_of};
ghost use Rattle.held_values.specs.Wanted.{has_items as has_items_of, is_counted as is_counted_of};

use moo_value::value::{Shown, Value};

/// Whether a value is a list.
pub fn is_list(value: &Value) -> bool
    ensures { result ≡ spec.kind_fits any_list value.now }
{
    match value.shown() {
        Shown::List(_) => true,
        _ => false,
    }
}

/// Whether a value is an object.
pub fn is_object(value: &Value) -> bool
    ensures { result ≡ is_object_of value.now }
{
    match value.shown() {
        Shown::Object(_) => true,
        _ => false,
    }
}

/// Whether a value is a text.
pub fn is_text(value: &Value) -> bool
    ensures { result ≡ is_text_of value.now }
{
    match value.shown() {
        Shown::Text(_) => true,
        _ => false,
    }
}

/// Whether a value is 0.
pub fn is_zero(value: &Value) -> bool
    ensures tells { IsTrue result → value.now ≡ integer (pos 0) }
    ensures finds { value.now ≡ integer (pos 0) → IsTrue result }
{
    match value.shown() {
        Shown::Integer(number) => number == 0,
        _ => false,
    }
}

/// Whether a value is a list with an item at least.
pub fn has_items(value: &Value) -> bool
    ensures { result ≡ has_items_of value.now }
{
    match value.shown() {
        Shown::List(items) => !items.is_empty(),
        _ => false,
    }
}

/// Whether a loop over a range can count a value.
pub fn is_counted(value: &Value) -> bool
    ensures { result ≡ is_counted_of value.now }
{
    match value.shown() {
        Shown::Integer(_) | Shown::Object(_) => true,
        _ => false,
    }
}
