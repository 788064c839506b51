//! Variables as they are lent.
ghost use Rattle.std.specs.Prelude.{IsTrue};
ghost use Rattle.spec_value.specs.Datum.{is_text};

use moo_value::value::Value;

/// A variable with its value, of which both are lent.
#[derive(Clone, Copy)]
pub struct Lent<'a> {
    pub name: &'a str,
    pub value: &'a Value,
    ghost is_allowed: { IsTrue (is_text name.now) },
}
