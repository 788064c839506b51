//! Comparisons of what slots hold. None takes memory.
ghost use Rattle.std.specs.Prelude.{◌≡◌, ◌↔◌, IsTrue};

use crate::content::{Content, Shown};
use crate::spells::spells;
use moo_value::compare::equal;

impl Content {
    /// Whether two slots hold the same, the case of letters counted.
    pub fn same(&self, other: &Content) -> bool
        ensures { IsTrue result ↔ self.now ≡ other.now }
    {
        match (self.shown(), other.shown()) {
            (Shown::Clear, Shown::Clear) => true,
            (Shown::Value(a), Shown::Value(b)) => equal(a, b),
            (Shown::Value(a), Shown::Literal(b)) => spells(b, a),
            (Shown::Literal(a), Shown::Value(b)) => spells(a, b),
            (Shown::Literal(a), Shown::Literal(b)) => are_same(a, b),
            _ => false,
        }
    }
}

fn are_same(text: &str, other: &str) -> bool
    ensures { IsTrue result ↔ text.now ≡ other.now }
{
    text == other
}
