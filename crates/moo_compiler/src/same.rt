//! Comparisons of programs. None takes memory.
ghost use Rattle.std.specs.Prelude.{◌≡◌, ◌↔◌, IsTrue};

use crate::program::Program;

impl Program {
    /// Whether two programs are the same, by their texts.
    pub fn same(&self, other: &Program) -> bool
        ensures { IsTrue result ↔ self.now ≡ other.now }
    {
        are_same(self.text(), other.text())
    }
}

fn are_same(text: &str, other: &str) -> bool
    ensures { IsTrue result ↔ text.now ≡ other.now }
{
    text == other
}
