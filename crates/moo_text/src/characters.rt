//! Texts of single characters.
ghost use Rattle.std.specs.Prelude.{◌≡◌, IsTrue, IfOk};
ghost use Rattle.spec_value.specs.Datum.{is_text};

use moo_value::text::Text;
use std::alloc::{AllocError, Global};

/// The text of these characters.
pub fn text_of(alloc: Global, characters: &[u8]) -> Result<Text, AllocError>
    requires { IsTrue (is_text characters.now) }
    ensures { IfOk result (λ t. t ≡ characters.now) }
{
    match std::str::from_utf8(characters) {
        Ok(text) => Text::from_str(alloc, text),
        Err(_) => unreachable!(),
    }
}
