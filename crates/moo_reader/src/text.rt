//! Names in lower case.

ghost use Rattle.std.specs.Prelude.{◌≡◌, IsTrue, IfOk};
ghost use Rattle.spec_value.specs.Datum.{is_text, fold_case};

use moo_value::text::Text;
use std::alloc::{AllocError, Global};

/// The text of these characters.
pub fn text_of(alloc: Global, bytes: &[u8]) -> Result<Text, AllocError>
    requires { IsTrue (is_text bytes.now) }
    ensures { IfOk result (λ t. t ≡ bytes.now) }
{
    match std::str::from_utf8(bytes) {
        Ok(text) => Text::from_str(alloc, text),
        Err(_) => unreachable!(),
    }
}

fn folded(alloc: Global, bytes: &[u8]) -> Result<Vec<u8>, AllocError>
    ensures { IfOk result (λ v. v.items ≡ fold_case bytes.now) }
{
    bytes.iter().map(|b| b.to_ascii_lowercase()).collect(alloc)
}

fn folded_text(alloc: Global, bytes: &[u8]) -> Result<Text, AllocError>
    requires { IsTrue (is_text bytes.now) }
    ensures { IfOk result (λ t. t ≡ fold_case bytes.now) }
{
    let folded = folded(alloc, bytes)?;
    text_of(alloc, &folded)
}

/// A text in lower case.
pub fn lower_case(alloc: Global, text: &Text) -> Result<Text, AllocError>
    ensures { IfOk result (λ t. t ≡ fold_case text.now) }
{
    text.know();
    folded_text(alloc, text.as_str().as_bytes())
}
