//! Texts of words and strings.

ghost use Rattle.std.specs.Prelude.{◌≡◌, IfOk};

use moo_value::text::Text;
use std::alloc::AllocError;

/// The text of these characters, which are allowed in every text that was cut into tokens. Others are answered as a lack of memory.
pub fn allowed_text(bytes: Vec<u8>) -> Result<Text, AllocError>
    ensures { IfOk result (λ t. t ≡ bytes.items) }
{
    let Ok(text) = String::from_utf8(bytes) else {
        return Err(AllocError);
    };
    match Text::new(text)? {
        Some(text) => Ok(text),
        None => Err(AllocError),
    }
}
