//! Texts of lines.
ghost use Rattle.std.specs.Prelude.{◌≡◌, IfOk, string_bytes};
ghost use Rattle.spec_program.specs.ReadPrograms.{joined_lines};

use moo_value::text::Text;
use std::alloc::{AllocError, Global};

/// These lines, each with its line feed.
pub fn joined(alloc: Global, lines: &[Text]) -> Result<String, AllocError>
    ensures { IfOk result (λ t. string_bytes t ≡ joined_lines lines.now) }
{
    let mut text = String::new(alloc);
    for line in lines {
        text.push_str(line.as_str())?;
        text.push_str("\n")?;
    }
    Ok(text)
}
