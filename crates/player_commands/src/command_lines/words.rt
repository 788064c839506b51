//! The words of a line.
ghost use Rattle.std.specs.Prelude.{◌≡◌, IfOk, IsTrue};
ghost use Rattle.spec_value.specs.Datum.{is_text};
ghost use Rattle.spec_world.specs.Words.{words as words_of};

use crate::command_lines::cutting::Cutting;
use moo_value::text::Text;
use std::alloc::{AllocError, Global};

/// The words of a line: cut at spaces; double quotes group, an empty pair being an empty word and an open one running to the end; a backslash takes
/// the next character, and a last one is nothing.
pub fn words(alloc: Global, line: &str) -> Result<Vec<Text>, AllocError>
    requires { IsTrue (is_text line.now) }
    ensures { IfOk result (λ v. v.items ≡ words_of line.now) }
{
    words_in(alloc, line.as_bytes())
}

// The words of these characters.
fn words_in(alloc: Global, line: &[u8]) -> Result<Vec<Text>, AllocError>
    requires { IsTrue (is_text line.now) }
    ensures { IfOk result (λ v. v.items ≡ words_of line.now) }
{
    let mut cutting = Cutting::new(alloc);
    for i in 0..line.len() {
        cutting.read(alloc, line[i])?;
    }
    cutting.finish(alloc)
}
