//! The lines of a program.
ghost use Rattle.std.specs.Prelude.{◌≡◌, IfOk};
ghost use Rattle.spec_program.specs.Spelling.{canonical_lines};

use crate::statement::put_statements;
use moo_tree::statement::Tree;
use moo_value::text::Text;
use std::alloc::{AllocError, Global};

/// The lines that spell a program: one for each head, each end word and each simple statement, what stands within another
/// statement two spaces to the right of it. Parentheses stand only where the tree would be another one without them.
pub fn print(alloc: Global, tree: &Tree) -> Result<Vec<Text>, AllocError>
    ensures { IfOk result (λ lines. lines.items ≡ canonical_lines tree.now) }
{
    let mut lines = Vec::new(alloc);
    let indent = Text::from_str(alloc, "")?;
    put_statements(alloc, &mut lines, &indent, tree.statements())?;
    Ok(lines)
}
