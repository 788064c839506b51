//! Programs that texts spell.
ghost use Rattle.std.specs.Prelude.{◌≡◌, [], IfOk};
ghost use Rattle.spec_program.specs.Trees.{program_fits};

use crate::tree_checks::statement::program_fits;
use moo_tree::statement::Tree;
use std::alloc::{AllocError, Global};

/// Whether a text spells the program: its names, literals and loops are such as texts write.
pub fn tree_is_spelled(alloc: Global, tree: &Tree) -> Result<bool, AllocError>
    ensures { IfOk result (λ spelled. spelled ≡ program_fits [] tree.now) }
{
    let none = Vec::new(alloc);
    let fits = program_fits(alloc, &none, tree.statements())?;
    Ok(fits)
}
