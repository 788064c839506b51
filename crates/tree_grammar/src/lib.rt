//! Which source trees are programs (Programmer's Manual, "The MOO Programming Language"): those that some text spells.
#![tactic(auto)]

ghost use Rattle.std.specs.Prelude.{IfOk, IsTrue};
ghost use Rattle.spec_program.specs.Trees.{is_tree};

mod expression;
mod item;
mod loops;
mod name;
mod statement;

use crate::statement::program_fits;
use moo_tree::statement::Tree;
use std::alloc::{AllocError, Global};

/// How many statements and expressions a path of a program has at most.
const GREATEST_HEIGHT: u8 = 100;

/// Whether a tree is one of the grammar: one that some text spells. `true` is proved; it is `false` for whatever nests too deep.
pub fn is_of_grammar(alloc: Global, tree: &Tree) -> Result<bool, AllocError>
    ensures { IfOk result (λ yes. IsTrue yes → IsTrue (is_tree tree.now)) }
{
    let none = Vec::new(alloc);
    let fits = program_fits(alloc, &none, tree.statements(), GREATEST_HEIGHT)?;
    Ok(fits)
}
